//! A crate of FASTBUS segments, whole: what its eight calls do, and what holds of every run of them.
//! The rules stand as definitions in specs/. Here are the types that the definitions share with running code,
//! and a function for each statement that is proved of the definitions.
#![tactic(auto)]

mod calls;
mod cells;
mod laws;
mod parts;
mod replies;

pub use arbitration::Refusal;
pub use calls::Call;
pub use cells::{Cell, Space};
pub use laws::{
    a_call_brings_at_most_seven_grants, a_link_by_position_moves_no_pointer,
    a_refused_call_names_its_segment_and_changes_nothing, a_stopped_address_is_told_and_flagged,
    a_word_goes_over_two_interconnects, each_refusal_is_met,
    every_run_bounds_waiting_keeps_links_and_reads_the_last_word, the_bound_on_waiting_is_met,
    the_ten_examples_hold,
};
pub use parts::{Flags, Interconnect, Link, Operation, Pointers, Slot};
pub use replies::{Answer, Grant, Reason, Status, Stop};
