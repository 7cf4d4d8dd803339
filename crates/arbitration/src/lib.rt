//! The ownership of one FASTBUS segment: who owns it, who asks for it, who waits, and the arbitration request inhibit.
//! It knows nothing of cycles, modules or files.
#![tactic(auto)]

mod bus;
mod contenders;
mod replies;
mod scans;

pub use bus::Segment;
pub use bus::questions::Load;
pub use contenders::{Access, Contender, State};
pub use replies::{Answer, Event, Reason, Refusal, SetupFault};
