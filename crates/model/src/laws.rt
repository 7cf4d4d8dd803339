//! What is proved of the definitions. Each function does nothing: its contract is the statement.
ghost use Rattle.model.specs.Examples.{TheTenExamplesHold};
ghost use Rattle.model.specs.Laws.{EveryRunBoundsWaitingKeepsLinksAndReadsTheLastWord};
ghost use Rattle.model.specs.Singles.{ARefusedCallNamesItsSegmentAndChangesNothing, ACallBringsAtMostSevenGrants};
ghost use Rattle.model.specs.Witnesses.{TheBoundOnWaitingIsMet, AWordGoesOverTwoInterconnects, AStoppedAddressIsToldAndFlagged};
ghost use Rattle.model.specs.Witnesses.{ALinkByPositionMovesNoPointer, EachRefusalIsMet};

/// Over every crate at rest within the limits and every list of calls: an assured contender is not passed over
/// without end, a link stands until its own master ends it, and a read answers the word last written at its place.
pub fn every_run_bounds_waiting_keeps_links_and_reads_the_last_word()
    ensures { EveryRunBoundsWaitingKeepsLinksAndReadsTheLastWord }
{}

/// A refusal has the place that the call named, and leaves the crate as it was.
pub fn a_refused_call_names_its_segment_and_changes_nothing()
    ensures { ARefusedCallNamesItsSegmentAndChangesNothing }
{}

/// No call brings more than seven grants.
pub fn a_call_brings_at_most_seven_grants()
    ensures { ACallBringsAtMostSevenGrants }
{}

/// Ten worked examples come out as wanted.
pub fn the_ten_examples_hold()
    ensures { TheTenExamplesHold }
{}

/// A run from a crate at rest in which a wish sees just as many grants to others as the law allows.
pub fn the_bound_on_waiting_is_met()
    ensures { TheBoundOnWaitingIsMet }
{}

/// A run from a crate at rest in which a word is written over two interconnects, and read back.
pub fn a_word_goes_over_two_interconnects()
    ensures { AWordGoesOverTwoInterconnects }
{}

/// A run in which an address finds a segment busy and fails at another, with the flags that go up, and clear.
pub fn a_stopped_address_is_told_and_flagged()
    ensures { AStoppedAddressIsToldAndFlagged }
{}

/// A run in which a module is linked by its position, and its pointer stays.
pub fn a_link_by_position_moves_no_pointer()
    ensures { ALinkByPositionMovesNoPointer }
{}

/// Runs that end in each of the refusals, with their numbers.
pub fn each_refusal_is_met()
    ensures { EachRefusalIsMet }
{}
