//! What a crate answers.

/// How an address stopped on its way.
#[derive(Clone, Copy, PartialEq, Eq, Debug)]
pub enum Stop {
    /// Network busy: the far segment belongs to another.
    Busy,
    /// Network failure: nothing on the far segment acknowledges the address.
    Failure,
}

/// How a data cycle went.
#[derive(Clone, Copy, PartialEq, Eq, Debug)]
pub enum Status {
    /// The word was read or written, or the pointer was.
    Valid,
    /// A block transfer met an absent cell.
    EndOfBlock,
    /// The cell is absent, or fixed and to be written; or the mode is reserved.
    Rejected,
}

/// What a call that was not refused answers.
// A segment's own answers stand here again: with one answer inside another, `Done` could be told in two ways.
#[derive(Clone, Copy, PartialEq, Eq, Debug)]
pub enum Answer {
    /// A wish: the master asks.
    Asking,
    /// A wish: the master waits.
    Waiting,
    /// An arbitration: the contender of this level owns the segment.
    Granted(u8),
    /// A withdrawal, an end, a release or a clearing.
    Done,
    /// An address: the module is linked.
    Linked,
    /// An address: its way stopped at this far segment.
    Stopped { stop: Stop, segment: u8 },
    /// A data cycle, with the word that it answers.
    // A cycle is answered with a status and a word whatever the status; the word is 0 where none was read.
    Cycle { status: Status, word: u32 },
}

/// Why a call is refused.
// Some of a segment's reasons stand here again: each layer's refusals are one flat list, as they are numbered.
#[derive(Clone, Copy, PartialEq, Eq, Debug)]
pub enum Reason {
    NoSuchSegment,
    NoSuchMaster,
    ModeOutOfRange,
    NoInterconnect,
    WishesOrOwns,
    DoesNotWish,
    SegmentOwned,
    NobodyAsks,
    NotTheOwner,
    LinkStands,
    BegunElsewhere,
    NothingToEnd,
    NoLink,
    NoAcknowledge,
}

/// A segment came to be owned by the contender of a level.
#[derive(Clone, Copy, PartialEq, Eq, Debug)]
pub struct Grant {
    pub segment: u8,
    pub level: u8,
}
