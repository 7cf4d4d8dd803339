//! What a crate is told to do.

/// One call. A master is named by its segment and its level there, an interconnect by its far segment.
// `ms` is a number and no enum, since a call with a number that is no mode is made, and refused.
// `read` and `word` stand side by side, since a step of a hall gives both, a word for a read too.
// A call has the segment and the level by name, as they are given: a struct of the two would only be taken apart again.
// (A `Grant` is a report and names no master.)
#[derive(Clone, Copy, PartialEq, Eq, Debug)]
pub enum Call {
    /// A master comes to ask for its segment, or to wait.
    Wish {
        segment: u8,
        level: u8,
    },
    /// A master gives up its wish.
    Withdraw {
        segment: u8,
        level: u8,
    },
    /// A segment is granted to the highest level that asks.
    Arbitrate {
        segment: u8,
    },
    /// The owner asks for a link, in data space (`ms` 0) or CSR space (1), by the address word `ad`.
    Address {
        segment: u8,
        level: u8,
        ms: u8,
        ad: u32,
    },
    /// The owner reads or writes over its link; `word` is what is written.
    Data {
        segment: u8,
        level: u8,
        ms: u8,
        read: bool,
        word: u32,
    },
    /// The owner drops its link, or the operation that it has begun.
    End {
        segment: u8,
        level: u8,
    },
    /// The owner gives up its segment.
    Release {
        segment: u8,
        level: u8,
    },
    /// The flags of the interconnect that leads to the segment go down.
    Clear {
        segment: u8,
    },
}
