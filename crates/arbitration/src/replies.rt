//! What a segment is told to do, and what it answers.
ghost use Rattle.std.specs.Prelude.{◌≡◌};
ghost use Rattle.arbitration.specs.Numbers.{number_of};
ghost use Rattle.arbitration.specs.declared.replies.SetupFault.TheVariants.{Refused, NoMemory};

use std::alloc::{AllocError, AllocFailed};

/// One thing that happens on a segment; the number is a contender's level.
#[derive(Clone, Copy, PartialEq, Eq, Debug)]
pub enum Event {
    Wish(u8),
    Withdraw(u8),
    Arbitrate,
    Release(u8),
}

/// What a call that was not refused answers.
#[derive(Clone, Copy, PartialEq, Eq, Debug)]
pub enum Answer {
    /// A wish: the contender asks.
    Asking,
    /// A wish: the contender waits.
    Waiting,
    /// An arbitration: the contender of this level owns the segment.
    Granted(u8),
    /// A withdrawal or a release.
    Done,
}

/// Why a call is refused.
#[derive(Clone, Copy, PartialEq, Eq, Debug)]
pub enum Reason {
    OutOfRange,
    LevelInUse,
    TooManyContenders,
    NoSuchContender,
    WishesOrOwns,
    DoesNotWish,
    Owned,
    NobodyAsks,
    NotTheOwner,
}

/// A refusal: its reason, one of those of the layer that refuses, and its place, the number of the segment that was called.
#[derive(Clone, Copy, PartialEq, Eq, Debug)]
pub struct Refusal<R> {
    pub reason: R,
    pub segment: u8,
}

/// Why a contender could not be added: a refusal, or no memory was left for it.
#[derive(Clone, Copy, PartialEq, Eq, Debug)]
pub enum SetupFault {
    Refused(Refusal<Reason>),
    NoMemory(AllocError),
}

// These are by hand, since contracts name what `?` makes of a refusal and of want of memory.
impl From<Refusal<Reason>> for SetupFault {
    ghost from_gives = { λ refusal fault. fault ≡ Refused refusal };

    fn from(refusal: Refusal<Reason>) -> SetupFault {
        SetupFault::Refused(refusal)
    }
}

impl<T: Drop> From<AllocFailed<T>> for SetupFault {
    ghost from_gives = { λ _ fault. fault ≡ NoMemory (record {}) };

    fn from(failed: AllocFailed<T>) -> SetupFault {
        SetupFault::NoMemory(failed.into())
    }
}

/// The number under which a refusal is reported.
impl From<Reason> for u8 {
    ghost from_gives = { λ reason number. number ≡ number_of reason };

    fn from(reason: Reason) -> u8 {
        match reason {
            Reason::OutOfRange => 2,
            Reason::LevelInUse => 3,
            Reason::TooManyContenders => 6,
            Reason::NoSuchContender => 8,
            Reason::WishesOrOwns => 20,
            Reason::DoesNotWish => 21,
            Reason::Owned => 22,
            Reason::NobodyAsks => 23,
            Reason::NotTheOwner => 24,
        }
    }
}
