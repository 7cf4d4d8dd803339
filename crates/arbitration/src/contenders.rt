//! One contender for a segment, and what its own calls do to it.
ghost use Rattle.std.specs.Prelude.{◌≡◌};
ghost use Rattle.arbitration.specs.Contenders.{in_state, wake, moved, move_verdict};
ghost use Rattle.arbitration.specs.Numbers.{numbered};

use crate::replies::{Answer, Reason};

/// How a contender takes part: prioritised, it may ask at any time; assured, it waits while the inhibit is up.
#[derive(Clone, Copy, PartialEq, Eq, Debug)]
pub enum Access {
    Prioritised,
    Assured,
}

/// What a contender is doing. It wishes while it waits or asks.
#[derive(Clone, Copy, PartialEq, Eq, Debug)]
pub enum State {
    Idle,
    Waits,
    Asks,
    Owns,
}

/// A call that names one contender.
// A value and no closure: a contender's own calls are one `match` on its state, the call and the inhibit (docs/DECISIONS.md).
#[derive(Clone, Copy, PartialEq, Eq, Debug)]
pub enum Move {
    Wish,
    Withdraw,
    Release,
}

/// One contender for a segment.
#[derive(Clone, Copy, PartialEq, Eq, Debug)]
pub struct Contender {
    pub level: u8,
    pub access: Access,
    pub state: State,
}

impl Contender {
    /// Whether the contender is in the given state.
    pub fn is(&self, state: State) -> bool
        ensures { result ≡ in_state state self.now }
    {
        self.state == state
    }

    /// Asks if it waits.
    pub(crate) fn wake(&mut self)
        ensures { self.new ≡ wake self.old }
    {
        if self.is(State::Waits) {
            self.state = State::Asks;
        }
    }

    /// Makes the move if the contender's state allows it; else says why not, and changes nothing.
    pub(crate) fn make(&mut self, step: Move, inhibit: bool) -> Result<Answer, Reason>
        ensures answer { numbered result ≡ move_verdict step inhibit self.old }
        ensures after { self.new ≡ moved step inhibit self.old }
    {
        match (self.state, step, inhibit) {
            (State::Idle, Move::Wish, true) if self.access == Access::Assured => {
                self.state = State::Waits;
                Ok(Answer::Waiting)
            }
            (State::Idle, Move::Wish, _) => {
                self.state = State::Asks;
                Ok(Answer::Asking)
            }
            (State::Waits | State::Asks, Move::Withdraw, _) | (State::Owns, Move::Release, _) => {
                self.state = State::Idle;
                Ok(Answer::Done)
            }
            (_, Move::Wish, _) => Err(Reason::WishesOrOwns),
            (_, Move::Withdraw, _) => Err(Reason::DoesNotWish),
            (_, Move::Release, _) => Err(Reason::NotTheOwner),
        }
    }
}
