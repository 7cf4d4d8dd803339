//! What a segment tells about itself.
ghost use Rattle.std.specs.Prelude.{◌≡◌};
ghost use Rattle.arbitration.specs.Calls.{load_of};
ghost use Rattle.arbitration.specs.Numbers.{reported, at_segment};
ghost use Rattle.arbitration.specs.Rules.{owner_of, state_of};
ghost use Rattle.arbitration.specs.Sound.{Sound};

use crate::bus::Segment;
use crate::contenders::{Contender, State};
use crate::replies::{Reason, Refusal};
use crate::scans;

/// How many contenders wish for a segment: what its load bar shows.
#[derive(Clone, Copy, PartialEq, Eq, Debug)]
pub struct Load {
    pub asking: usize,
    pub waiting: usize,
}

impl Segment {
    /// The number that names the segment in refusals.
    pub fn number(&self) -> u8
        ensures shown { result ≡ self.now.number }
        ensures sound { Sound self.now.contenders self.now.inhibit }
    {
        self.number
    }

    /// The contenders, in the order in which they were added. What holds of every segment holds of them.
    pub fn contenders(&self) -> &[Contender]
        ensures shown { result.now ≡ self.now.contenders }
        ensures sound { Sound self.now.contenders self.now.inhibit }
    {
        self.contenders.as_slice()
    }

    /// Whether the arbitration request inhibit is up.
    pub fn inhibit(&self) -> bool
        ensures shown { result ≡ self.now.inhibit }
        ensures sound { Sound self.now.contenders self.now.inhibit }
    {
        self.inhibit
    }

    /// The level that owns the segment.
    pub fn owner(&self) -> Option<u8>
        ensures shown { result ≡ owner_of self.now }
        ensures sound { Sound self.now.contenders self.now.inhibit }
    {
        scans::level_in_state(&self.contenders, State::Owns)
    }

    /// What the contender of a level is doing. Refused where there is no such contender.
    pub fn state(&self, level: u8) -> Result<State, Refusal<Reason>>
        ensures shown { reported result ≡ at_segment self.now.number (state_of level self.now) }
        ensures sound { Sound self.now.contenders self.now.inhibit }
    {
        let reason = Reason::NoSuchContender;
        let segment = self.number;
        scans::state_of_level(&self.contenders, level).ok_or(Refusal { reason, segment })
    }

    /// How many ask and how many wait.
    pub fn load(&self) -> Load
        ensures shown { result ≡ load_of self.now }
        ensures sound { Sound self.now.contenders self.now.inhibit }
    {
        Load {
            asking: scans::count_in_state(&self.contenders, State::Asks),
            waiting: scans::count_in_state(&self.contenders, State::Waits),
        }
    }
}
