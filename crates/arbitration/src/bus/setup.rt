//! How a segment comes to have its contenders.
ghost use Rattle.std.specs.Prelude.{◌≡◌};
ghost use Rattle.arbitration.specs.Calls.{Added, refusal_in};
ghost use Rattle.arbitration.specs.Rules.{empty, highest_level, add_refusal};
ghost use Rattle.arbitration.specs.Sound.{Sound};

use crate::bus::Segment;
use crate::contenders::{Access, Contender, State};
use crate::replies::{Reason, Refusal, SetupFault};
use crate::scans;
use std::alloc::Global;

/// The most contenders that a segment can have.
const MOST: usize = 16;

/// The highest level that a contender of an access may have: the system levels 32 to 63 are prioritised.
fn highest_level(access: Access) -> u8
    ensures { result ≡ highest_level access }
{
    match access {
        Access::Prioritised => 63,
        Access::Assured => 31,
    }
}

impl Segment {
    /// A segment that nobody is on, with the inhibit down. The number names it in refusals.
    pub fn new(heap: Global, number: u8) -> Segment
        ensures { result ≡ empty number }
    {
        Segment {
            number,
            contenders: Vec::new(heap),
            inhibit: false,
        }
    }

    // Level and access are given as two, here and by whoever calls: a record of them would be taken apart at once.
    /// Adds an idle contender. Refused for a 17th contender, a level out of range for the access, a level in use.
    pub fn add_contender(&mut self, level: u8, access: Access) -> Result<(), SetupFault>
        ensures added { Added level access self.old result self.new }
        ensures was_sound { Sound self.old.contenders self.old.inhibit }
        ensures stays_sound { Sound self.new.contenders self.new.inhibit }
    {
        let segment = self.number;
        self.admit(level, access)
            .map_err(|reason| Refusal { reason, segment })?;
        let state = State::Idle;
        self.contenders.push(Contender {
            level,
            access,
            state,
        })?;
        Ok(())
    }

    /// Whether a contender may be added, and why not.
    fn admit(&self, level: u8, access: Access) -> Result<(), Reason>
        ensures { refusal_in result ≡ add_refusal level access self.now }
    {
        if self.contenders.len() >= MOST {
            return Err(Reason::TooManyContenders);
        }
        if level < 1 || level > highest_level(access) {
            return Err(Reason::OutOfRange);
        }
        if scans::has_level(&self.contenders, level) {
            return Err(Reason::LevelInUse);
        }
        Ok(())
    }
}
