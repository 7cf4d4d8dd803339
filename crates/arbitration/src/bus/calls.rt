//! What is done to a segment.
ghost use Rattle.std.specs.Prelude.{◌≡◌};
ghost use Rattle.arbitration.specs.Calls.{Happens};
ghost use Rattle.arbitration.specs.Numbers.{numbered};
ghost use Rattle.arbitration.specs.Rules.{move_answer, after_move, answer, after};
ghost use Rattle.arbitration.specs.Waiting.{WaitingIsBounded};
ghost use Rattle.arbitration.specs.Winning.{AnsweredIfFreeAndAsked, HighestAskerWins};
ghost use Rattle.arbitration.specs.declared.replies.Event.TheVariants.{Wish, Withdraw, Arbitrate, Release};

use crate::bus::Segment;
use crate::contenders::{Move, State};
use crate::replies::{Answer, Event, Reason, Refusal};
use crate::scans;

impl Segment {
    // The calls of a segment are its methods by name (docs/DECISIONS.md); what each promises is said once, in `Happens`.
    /// The contender of a level wishes to own the segment; the answer says whether it asks or waits.
    pub fn wish(&mut self, level: u8) -> Result<Answer, Refusal<Reason>>
        ensures { Happens (Wish level) self.old result self.new }
    {
        self.apply(Event::Wish(level))
    }

    /// The contender of a level gives up its wish.
    pub fn withdraw(&mut self, level: u8) -> Result<Answer, Refusal<Reason>>
        ensures { Happens (Withdraw level) self.old result self.new }
    {
        self.apply(Event::Withdraw(level))
    }

    /// The contender of a level gives up the segment that it owns.
    pub fn release(&mut self, level: u8) -> Result<Answer, Refusal<Reason>>
        ensures { Happens (Release level) self.old result self.new }
    {
        self.apply(Event::Release(level))
    }

    /// Of those that ask, the contender with the highest level comes to own the segment; the answer is its level.
    pub fn arbitrate(&mut self) -> Result<Answer, Refusal<Reason>>
        ensures happens { Happens Arbitrate self.old result self.new }
        ensures answered_if_free_and_asked { AnsweredIfFreeAndAsked self.old }
        ensures highest_asker_wins { HighestAskerWins self.old }
    {
        self.apply(Event::Arbitrate)
    }

    /// Does what the event says. Over whatever events come to a segment, waiting is bounded.
    pub fn apply(&mut self, event: Event) -> Result<Answer, Refusal<Reason>>
        ensures happens { Happens event self.old result self.new }
        ensures waiting_is_bounded { WaitingIsBounded self.old }
    {
        let segment = self.number;
        let answer = match event {
            Event::Wish(level) => self.make(Move::Wish, level),
            Event::Withdraw(level) => self.make(Move::Withdraw, level),
            Event::Arbitrate => self.grant(),
            Event::Release(level) => self.make(Move::Release, level),
        };
        answer.map_err(|reason| Refusal { reason, segment })
    }

    /// The contender of a level makes a move.
    // By its place, as `scans` says, and with the move as a value, as `Move` says.
    fn make(&mut self, step: Move, level: u8) -> Result<Answer, Reason>
        ensures answer { numbered result ≡ move_answer step level self.old }
        ensures after { self.new ≡ after_move step level self.old }
    {
        let i = scans::place_of_level(&self.contenders, level).ok_or(Reason::NoSuchContender)?;
        let answer = self.contenders[i].make(step, self.inhibit)?;
        self.inhibit = scans::settle(&mut self.contenders, self.inhibit);
        Ok(answer)
    }

    /// The winner comes to own the segment.
    // By its place, as `scans` says.
    fn grant(&mut self) -> Result<Answer, Reason>
        ensures answer { numbered result ≡ answer Arbitrate self.old }
        ensures after { self.new ≡ after Arbitrate self.old }
    {
        if scans::any_in_state(&self.contenders, State::Owns) {
            return Err(Reason::Owned);
        }
        let i = scans::place_of_winner(&self.contenders).ok_or(Reason::NobodyAsks)?;
        let winner = &mut self.contenders[i];
        winner.state = State::Owns;
        let level = winner.level;
        self.inhibit = scans::settle(&mut self.contenders, true);
        Ok(Answer::Granted(level))
    }
}
