//! Tests of the crate `arbitration` through its public calls, and what a caller's proof knows of a segment.

#![tactic(auto)]

ghost use Rattle.arbitration.specs.Sound.{Sound};

use arbitration::{Event, Segment};

/// Whoever asks a segment anything knows that it is sound.
pub fn asks_a_sound_segment(segment: &Segment) -> usize
    ensures { Sound segment.now.contenders segment.now.inhibit }
{
    segment.load().asking
}

/// Whoever calls a segment knows that it was sound, and that it still is.
pub fn calls_a_sound_segment(segment: &mut Segment, event: Event) -> bool
    ensures was_sound { Sound segment.old.contenders segment.old.inhibit }
    ensures stays_sound { Sound segment.new.contenders segment.new.inhibit }
{
    segment.apply(event).is_ok()
}

#[cfg(test)]
mod tests {
    use arbitration::*;
    use std::alloc::Global;
    use std::process::Abort;
    use std::test::Fail;

    // The number of the segment in every test: the place that a refusal names.
    const NUMBER: u8 = 7;

    // A segment with the assured contenders 5 and 9.
    fn segment(rt: &impl Abort, heap: Global) -> Segment {
        let mut segment = Segment::new(heap, NUMBER);
        assert!(rt; segment.add_contender(5, Access::Assured).is_ok());
        assert!(rt; segment.add_contender(9, Access::Assured).is_ok());
        segment
    }

    // Checks that a call was refused under the number, and where.
    fn check_refused<T: Drop>(
        rt: &impl Abort,
        answer: Result<T, Refusal<Reason>>,
        number: u8,
    ) -> Result<(), Fail> {
        match answer {
            Ok(_) => Err(Fail::new("not refused")),
            Err(refusal) => {
                assert_eq!(rt; u8::from(refusal.reason), number);
                assert_eq!(rt; refusal.segment, NUMBER);
                Ok(())
            }
        }
    }

    // Checks that the contender is refused under the number, and that there are as many as before.
    fn check_not_added(
        rt: &impl Abort,
        segment: &mut Segment,
        level: u8,
        access: Access,
        number: u8,
    ) -> Result<(), Fail> {
        let before = segment.contenders().len();
        match segment.add_contender(level, access) {
            Ok(()) => Err(Fail::new("not refused")),
            Err(SetupFault::NoMemory(_)) => Err(Fail::new("no memory")),
            Err(SetupFault::Refused(refusal)) => {
                check_refused::<()>(rt, Err(refusal), number)?;
                assert_eq!(rt; segment.contenders().len(), before);
                Ok(())
            }
        }
    }

    fn check_load(rt: &impl Abort, segment: &Segment, asking: usize, waiting: usize) {
        assert_eq!(rt; segment.load(), Load { asking, waiting });
    }

    #[test]
    fn the_next_round_is_for_those_who_waited(rt: HostRuntime) -> Result<(), Fail> {
        let mut segment = segment(&rt, rt.alloc());
        assert_eq!(rt; segment.wish(5), Ok(Answer::Asking));
        assert_eq!(rt; segment.wish(9), Ok(Answer::Asking));
        assert_eq!(rt; segment.arbitrate(), Ok(Answer::Granted(9)));
        assert_eq!(rt; segment.release(9), Ok(Answer::Done));
        assert_eq!(rt; segment.wish(9), Ok(Answer::Waiting));
        assert_eq!(rt; segment.arbitrate(), Ok(Answer::Granted(5)));
        assert!(rt; !segment.inhibit());
        assert_eq!(rt; segment.state(9), Ok(State::Asks));
        assert_eq!(rt; segment.owner(), Some(5));
        check_refused(&rt, segment.arbitrate(), 22)
    }

    #[test]
    fn a_prioritised_level_beats_those_who_ask_while_the_inhibit_is_up(rt: HostRuntime) {
        let mut segment = segment(&rt, rt.alloc());
        assert!(rt; segment.add_contender(40, Access::Prioritised).is_ok());
        assert_eq!(rt; segment.wish(5), Ok(Answer::Asking));
        assert_eq!(rt; segment.wish(9), Ok(Answer::Asking));
        assert_eq!(rt; segment.arbitrate(), Ok(Answer::Granted(9)));
        assert!(rt; segment.inhibit());
        assert_eq!(rt; segment.wish(40), Ok(Answer::Asking));
        assert_eq!(rt; segment.release(9), Ok(Answer::Done));
        assert_eq!(rt; segment.arbitrate(), Ok(Answer::Granted(40)));
        assert!(rt; segment.inhibit());
    }

    #[test]
    fn a_sole_asker_wins_and_the_inhibit_is_down_after(rt: HostRuntime) {
        let mut segment = segment(&rt, rt.alloc());
        assert_eq!(rt; segment.wish(5), Ok(Answer::Asking));
        assert_eq!(rt; segment.arbitrate(), Ok(Answer::Granted(5)));
        assert!(rt; !segment.inhibit());
        assert_eq!(rt; segment.owner(), Some(5));
    }

    // One other assured contender, none of the grants to it prioritised: two grants are as many as the bound allows.
    #[test]
    fn an_assured_contender_that_waits_may_see_another_granted_twice(rt: HostRuntime) {
        let mut segment = segment(&rt, rt.alloc());
        assert!(rt; segment.add_contender(40, Access::Prioritised).is_ok());
        assert_eq!(rt; segment.wish(9), Ok(Answer::Asking));
        assert_eq!(rt; segment.wish(40), Ok(Answer::Asking));
        assert_eq!(rt; segment.arbitrate(), Ok(Answer::Granted(40)));
        assert_eq!(rt; segment.wish(5), Ok(Answer::Waiting));
        assert_eq!(rt; segment.release(40), Ok(Answer::Done));
        assert_eq!(rt; segment.arbitrate(), Ok(Answer::Granted(9)));
        assert_eq!(rt; segment.release(9), Ok(Answer::Done));
        assert_eq!(rt; segment.wish(9), Ok(Answer::Asking));
        assert_eq!(rt; segment.arbitrate(), Ok(Answer::Granted(9)));
        assert_eq!(rt; segment.release(9), Ok(Answer::Done));
        assert_eq!(rt; segment.wish(9), Ok(Answer::Waiting));
        assert_eq!(rt; segment.arbitrate(), Ok(Answer::Granted(5)));
    }

    #[test]
    fn a_level_that_is_not_there_is_refused(rt: HostRuntime) -> Result<(), Fail> {
        let mut segment = segment(&rt, rt.alloc());
        assert_eq!(rt; segment.number(), NUMBER);
        check_refused(&rt, segment.wish(6), 8)?;
        check_refused(&rt, segment.withdraw(6), 8)?;
        check_refused(&rt, segment.release(6), 8)?;
        check_refused(&rt, segment.state(6), 8)
    }

    #[test]
    fn a_call_that_the_state_does_not_allow_is_refused(rt: HostRuntime) -> Result<(), Fail> {
        let mut segment = segment(&rt, rt.alloc());
        check_refused(&rt, segment.arbitrate(), 23)?;
        check_refused(&rt, segment.withdraw(5), 21)?;
        check_refused(&rt, segment.release(5), 24)?;
        assert_eq!(rt; segment.wish(5), Ok(Answer::Asking));
        check_refused(&rt, segment.wish(5), 20)?;
        assert_eq!(rt; segment.arbitrate(), Ok(Answer::Granted(5)));
        check_refused(&rt, segment.wish(5), 20)?;
        check_refused(&rt, segment.release(9), 24)?;
        check_refused(&rt, segment.arbitrate(), 22)
    }

    #[test]
    fn a_level_out_of_range_or_in_use_is_refused(rt: HostRuntime) -> Result<(), Fail> {
        let mut segment = Segment::new(rt.alloc(), NUMBER);
        check_not_added(&rt, &mut segment, 0, Access::Prioritised, 2)?;
        check_not_added(&rt, &mut segment, 64, Access::Prioritised, 2)?;
        check_not_added(&rt, &mut segment, 32, Access::Assured, 2)?;
        assert!(rt; segment.add_contender(32, Access::Prioritised).is_ok());
        assert!(rt; segment.add_contender(63, Access::Prioritised).is_ok());
        assert!(rt; segment.add_contender(31, Access::Assured).is_ok());
        check_not_added(&rt, &mut segment, 31, Access::Prioritised, 3)?;
        assert_eq!(rt; segment.contenders().len(), 3);
        Ok(())
    }

    #[test]
    fn a_17th_contender_is_refused_whatever_its_level(rt: HostRuntime) -> Result<(), Fail> {
        let mut segment = Segment::new(rt.alloc(), NUMBER);
        for level in 1..=16u8 {
            assert!(rt; segment.add_contender(level, Access::Assured).is_ok());
        }
        check_not_added(&rt, &mut segment, 17, Access::Assured, 6)?;
        check_not_added(&rt, &mut segment, 64, Access::Assured, 6)?;
        check_not_added(&rt, &mut segment, 16, Access::Assured, 6)?;
        assert_eq!(rt; segment.contenders().len(), 16);
        Ok(())
    }

    #[test]
    fn the_load_is_how_many_ask_and_how_many_wait(rt: HostRuntime) {
        let mut segment = segment(&rt, rt.alloc());
        assert_eq!(rt; segment.wish(5), Ok(Answer::Asking));
        assert_eq!(rt; segment.wish(9), Ok(Answer::Asking));
        check_load(&rt, &segment, 2, 0);
        assert_eq!(rt; segment.arbitrate(), Ok(Answer::Granted(9)));
        assert_eq!(rt; segment.release(9), Ok(Answer::Done));
        assert_eq!(rt; segment.wish(9), Ok(Answer::Waiting));
        check_load(&rt, &segment, 1, 1);
        assert_eq!(rt; segment.withdraw(5), Ok(Answer::Done));
        check_load(&rt, &segment, 1, 0);
    }

    #[test]
    fn each_event_is_answered_as_its_call_is(rt: HostRuntime) -> Result<(), Fail> {
        let mut segment = segment(&rt, rt.alloc());
        assert_eq!(rt; segment.apply(Event::Wish(5)), Ok(Answer::Asking));
        assert_eq!(rt; segment.apply(Event::Arbitrate), Ok(Answer::Granted(5)));
        check_refused(&rt, segment.apply(Event::Wish(5)), 20)?;
        assert_eq!(rt; segment.apply(Event::Release(5)), Ok(Answer::Done));
        assert_eq!(rt; segment.apply(Event::Wish(9)), Ok(Answer::Asking));
        assert_eq!(rt; segment.apply(Event::Withdraw(9)), Ok(Answer::Done));
        assert_eq!(rt; segment.state(9), Ok(State::Idle));
        Ok(())
    }
}
