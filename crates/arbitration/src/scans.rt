//! What is looked for in a segment's contenders, and the change that goes over all of them.
ghost use Rattle.std.specs.Prelude.{◌≡◌, not, ◌&&◌, map, find, option_map, position, if◌then◌else◌};
ghost use Rattle.std.specs.List.{list_any};
ghost use Rattle.arbitration.specs.Contenders.{in_state, at_level, asks, wake};
ghost use Rattle.arbitration.specs.Lists.{count};
ghost use Rattle.arbitration.specs.Rules.{winner, level_of};
ghost use Rattle.arbitration.specs.Scans.{place_of};

use crate::contenders::{Contender, State};

// These are functions of the slice and no methods, so that a clause speaks of a list of contenders and needs no segment.
// A search for a contender that is to be changed answers its place: after `iter_mut().find(..)` has lent it,
// a proof knows nothing of the slice but its length.

/// The place of the contender of a level.
pub(crate) fn place_of_level(contenders: &[Contender], level: u8) -> Option<usize>
    ensures { result ≡ position (at_level level) contenders.now }
{
    contenders.iter().position(|c| c.level == level)
}

/// Whether there is a contender of the level.
pub(crate) fn has_level(contenders: &[Contender], level: u8) -> bool
    ensures { result ≡ list_any (at_level level) contenders.now }
{
    contenders.iter().any(|c| c.level == level)
}

/// The state of the contender of a level.
pub(crate) fn state_of_level(contenders: &[Contender], level: u8) -> Option<State>
    ensures { result ≡ option_map (λ c. c.state) (find (at_level level) contenders.now) }
{
    contenders
        .iter()
        .find(|c| c.level == level)
        .map(|c| c.state)
}

/// The level of the first contender in a state.
// A loop, and no `find`, which takes a fifth more instructions.
pub(crate) fn level_in_state(contenders: &[Contender], state: State) -> Option<u8>
    ensures { result ≡ level_of (find (in_state state) contenders.now) }
{
    for c in contenders {
        if c.is(state) {
            return Some(c.level);
        }
    }
    None
}

/// Whether a contender is in a state.
pub(crate) fn any_in_state(contenders: &[Contender], state: State) -> bool
    ensures { result ≡ list_any (in_state state) contenders.now }
{
    contenders.iter().any(|c| c.is(state))
}

/// How many contenders are in a state.
// No `filter` with `count`, by which `load` took a third more instructions. Nothing wraps: the sum is at most the length.
pub(crate) fn count_in_state(contenders: &[Contender], state: State) -> usize
    ensures { result ≡ count (in_state state) contenders.now }
{
    contenders
        .iter()
        .fold(0, |n: usize, c| n.wrapping_add(usize::from(c.is(state))))
}

/// The place of the contender that wins an arbitration: of those that ask, the one with the highest level.
// A loop over the records with their index (docs/DECISIONS.md). Of equal levels it takes the first, where `max_by_key` takes the last.
pub(crate) fn place_of_winner(contenders: &[Contender]) -> Option<usize>
    ensures { result ≡ place_of (winner contenders.now) contenders.now }
{
    let mut best: Option<usize> = None;
    for (i, c) in contenders.iter().enumerate() {
        if c.is(State::Asks) {
            match best {
                None => best = Some(i),
                Some(b) => {
                    if contenders[b].level < c.level {
                        best = Some(i);
                    }
                }
            }
        }
    }
    best
}

/// Where the inhibit is up and nobody asks, lets all who wait ask. Answers whether the inhibit is still up.
// It takes the fields and not the segment, since between a change and settling a segment's invariant does not hold.
pub(crate) fn settle(contenders: &mut [Contender], inhibit: bool) -> bool
    ensures answer { result ≡ (inhibit && list_any asks contenders.old) }
    ensures after { contenders.new ≡ (if inhibit && not (list_any asks contenders.old) then map wake contenders.old else contenders.old) }
{
    if !inhibit {
        return false;
    }
    if any_in_state(contenders, State::Asks) {
        return true;
    }
    for c in contenders.iter_mut() {
        c.wake();
    }
    false
}
