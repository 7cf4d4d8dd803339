//! The lines that the program prints.
ghost use Rattle.std.specs.Prelude.{◌≡◌, IfOk, IfSome, Some, string_bytes, encode_utf8};
ghost use Rattle.std.specs.List.{repeat};
ghost use Rattle.arbitration.specs.Numbers.{number_of};
ghost use Rattle.loadbar.specs.Listing.{plain, spoken, complaint, owner_text, levels_text, inhibit_text, bar_text, load_text, call_line, message_line, refused};

use crate::scripts::Unreadable;
use arbitration::{Answer, Contender, Reason, Refusal, Segment, State};
use std::alloc::{AllocError, Global};
use std::error::Error;
use std::fmt;

/// An answer as it is printed: W1 asks, W0 waits, G and the level granted, K done, R and the number of the refusal.
#[derive(Clone, Copy)]
struct Spoken(Result<Answer, Refusal<Reason>>);

impl fmt::Display for Spoken {
    ghost output = { λ s. Some (spoken (plain s.0)) };

    fn fmt<W: fmt::Write>(&self, f: &mut fmt::Formatter<W>) -> fmt::Result {
        match self.0 {
            Ok(Answer::Asking) => write!(f, "W1"),
            Ok(Answer::Waiting) => write!(f, "W0"),
            Ok(Answer::Granted(level)) => write!(f, "G{level}"),
            Ok(Answer::Done) => write!(f, "K"),
            Err(refusal) => {
                let number = u8::from(refusal.reason);
                write!(f, "R{number}")
            }
        }
    }
}

/// Prints what is wrong with the line.
// By hand: what a derive writes has no `output` to promise.
impl fmt::Display for Unreadable {
    ghost output = { λ u. Some (complaint u) };

    fn fmt<W: fmt::Write>(&self, f: &mut fmt::Formatter<W>) -> fmt::Result {
        match self {
            Unreadable::NoSuchCall => write!(f, "no such call"),
            Unreadable::NoLevel => write!(f, "a level from 0 to 255 is wanted"),
            Unreadable::NoAccess => write!(f, "the access is prioritised or assured"),
            Unreadable::TooManyWords => write!(f, "more words than the call takes"),
        }
    }
}

impl Error for Unreadable {}

/// The level of the owner, or a dash.
#[derive(Clone, Copy)]
struct Owner(Option<u8>);

impl fmt::Display for Owner {
    ghost output = { λ o. Some (owner_text o.0) };

    fn fmt<W: fmt::Write>(&self, f: &mut fmt::Formatter<W>) -> fmt::Result {
        match self.0 {
            Some(level) => write!(f, "{level}"),
            None => write!(f, "-"),
        }
    }
}

/// Whether the inhibit is up or down.
#[derive(Clone, Copy)]
struct Inhibit(bool);

impl fmt::Display for Inhibit {
    ghost output = { λ i. Some (inhibit_text i.0) };

    fn fmt<W: fmt::Write>(&self, f: &mut fmt::Formatter<W>) -> fmt::Result {
        if self.0 {
            write!(f, "up")
        } else {
            write!(f, "down")
        }
    }
}

/// A mark, a number of times.
#[derive(Clone, Copy)]
struct Marks {
    mark: char,
    times: usize,
}

impl fmt::Display for Marks {
    ghost output = { λ m. Some (repeat m.times (encode_utf8 m.mark)) };

    fn fmt<W: fmt::Write>(&self, f: &mut fmt::Formatter<W>) -> fmt::Result {
        let mark = self.mark;
        // It repeats, and indexes nothing.
        for _ in 0..self.times {
            write!(f, "{mark}")?;
        }
        Ok(())
    }
}

/// The levels of the contenders in a state, a space before each, or a dash where there are none.
#[derive(Clone, Copy)]
struct Levels<'a> {
    contenders: &'a [Contender],
    state: State,
}

impl fmt::Display for Levels<'_> {
    ghost output = { λ l. Some (levels_text l.state l.contenders.now) };

    fn fmt<W: fmt::Write>(&self, f: &mut fmt::Formatter<W>) -> fmt::Result {
        if !self.contenders.iter().any(|c| c.is(self.state)) {
            return write!(f, " -");
        }
        // Tried with `filter`: over it the check refuses what the kit itself defines for the loop.
        for contender in self.contenders {
            if !contender.is(self.state) {
                continue;
            }
            let level = contender.level;
            write!(f, " {level}")?;
        }
        Ok(())
    }
}

/// A mark for each contender of a segment: # owns, = asks, - waits, . idles.
#[derive(Clone, Copy)]
struct Bar<'a>(&'a Segment);

impl fmt::Display for Bar<'_> {
    ghost output = { λ b. Some (bar_text b.0.now) };

    fn fmt<W: fmt::Write>(&self, f: &mut fmt::Formatter<W>) -> fmt::Result {
        let load = self.0.load();
        let owning = usize::from(self.0.owner().is_some());
        let contenders = self.0.contenders().len();
        let idle = contenders
            .saturating_sub(owning)
            .saturating_sub(load.asking)
            .saturating_sub(load.waiting);
        let owns = Marks {
            mark: '#',
            times: owning,
        };
        let asks = Marks {
            mark: '=',
            times: load.asking,
        };
        let waits = Marks {
            mark: '-',
            times: load.waiting,
        };
        let idles = Marks {
            mark: '.',
            times: idle,
        };
        write!(f, "[{owns}{asks}{waits}{idles}]")
    }
}

/// The load of a segment: the bar, the owner, who asks, who waits, the inhibit.
#[derive(Clone, Copy)]
struct LoadBar<'a>(&'a Segment);

impl fmt::Display for LoadBar<'_> {
    ghost output = { λ l. Some (load_text l.0.now) };

    fn fmt<W: fmt::Write>(&self, f: &mut fmt::Formatter<W>) -> fmt::Result {
        let bar = Bar(self.0);
        let owner = Owner(self.0.owner());
        let asks = Levels {
            contenders: self.0.contenders(),
            state: State::Asks,
        };
        let waits = Levels {
            contenders: self.0.contenders(),
            state: State::Waits,
        };
        let inhibit = Inhibit(self.0.inhibit());
        write!(
            f,
            "{bar}  owner {owner}  asks{asks}  waits{waits}  inhibit {inhibit}"
        )
    }
}

/// A contender that is refused, with the number of the refusal.
#[derive(Clone, Copy)]
pub struct Refused(pub Refusal<Reason>);

impl fmt::Display for Refused {
    ghost output = { λ r. Some (refused (number_of r.0.reason)) };

    fn fmt<W: fmt::Write>(&self, f: &mut fmt::Formatter<W>) -> fmt::Result {
        let refused = Spoken(Err(self.0));
        write!(f, "contender refused, {refused}")
    }
}

// Which text is made is said in the library's words, `IfOk` and `string_bytes`: a word of our own would have to be learned.

/// The line of a call: its number, its answer, and the load of the segment after it.
pub fn call_line(
    heap: Global,
    number: usize,
    answer: Result<Answer, Refusal<Reason>>,
    segment: &Segment,
) -> Result<String, AllocError>
    ensures { IfOk result (λ s. string_bytes s ≡ call_line number (plain answer) segment.now) }
{
    let spoken = Spoken(answer);
    let load = LoadBar(segment);
    format!(in heap; "{number} {spoken}  {load}\n")
}

/// A message on a line of the script.
pub fn message_line<M: fmt::Display>(
    heap: Global,
    line: usize,
    message: &M,
) -> Result<String, AllocError>
    ensures { IfSome (M.output message.now) (λ text. IfOk result (λ s. string_bytes s ≡ message_line line text)) }
{
    format!(in heap; "line {line}: {message}\n")
}
