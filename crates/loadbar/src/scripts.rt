//! What a line of a script says.
ghost use Rattle.std.specs.Prelude.{◌≡◌, ℕ};
ghost use Rattle.std.specs.Option.{ok_or, option_copied};
ghost use Rattle.arbitration.specs.declared.replies.Event.{Event};
ghost use Rattle.loadbar.specs.Words.{first_word};
ghost use Rattle.loadbar.specs.Scripts.{access_of, named, Makes, if_last, sole_level, call, contender, completed, read};

use crate::words;
use crate::words::Words;
use arbitration::{Access, Event};

/// A line that can be read: a blank one, a contender of the segment, or a call.
#[derive(Clone, Copy, PartialEq, Eq, Debug)]
pub enum Line {
    Blank,
    Contender(u8, Access),
    Call(Event),
}

/// Why a line cannot be read.
#[derive(Clone, Copy, PartialEq, Eq, Debug)]
pub enum Unreadable {
    NoSuchCall,
    NoLevel,
    NoAccess,
    TooManyWords,
}

/// The access that a word names.
// No `TryFrom`: the trait and the type are both other crates'.
fn read_access(word: &[u8]) -> Option<Access>
    ensures { result ≡ access_of word.now }
{
    match word {
        b"prioritised" => Some(Access::Prioritised),
        b"assured" => Some(Access::Assured),
        _ => None,
    }
}

impl Words<'_> {
    /// Refuses any further word.
    fn end(mut self) -> Result<(), Unreadable>
        ensures { result ≡ if_last (first_word self.entry) (Ok tt) }
    {
        match self.next() {
            None => Ok(()),
            Some(_) => Err(Unreadable::TooManyWords),
        }
    }
}

/// The level that a word names. A word that is missing names none.
fn read_level(word: Option<&[u8]>) -> Result<u8, Unreadable>
    ensures { result ≡ named (option_copied word.entry) }
{
    word.and_then(words::read_number).ok_or(Unreadable::NoLevel)
}

/// The level that is the last word of a line.
fn read_sole_level(mut words: Words) -> Result<u8, Unreadable>
    ensures { result ≡ sole_level words.entry }
{
    let level = words.next();
    words.end()?;
    read_level(level)
}

/// A contender: its level and its access, where nothing follows them.
fn read_contender(mut words: Words) -> Result<Line, Unreadable>
    ensures { result ≡ contender words.entry }
{
    let level = words.next();
    let access = words.next();
    words.end()?;
    let level = read_level(level)?;
    let access = access.and_then(read_access).ok_or(Unreadable::NoAccess)?;
    Ok(Line::Contender(level, access))
}

/// A call on the level that is the last word of a line.
fn read_call<E: FnOnce(u8) -> Event>(words: Words, event: E) -> Result<Line, Unreadable>
    requires { E.IsAlwaysCallable event }
    ensures { (e : ℕ → Event) → Makes (E.post event) e → result ≡ call e (sole_level words.entry) }
{
    read_sole_level(words).map(event).map(Line::Call)
}

/// What the first word of a line says with those behind it.
fn complete(verb: &[u8], words: Words) -> Result<Line, Unreadable>
    ensures { result ≡ completed verb.now words.entry }
{
    match verb {
        b"contender" => read_contender(words),
        b"wish" => read_call(words, Event::Wish),
        b"withdraw" => read_call(words, Event::Withdraw),
        b"arbitrate" => words.end().map(|()| Line::Call(Event::Arbitrate)),
        b"release" => read_call(words, Event::Release),
        _ => Err(Unreadable::NoSuchCall),
    }
}

/// What a line of a script says. A `#` and all that follows it is a comment.
pub fn read_line(line: &[u8]) -> Result<Line, Unreadable>
    ensures { result ≡ read line.now }
{
    let mut words = Words::new(words::uncommented(line));
    match words.next() {
        None => Ok(Line::Blank),
        Some(verb) => complete(verb, words),
    }
}
