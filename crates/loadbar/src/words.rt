//! Cuts a line of a script into words.
ghost use Rattle.std.specs.Prelude.{◌≡◌, ◌≤◌, ℕ, Bool, length};
ghost use Rattle.std.specs.List.{before_first, position_or_len};
ghost use Rattle.std.specs.Iterator.{at_most};
ghost use Rattle.std.specs.Option.{option_copied};
ghost use Rattle.loadbar.specs.Words.{Computes, from, uncommented, blank, word, first_word, rest, shifted, number};

use std::marker::Model;

/// How many bytes stand before the first one that passes a test; all of them where none does.
fn length_before<P: Fn(u8) -> bool>(text: &[u8], stops: P) -> usize
    requires { P.IsAlwaysCallable stops }
    ensures place { (p : ℕ → Bool) → Computes (P.post stops) p
        → result ≡ position_or_len p text.now }
    ensures within { result ≤ length text.now }
{
    text.iter()
        .position(|&byte| stops(byte))
        .unwrap_or(text.len())
}

/// A text up to its first byte that passes a test, and the text from that byte on.
fn cut_before<P: Fn(u8) -> bool>(text: &[u8], stops: P) -> (&[u8], &[u8])
    requires { P.IsAlwaysCallable stops }
    ensures before { (p : ℕ → Bool) → Computes (P.post stops) p
        → result.0.now ≡ before_first p text.now }
    ensures from { (p : ℕ → Bool) → Computes (P.post stops) p
        → result.1.now ≡ from p text.now }
{
    text.split_at(length_before(text, stops))
}

/// A line up to its comment, which begins with the first `#`.
pub fn uncommented(line: &[u8]) -> &[u8]
    ensures { result.now ≡ uncommented line.now }
{
    let (text, _) = cut_before(line, |byte| byte == b'#');
    text
}

/// Whether a byte parts words: a space, a tab or a carriage return.
fn is_blank(byte: u8) -> bool
    ensures { result ≡ blank byte }
{
    matches!(byte, b' ' | b'\t' | b'\r')
}

/// The first word of a text, and what follows it. The word is empty where the text is blank.
// No Option: what follows is wanted where there is no word, too. `Words` makes no word of an empty one.
fn split_word(text: &[u8]) -> (&[u8], &[u8])
    ensures word { result.0.now ≡ word text.now }
    ensures rest { result.1.now ≡ rest text.now }
{
    let (_, inked) = cut_before(text, |byte| !is_blank(byte));
    cut_before(inked, is_blank)
}

/// The words of a text, one after the other.
// An iterator of our own: a chain of `split` and `filter` has closures in its type, which no contract here could name.
#[derive(Drop)]
pub struct Words<'a> {
    rest: &'a [u8],
}

/// A contract sees the text that is left.
impl<'a> Model for Words<'a> {
    ghost use Rattle.std.specs.Prelude.{List, ℕ};

    ghost Value = { List ℕ };

    ghost view = { λ w. w.rest.now };
}

impl<'a> Words<'a> {
    /// All words of a text.
    pub fn new(text: &'a [u8]) -> Words<'a>
        ensures { result ≡ text.now }
    {
        Words { rest: text }
    }
}

impl<'a> Iterator for Words<'a> {
    type Item = &'a [u8];

    ghost next_gives = { λ s r t. (option_copied r ≡ first_word s) × (t ≡ rest s) };

    ghost remaining = { λ s. at_most (length s) };

    fn next(&mut self) -> Option<&'a [u8]> {
        let (word, rest) = split_word(self.rest);
        self.rest = rest;
        (!word.is_empty()).then_some(word)
    }
}

/// The number from 0 to 255 that a word writes in decimal digits.
// No `parse`: it takes a plus sign, and it wants text.
pub fn read_number(word: &[u8]) -> Option<u8>
    ensures { result ≡ number word.now }
{
    if word.is_empty() {
        return None;
    }
    word.iter()
        .try_fold(0, |value, &byte| shift_in(value, byte))
}

/// The number that a value becomes with one digit more behind it.
fn shift_in(value: u8, byte: u8) -> Option<u8>
    ensures { result ≡ shifted value byte }
{
    match byte {
        b'0'..=b'9' => value.checked_mul(10)?.checked_add(byte - b'0'),
        _ => None,
    }
}
