//! A script, line by line, on one segment.
ghost use Rattle.std.specs.Prelude.{◌≡◌, IfOk, string_bytes, OnOk};
ghost use Rattle.loadbar.specs.Runs.{start, with_contender, contender_text, with_call, call_text, taken_in, printed, listing};

use crate::listing::Refused;
use crate::scripts::Line;
use crate::{listing, scripts};
use arbitration::{Access, Event, Segment, SetupFault};
use std::alloc::{AllocError, Global};

/// The number of the one segment.
const SEGMENT: u8 = 1;

/// How far a script has come: its segment, the lines read and the calls made.
// The allocator is handed to each call and not kept, so that the definitions can speak of a run by itself.
#[derive(Drop)]
struct Run {
    segment: Segment,
    lines: usize,
    calls: usize,
}

// Which text is made is said as in `listing`.
impl Run {
    /// Before the first line.
    fn new(heap: Global) -> Run
        ensures { result ≡ start }
    {
        Run {
            segment: Segment::new(heap, SEGMENT),
            lines: 0,
            calls: 0,
        }
    }

    /// Adds a contender; answers the message if it is refused.
    fn add(&mut self, heap: Global, level: u8, access: Access) -> Result<String, AllocError>
        ensures text { IfOk result (λ s. string_bytes s ≡ contender_text level access self.old) }
        ensures after { OnOk result (self.new ≡ with_contender level access self.old) }
    {
        match self.segment.add_contender(level, access) {
            Ok(()) => Ok(String::new(heap)),
            Err(SetupFault::Refused(refusal)) => {
                listing::message_line(heap, self.lines, &Refused(refusal))
            }
            Err(SetupFault::NoMemory(error)) => Err(error),
        }
    }

    /// Makes a call; answers its line.
    fn call(&mut self, heap: Global, event: Event) -> Result<String, AllocError>
        ensures text { IfOk result (λ s. string_bytes s ≡ call_text event self.old) }
        ensures after { self.new ≡ with_call event self.old }
    {
        self.calls = self.calls.saturating_add(1);
        let answer = self.segment.apply(event);
        listing::call_line(heap, self.calls, answer, &self.segment)
    }

    /// Reads one line and does what it says; answers what is printed for it.
    fn take_in(&mut self, heap: Global, line: &[u8]) -> Result<String, AllocError>
        ensures text { IfOk result (λ s. string_bytes s ≡ printed line.now self.old) }
        ensures after { OnOk result (self.new ≡ taken_in line.now self.old) }
    {
        self.lines = self.lines.saturating_add(1);
        match scripts::read_line(line) {
            Ok(Line::Blank) => Ok(String::new(heap)),
            Ok(Line::Contender(level, access)) => self.add(heap, level, access),
            Ok(Line::Call(event)) => self.call(heap, event),
            Err(why) => listing::message_line(heap, self.lines, &why),
        }
    }
}

/// What a script prints.
pub fn run_script(heap: Global, script: &[u8]) -> Result<String, AllocError>
    ensures { IfOk result (λ s. string_bytes s ≡ listing script.now) }
{
    let mut run = Run::new(heap);
    let mut text = String::new(heap);
    for line in script.split(|&byte| byte == b'\n') {
        let printed = run.take_in(heap, line)?;
        text.push_str(printed.as_str())?;
    }
    Ok(text)
}
