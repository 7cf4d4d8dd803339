//! Shows the load of one segment: reads a script of calls from standard input, and prints for each call its answer and a load bar.
#![tactic(auto)]

mod listing;
mod runs;
mod scripts;
mod words;

use std::io;
use std::io::Read;

fn main(rt: HostRuntime) -> io::Result<()> {
    let heap = rt.alloc();
    let mut script = Vec::new(heap);
    rt.stdin().read_to_end(&mut script)?;
    let text = runs::run_script(heap, &script)?;
    print!(rt; "{text}")
}
