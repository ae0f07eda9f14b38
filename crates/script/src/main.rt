//! Reads a script from standard input, and prints its transcript.
#![tactic(auto)]

use std::io;
use transcript::script::transcribe;

fn main(rt: HostRuntime) -> io::Result<()> {
    transcribe(rt.alloc(), &mut rt.stdin(), &mut rt.stdout())
}
