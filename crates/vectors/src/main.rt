//! Runs the scripts of an independent model, whose answers are the expected output.
#![tactic(auto)]

use std::io;
use transcript::script::transcribe;

// A program of its own, since a program is run on one stored input.
fn main(rt: HostRuntime) -> io::Result<()> {
    transcribe(rt.alloc(), &mut rt.stdin(), &mut rt.stdout())
}
