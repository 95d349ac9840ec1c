//! Reads a script from standard input, and answers each of its lines. A crate of its own: the gate runs a program on one input.

#![tactic(auto)]

use station::run::answer_all;
use std::io;

fn main(rt: HostRuntime) -> io::Result<()> {
    answer_all::<true>(&rt)
}
