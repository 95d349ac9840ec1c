//! Reads a script from standard input, and answers each of its lines.

#![tactic(auto)]

use station::run::answer_all;
use std::io;

fn main(rt: HostRuntime) -> io::Result<()> {
    answer_all::<false>(&rt)
}
