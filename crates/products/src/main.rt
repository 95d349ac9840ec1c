//! Multiplies bytes, to be timed: `products COUNT` makes so many products, each of the two before it. A second count makes
//! products that do not wait for one another. Prints the last element of each kind as a number.

#![tactic(auto)]

mod chains;

use fields::field::Field;
use std::env;

// The next argument as a count, and 0 where there is none.
fn count(argument: Option<String>) -> anyhow::Result<u64> {
    match argument {
        Some(text) => Ok(text.parse::<u64>()?),
        None => Ok(0),
    }
}

fn run(rt: &HostRuntime) -> anyhow::Result<()> {
    let mut arguments = env::args(rt)?;
    let _ = arguments.next();
    let chained = chains::chained(count(arguments.next())?);
    let summed = chains::summed(count(arguments.next())?);
    println!(rt; "{} {}", chained.number(), summed.number())?;
    Ok(())
}

fn main(rt: HostRuntime) -> anyhow::Result<()> {
    run(&rt)
}
