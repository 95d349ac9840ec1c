//! The script: lines of bytes, their grammar, and the steps that they state.

#![tactic(auto)]

pub mod grammar;
pub mod line;
pub mod steps;
