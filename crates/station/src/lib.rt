//! The station: does the steps of a script over the field that the script names, and answers each line.

#![tactic(auto)]

pub mod desk;
pub mod refusal;
pub mod run;
pub mod station;
