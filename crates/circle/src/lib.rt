//! A key in shares, over any field: dealing it, the rounds that renew it, showing cards and opening it.

#![tactic(auto)]

mod basis;
pub mod card;
pub mod deal;
pub mod denial;
pub mod examples;
mod holders;
pub mod ids;
pub mod kind;
mod lagrange;
pub mod open;
pub mod polynomial;
pub mod round;
pub mod state;
mod table;
