//! Finite fields, and the interface that the code above is generic over.

#![tactic(auto)]

pub mod byte;
pub mod byte_field;
mod byte_tables;
pub mod field;
pub mod modulus;
pub mod prime;
pub mod residue;
pub mod row;
