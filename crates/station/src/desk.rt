//! What the desk of a field keeps. The types stand alone, since files of specs name them.

ghost use Rattle.std.specs.Prelude.{◌≡◌, ◌*◌, vec_len};

use circle::round::{Receipt, Round};
use circle::state::Circle;
use fields::field::Field;

pub mod steps;

/// The table of a circle's shares, and as much memory for the tally of its rounds.
#[derive(Drop)]
pub struct Memory<F> {
    table: Vec<F>,
    tally: Vec<F>,
    ghost even: { vec_len tally ≡ vec_len table },
}

/// A circle with its memory.
#[derive(Drop)]
pub struct Settled<F> {
    circle: Circle<F>,
    memory: Memory<F>,
    ghost sized: { vec_len memory.table ≡ 32 * circle.places },
}

/// A round with its receipt and its memory. To let it go is to abandon the round.
pub struct Running<F: Field> {
    round: Round<F>,
    receipt: Receipt,
    memory: Memory<F>,
    ghost sized: { vec_len memory.table ≡ 32 * round.circle.places },
}

impl<F: Field> Drop for Running<F> {
    fn drop(self) {
        let Running {
            round,
            receipt,
            mut memory,
        } = self;
        match round.abandon(receipt, memory.tally.as_mut_slice()) {
            Ok(_) => {}
            Err(_) => unreachable!(),
        }
    }
}

/// No circle was dealt yet, or there is one, or a round of one is open.
#[derive(Drop)]
pub enum Desk<F: Field> {
    Empty,
    Settled(Settled<F>),
    Running(Running<F>),
}
