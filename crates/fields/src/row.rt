//! Rows of 32 elements: room for one of each id.

ghost use Rattle.std.specs.Prelude.{◌≡◌, replicate, slice_index_or, slice_set};

use crate::field::Field;

/// A row of zeros.
pub fn blank_row<F: Field>() -> [F; 32]
    ensures { result ≡ replicate 32 F.ops.zero }
{
    [F::zero(); 32]
}

/// Writes the element. Past the row's end nothing is written.
pub fn put<F: Field>(row: &mut [F; 32], i: usize, x: F)
    ensures { row.new ≡ slice_set row.old i x }
{
    if i < 32 {
        row[i] = x;
    }
}

/// The element, and zero past the row's end.
pub fn get<F: Field>(row: &[F; 32], i: usize) -> F
    ensures { result ≡ slice_index_or row.now i F.ops.zero }
{
    if i < 32 { row[i] } else { F::zero() }
}
