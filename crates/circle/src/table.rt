//! Tables, and lists of numbers, place after place.

ghost use Rattle.std.specs.Prelude.{◌≡◌, ℕ, ◌+◌, ◌*◌, ◌<◌, ◌≤◌, List, length};
ghost use Rattle.std.specs.Iterator.{IsFinite, Drains};
ghost use Rattle.circle.specs.Polynomial.{sum};
ghost use Rattle.circle.specs.Table.{entry, piece, cleared};

use fields::field::Field;

// The numbers of the place p, of which each place has d.
pub(crate) fn piece_of<F: Field>(numbers: &[F], d: usize, p: usize) -> &[F]
    requires { p * d + d ≤ length numbers.now }
    ensures { result.now ≡ piece d numbers.now p }
{
    &numbers[p * d..p * d + d]
}

// What a table holds for the id at the place p.
pub(crate) fn entry_of<F: Field>(table: &[F], p: usize, id: u8) -> F
    requires low { 1 ≤ id }
    requires high { 32 * p + id ≤ length table.now }
    ensures { result ≡ entry F.ops.zero table.now p id }
{
    table[32 * p + id as usize - 1]
}

// Puts in place of each entry of a table what `new` makes of the place, the id, and the entry.
// By position, since no contract says what a slice holds after a loop over its chunks.
pub(crate) fn update<F: Field, N: Fn(usize, u8, F) -> F>(table: &mut [F], new: N)
    requires { (p h : ℕ) (x : _) → 32 * p + h ≤ length table.old → 1 ≤ h → h ≤ 32 → N.pre new p h x }
    ensures { (p h : ℕ) → 32 * p + h ≤ length table.old → 1 ≤ h → h ≤ 32 → N.post new p h (entry F.ops.zero table.old p h) (entry F.ops.zero table.new p h) }
{
    for (k, x) in table.iter_mut().enumerate() {
        *x = new(k / 32, (k % 32) as u8 + 1, *x);
    }
}

// The sum of the elements.
pub(crate) fn sum<F: Field, I: Iterator<Item = F> + Drop>(elements: I) -> F
    requires can { I.can_next elements }
    requires ends { IsFinite (I.remaining elements) }
    ensures { (xs : List F) × Drains I.next_gives elements xs × (result ≡ sum F.ops xs) }
{
    elements.fold(F::zero(), |sum, x| sum + x)
}

// Puts zeros in place of what is there. `fill` asks that a clone cannot fail, which is not known of an element.
pub(crate) fn clear<F: Field>(xs: &mut [F])
    ensures { xs.new ≡ cleared F.ops xs.old }
{
    for x in xs.iter_mut() {
        *x = F::zero();
    }
}
