//! Cards that fix a polynomial at each place.

ghost use Rattle.std.specs.Prelude.{◌≡◌, ℕ, ◌<◌, ◌≤◌, true, map, length, slice_index_or};
ghost use Rattle.std.specs.List.{list_all, range_with_len};
ghost use Rattle.circle.specs.Open.{face, faces, id_known, as_long, ids_differ, lies, column};
ghost use Rattle.circle.specs.OpenParts.{ids_of, set_of, Fixing, Constants};
ghost use Rattle.circle.specs.Polynomial.{interpolated};

use crate::card::Card;
use crate::ids::IdSet;
use crate::lagrange::constant_in;
use crate::polynomial::point_of;
use fields::field::Field;
use fields::row::{blank_row, get, put};

// Cards with different ids, and the set of these ids.
#[derive(Drop)]
pub(crate) struct Basis<'a, F: Field> {
    cards: &'a [Card<'a, F>],
    set: IdSet,
    places: usize,
    ghost fixing: { Fixing F.points.largest places set (faces cards.now) },
}

// The set of the cards' ids.
fn ids_on<F: Field>(cards: &[Card<'_, F>]) -> IdSet
    ensures { result ≡ set_of (faces cards.now) }
{
    cards
        .iter()
        .fold(IdSet::empty(), |set, card| set.insert(card.id))
}

impl<'a, F: Field> Basis<'a, F> {
    pub(crate) fn new(cards: &'a [Card<'a, F>], places: usize) -> Basis<'a, F>
        requires few { places ≤ 32 }
        requires most { length cards.now ≤ 32 }
        requires known { list_all (id_known F.points.largest) (faces cards.now) ≡ true }
        requires differ { ids_differ (faces cards.now) ≡ true }
        requires long { list_all (as_long places) (faces cards.now) ≡ true }
        ensures cards { result.cards.now ≡ cards.now }
        ensures places { result.places ≡ places }
    {
        Basis {
            cards,
            set: ids_on(cards),
            places,
        }
    }

    // The constants of the cards' ids, for the values at z, in the order of the cards.
    fn constants(&self, z: F) -> [F; 32]
        ensures { Constants F.ops F.points.at self.now.set (ids_of (faces self.now.cards.now)) z result }
    {
        let mut row = blank_row();
        for (i, card) in self.cards.iter().enumerate() {
            put(&mut row, i, constant_in(self.set, card.id, z));
        }
        row
    }

    // The value at z of the polynomial of the place p, by the constants for z.
    fn value_at(&self, constants: &[F; 32], p: usize) -> F
        requires { p < self.now.places }
        ensures { (z : F) → Constants F.ops F.points.at self.now.set (ids_of (faces self.now.cards.now)) z constants.now
            → result ≡ interpolated F.ops (column F.ops F.points.at p (faces self.now.cards.now)) z }
    {
        let mut sum = F::zero();
        for (i, card) in self.cards.iter().enumerate() {
            sum = sum + get(constants, i) * card.shares[p];
        }
        sum
    }

    // Writes the values at z of the polynomials, place after place.
    pub(crate) fn interpolate(&self, z: F, values: &mut [F])
        requires { length values.old ≡ self.now.places }
        ensures { values.new ≡ map (λ p. interpolated F.ops (column F.ops F.points.at p (faces self.now.cards.now)) z) (range_with_len 0 (length values.old)) }
    {
        let constants = self.constants(z);
        for (p, value) in values.iter_mut().enumerate() {
            *value = self.value_at(&constants, p);
        }
    }

    // Whether the card lies on the polynomials: as far as the first place where it does not.
    pub(crate) fn agrees(&self, card: &Card<'_, F>) -> bool
        requires own { id_known F.points.largest (face card.now) ≡ true }
        requires long { as_long self.now.places (face card.now) ≡ true }
        ensures { result ≡ lies F.ops F.points.at F.equality.same self.now.places (faces self.now.cards.now) (face card.now) }
    {
        let constants = self.constants(point_of(card.id));
        for (p, share) in card.shares.iter().enumerate() {
            if !self.value_at(&constants, p).same(share) {
                return false;
            }
        }
        true
    }
}
