//! Sets of ids that all have a point in a field.

ghost use Rattle.std.specs.Prelude.{◌≡◌, ◌≤◌, true, false, MatchOption};
ghost use Rattle.circle.specs.Deal.{share_of};
ghost use Rattle.circle.specs.Ids.{member, within_largest};
ghost use Rattle.circle.specs.Polynomial.{polynomial, value};
ghost use Rattle.circle.specs.Table.{only};

use crate::ids::IdSet;
use crate::polynomial::value;
use fields::field::Field;
use std::marker::PhantomData;

// A set of ids, none of which is above the field's largest.
#[derive(Drop)]
pub(crate) struct Holders<F: Field> {
    set: IdSet,
    field: PhantomData<F>,
    ghost known: { within_largest set F.points.largest ≡ true },
}

impl<F: Field> Holders<F> {
    // The set, if all its ids have a point. No TryFrom, whose error would say nothing.
    pub(crate) fn of(set: IdSet) -> Option<Holders<F>>
        ensures { MatchOption result (within_largest set F.points.largest ≡ false) (λ holders. (within_largest set F.points.largest ≡ true) × (holders.set ≡ set)) }
    {
        if set.all_within(F::max_id()) {
            Some(Holders {
                set,
                field: PhantomData,
            })
        } else {
            None
        }
    }

    // The point of the id h, if it is in the set.
    pub(crate) fn point(&self, h: u8) -> Option<F>
        ensures { MatchOption result (member self.now.set h ≡ false) (λ x. (member self.now.set h ≡ true) × (h ≤ 32) × (x ≡ F.points.at h)) }
    {
        if self.set.contains(h) {
            F::point(h)
        } else {
            None
        }
    }

    // The share of the id h, of the polynomial with the constant term `first` and the numbers `rest` after it: zero off the set.
    pub(crate) fn share(&self, h: u8, first: F, rest: &[F]) -> F
        ensures { result ≡ share_of F.ops F.points.at self.now.set h (polynomial F.ops first rest.now) }
    {
        self.point(h)
            .map_or(F::zero(), |x| first + x * value(rest, x))
    }

    // The value of the numbers at the point of the id h: zero off the set.
    pub(crate) fn value(&self, h: u8, numbers: &[F]) -> F
        ensures { result ≡ only F.ops self.now.set h (value F.ops numbers.now (F.points.at h)) }
    {
        self.point(h).map_or(F::zero(), |x| value(numbers, x))
    }
}
