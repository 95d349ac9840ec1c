//! Lagrange's constants of a set of ids.

ghost use Rattle.std.specs.Prelude.{◌≡◌, true, map, ◌≢◌};
ghost use Rattle.circle.specs.Lagrange.{constant_in};
ghost use Rattle.circle.specs.LagrangeParts.{gaps};
ghost use Rattle.circle.specs.Ids.{member, members, has_point};
ghost use Rattle.std.specs.List.{list_all};

use crate::ids::IdSet;
use crate::polynomial::point_of;
use fields::field::Field;

// Whether the id has a point.
pub(crate) fn has_point<F: Field>(id: u8) -> bool
    ensures { result ≡ has_point F.points.largest id }
{
    (1..=F::max_id()).contains(&id)
}

// The quotient of two elements, the second of which is not zero.
fn quotient<F: Field>(x: F, y: F) -> F
    requires { y ≢ F.ops.zero }
    ensures { result ≡ F.ops.mul x (F.ops.inv y) }
{
    match y.inverse() {
        Some(inverse) => x * inverse,
        None => unreachable!(),
    }
}

// The product of z - k over the points k of the ids of a set.
fn gaps<F: Field>(set: IdSet, z: F) -> F
    requires { list_all (has_point F.points.largest) (members set) ≡ true }
    ensures { result ≡ gaps F.ops (map F.points.at (members set)) z }
{
    let mut product = F::one();
    // No fold: its closure would not know that each id has a point.
    for id in set.members() {
        product = product * (z - point_of(id));
    }
    product
}

// The constant of an id of a set, for the value at z.
#[tactic(auto, using(crate::proofs::lagrange::Sets::own_point, crate::proofs::lagrange::Sets::others_points))]
pub(crate) fn constant_in<F: Field>(set: IdSet, id: u8, z: F) -> F
    requires known { list_all (has_point F.points.largest) (members set) ≡ true }
    requires own { member set id ≡ true }
    ensures { result ≡ constant_in F.ops F.points.at set id z }
{
    let others = set.remove(id);
    quotient(gaps(others, z), gaps(others, point_of(id)))
}
