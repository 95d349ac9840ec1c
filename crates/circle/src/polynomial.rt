//! Values of polynomials, and the points at which they are taken.

ghost use Rattle.std.specs.Prelude.{◌≡◌, true};
ghost use Rattle.circle.specs.Ids.{has_point};
ghost use Rattle.circle.specs.Polynomial.{value, PolynomialLaws};

use fields::field::Field;

/// What a list of numbers comes to at x: Horner's rule, from the highest power down.
#[tactic(auto, using(crate::proofs::polynomial::Loops::horner))]
pub fn value<F: Field>(numbers: &[F], x: F) -> F
    ensures { result ≡ value F.ops numbers.now x }
{
    numbers
        .iter()
        .rev()
        .fold(F::zero(), |sum, number| *number + x * sum)
}

// The point of an id that has one.
pub(crate) fn point_of<F: Field>(id: u8) -> F
    requires { has_point F.points.largest id ≡ true }
    ensures { result ≡ F.points.at id }
{
    match F::point(id) {
        Some(x) => x,
        None => unreachable!(),
    }
}

// The theorems on polynomials that sharing rests on, shown once.
fn laws_shown<F: Field>()
    ensures { PolynomialLaws F.ops }
{}

/// The theorems on polynomials that sharing rests on hold.
pub fn polynomial_laws<F: Field>()
    ensures { PolynomialLaws F.ops }
{
    laws_shown::<F>();
}
