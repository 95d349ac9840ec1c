//! The integers modulo a prime, as fields: one impl for every modulus.

ghost use Rattle.std.specs.Prelude.{◌≡◌, ◌%◌, ◌^◌, ◌<◌, MatchOption, ◌≢◌, refl};
ghost use Rattle.fields.specs.Modulus.{prime_ops, prime_points, prime_forms, prime_finite};
ghost use Rattle.fields.specs.Field.{as_tested};
ghost use Rattle.fields.specs.Residue.{plus, minus, times, power};
ghost use Rattle.fields.specs.ResidueLaws.{prime_laws, equality};
ghost use Rattle.fields.specs.declared.residue.Residue.{Residue};

use crate::field::Field;
use crate::modulus::Modulus;
use crate::residue::Residue;
use std::ops::{Add, Mul, Neg, Sub};

impl<const P: u16> Residue<P> {
    // The residue of a value below P. No TryFrom: its callers know that the value is.
    fn of(value: u16) -> Self
        requires { value < P }
        ensures { (x : Residue P) → x.value ≡ value → result ≡ x }
    {
        Residue { value }
    }

    // By squares: a product or two for each digit of the exponent.
    fn raised(self, exponent: u16) -> Self
        ensures { result ≡ power P self.entry exponent }
    {
        let p = P as u32;
        let mut result = 1 % p;
        let mut square = self.value as u32;
        let mut left = exponent;
        while left > 0 {
            if left % 2 == 1 {
                result = result * square % p;
            }
            square = square * square % p;
            left /= 2;
        }
        Residue {
            value: result as u16,
        }
    }
}

impl<const P: u16> Add<Residue<P>> for Residue<P> {
    type Output = Residue<P>;

    ghost add_gives = { λ x y r. r ≡ plus P x y };

    fn add(self, other: Residue<P>) -> Residue<P> {
        let value = (self.value as u32 + other.value as u32) % P as u32;
        Self::of(value as u16)
    }
}

impl<const P: u16> Neg for Residue<P> {
    type Output = Residue<P>;

    ghost neg_gives = { λ x r. r ≡ minus P x };

    fn neg(self) -> Residue<P> {
        Self::of((P - self.value) % P)
    }
}

impl<const P: u16> Sub<Residue<P>> for Residue<P> {
    type Output = Residue<P>;

    ghost sub_gives = { λ x y r. r ≡ plus P x (minus P y) };

    fn sub(self, other: Residue<P>) -> Residue<P> {
        self + -other
    }
}

impl<const P: u16> Mul<Residue<P>> for Residue<P> {
    type Output = Residue<P>;

    ghost mul_gives = { λ x y r. r ≡ times P x y };

    fn mul(self, other: Residue<P>) -> Residue<P> {
        let value = (self.value as u32 * other.value as u32) % P as u32;
        Self::of(value as u16)
    }
}

// The power P - 2 is the inverse.
fn inverse_of<const P: u16, M: Modulus<P>>(x: Residue<P>) -> Option<Residue<P>>
    ensures { MatchOption result (x.entry ≡ (prime_ops P M.chosen).zero) (λ y. (x.entry ≢ (prime_ops P M.chosen).zero) × (y ≡ (prime_ops P M.chosen).inv x.entry)) }
{
    if x.value == 0 {
        return None;
    }
    Some(x.raised(P - 2))
}

impl<const P: u16> Field for Residue<P>
where
    Self: Modulus<P>,
{
    ghost ops = { prime_ops P ⟦<Residue<P> as Modulus<P>>⟧.chosen };

    ghost laws = { prime_laws P ⟦<Residue<P> as Modulus<P>>⟧.chosen.prime };

    ghost equality = { equality P };

    ghost points = { prime_points P ⟦<Residue<P> as Modulus<P>>⟧.chosen };

    ghost forms = { prime_forms P ⟦<Residue<P> as Modulus<P>>⟧.chosen };

    ghost finite = { prime_finite P ⟦<Residue<P> as Modulus<P>>⟧.chosen };

    ghost add_free = { λ x y. tt };

    ghost add_is = { λ x y r e. e };

    ghost sub_free = { λ x y. tt };

    ghost sub_is = { λ x y r e. e };

    ghost mul_free = { λ x y. tt };

    ghost mul_is = { λ x y r e. e };

    ghost neg_free = { λ x. tt };

    ghost neg_is = { λ x r e. e };

    ghost few_bytes = { as_tested refl };

    ghost eq_is = { λ x y. refl };

    ghost LARGEST_ID = { ⟦<Residue<P> as Modulus<P>>⟧.LARGEST_ID };

    ghost BYTES = { ⟦<Residue<P> as Modulus<P>>⟧.BYTES };

    ghost FIELD_BYTE = { ⟦<Residue<P> as Modulus<P>>⟧.FIELD_BYTE };

    ghost constants = { ⟦<Residue<P> as Modulus<P>>⟧.constants };

    const LARGEST_ID: u8 = <Residue<P> as Modulus<P>>::LARGEST_ID;

    const BYTES: usize = <Residue<P> as Modulus<P>>::BYTES;

    const FIELD_BYTE: u8 = <Residue<P> as Modulus<P>>::FIELD_BYTE;

    fn zero() -> Self {
        Self::of(0)
    }

    fn one() -> Self {
        Self::of(1)
    }

    fn small() {}

    fn inverse(self) -> Option<Self> {
        inverse_of::<P, Self>(self)
    }

    fn point(id: u8) -> Option<Self> {
        if id < 1 || id > Self::max_id() {
            return None;
        }
        Some(Residue { value: id as u16 })
    }

    fn write(self) -> [u8; 4] {
        let [high, low] = self.value.to_be_bytes();
        if Self::byte_length() == 1 {
            return [low, 0, 0, 0];
        }
        [high, low, 0, 0]
    }

    fn read(form: &[u8]) -> Option<Self> {
        if form.len() != Self::byte_length() {
            return None;
        }
        let value = match form {
            [low] => u16::from(*low),
            [high, low] => u16::from_be_bytes([*high, *low]),
            _ => return None,
        };
        if value < P {
            Some(Residue { value })
        } else {
            None
        }
    }

    fn largest_number() -> u32 {
        P as u32 - 1
    }

    fn number(self) -> u32 {
        self.value as u32
    }

    fn element(number: u32) -> Option<Self> {
        if number < P as u32 {
            return Some(Residue {
                value: number as u16,
            });
        }
        None
    }
}
