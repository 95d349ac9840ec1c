//! The bytes as the field of FIPS 197: a sum is the exclusive or, a product is read from tables of logarithms.

ghost use Rattle.std.specs.Prelude.{◌≡◌, ℕ, List, length, slice_index, refl};
ghost use Rattle.fields.specs.Byte.{byte_of, byte_ops, ProductLaws};
ghost use Rattle.fields.specs.ByteField.{byte_points, byte_forms, byte_finite};
ghost use Rattle.fields.specs.ByteLaws.{byte_laws, byte_equality};
ghost use Rattle.fields.specs.Field.{sub, as_tested};

use crate::byte::Byte;
use crate::byte_tables::{logarithm, power};
use crate::field::Field;
use std::ops::{Add, Mul, Neg, Sub};

impl From<u8> for Byte {
    // Which byte it is, and what its form is.
    ghost from_gives = { λ value b. (b ≡ byte_of value) × ((form : List ℕ) → length form ≡ 1 → slice_index form 0 ≡ value → byte_forms.bytes b ≡ form) };

    fn from(value: u8) -> Byte {
        Byte { value }
    }
}

impl Add<Byte> for Byte {
    type Output = Byte;

    ghost add_gives = { λ x y r. r ≡ byte_ops.add x y };

    fn add(self, other: Byte) -> Byte {
        Self::from(self.value ^ other.value)
    }
}

// A byte is its own opposite.
impl Neg for Byte {
    type Output = Byte;

    ghost neg_gives = { λ x r. r ≡ byte_ops.neg x };

    fn neg(self) -> Byte {
        self
    }
}

impl Sub<Byte> for Byte {
    type Output = Byte;

    ghost sub_gives = { λ x y r. r ≡ sub byte_ops x y };

    fn sub(self, other: Byte) -> Byte {
        self + other
    }
}

impl Mul<Byte> for Byte {
    type Output = Byte;

    ghost mul_gives = { λ x y r. r ≡ byte_ops.mul x y };

    fn mul(self, other: Byte) -> Byte {
        match (logarithm(self.value), logarithm(other.value)) {
            (Some(i), Some(j)) => Self::from(power(i + j)),
            _ => Self::zero(),
        }
    }
}

impl Field for Byte {
    ghost ops = { byte_ops };

    ghost laws = { byte_laws };

    ghost equality = { byte_equality };

    ghost points = { byte_points };

    ghost forms = { byte_forms };

    ghost finite = { byte_finite };

    ghost add_free = { λ x y. tt };

    ghost add_is = { λ x y r e. e };

    ghost sub_free = { λ x y. tt };

    ghost sub_is = { λ x y r e. e };

    ghost mul_free = { λ x y. tt };

    ghost mul_is = { λ x y r e. e };

    ghost neg_free = { λ x. tt };

    ghost neg_is = { λ x r e. e };

    ghost few_bytes = { as_tested refl };

    ghost eq_is = { λ x y. refl };

    ghost LARGEST_ID = { 32 };

    ghost BYTES = { 1 };

    ghost FIELD_BYTE = { 4 };

    ghost constants = { (refl, refl, refl) };

    const LARGEST_ID: u8 = 32;

    const BYTES: usize = 1;

    const FIELD_BYTE: u8 = 4;

    fn zero() -> Self {
        Self::from(0)
    }

    fn one() -> Self {
        Self::from(1)
    }

    fn small() {}

    fn inverse(self) -> Option<Self> {
        let exponent = logarithm(self.value)?;
        Some(Self::from(power(255 - exponent)))
    }

    fn point(id: u8) -> Option<Self> {
        if id < 1 || id > Self::LARGEST_ID {
            return None;
        }
        Some(Self::from(id))
    }

    fn write(self) -> [u8; 4] {
        [self.value, 0, 0, 0]
    }

    fn read(form: &[u8]) -> Option<Self> {
        match form {
            [value] => Some(Self::from(*value)),
            _ => None,
        }
    }

    fn largest_number() -> u32 {
        255
    }

    fn number(self) -> u32 {
        self.value as u32
    }

    fn element(number: u32) -> Option<Self> {
        let value = u8::try_from(number).ok()?;
        Some(Self::from(value))
    }
}

// The laws of the product, shown once.
fn laws_shown()
    ensures { ProductLaws }
{}

/// The product is the standard's: the remainder of a division, and xtime where a factor is 2.
pub fn byte_laws()
    ensures { ProductLaws }
{
    laws_shown();
}
