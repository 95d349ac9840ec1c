//! What a finite field is to the code above it: the operations, and the laws that every field keeps.

ghost use Rattle.std.specs.Prelude.{◌≡◌, ℕ, ◌-◌, ◌<◌, ◌≤◌, ◌++◌, replicate, MatchOption, ◌≢◌};
ghost use Rattle.std.specs.Mem.{type_size};
ghost use Rattle.fields.specs.Field.{Ops, FieldLaws, Equality, Points, Forms, Finite, sub};

use std::ops::{Add, Mul, Neg, Sub};

/// An element is its own meaning: no two values of a field's type mean the same element.
pub trait Field: Copy
    + Eq
    + Add<Self, Output = Self>
    + Sub<Self, Output = Self>
    + Mul<Self, Output = Self>
    + Neg<Output = Self> {
    // The operations.
    ghost ops: { Ops Self };

    // The laws of a field.
    ghost laws: { FieldLaws ops };

    // Which elements are the same.
    ghost equality: { Equality Self };

    // The points of the ids.
    ghost points: { Points ops };

    // The bytes of an element.
    ghost forms: { Forms Self };

    // The elements, numbered.
    ghost finite: { Finite Self };

    /// The largest id that has a point.
    const LARGEST_ID: u8;

    /// How many bytes an element has.
    const BYTES: usize;

    /// The byte that names the field.
    const FIELD_BYTE: u8;

    ghost LARGEST_ID: { ℕ };

    ghost BYTES: { ℕ };

    ghost FIELD_BYTE: { ℕ };

    // The constants are those of the points and the forms.
    ghost constants: { (LARGEST_ID ≡ points.largest) × (BYTES ≡ forms.width) × (FIELD_BYTE ≡ forms.mark) };

    fn max_id() -> u8
        ensures { result ≡ points.largest }
    {
        Self::LARGEST_ID
    }

    fn byte_length() -> usize
        ensures { result ≡ forms.width }
    {
        Self::BYTES
    }

    fn name_byte() -> u8
        ensures { result ≡ forms.mark }
    {
        Self::FIELD_BYTE
    }

    fn zero() -> Self
        ensures { result ≡ ops.zero };

    fn one() -> Self
        ensures { result ≡ ops.one };

    /// An element takes few bytes. Code that holds an array of elements calls this first, since it does not know their size.
    fn small()
        ensures { type_size Self.row ≤ 65536 };

    // What may fail answers an Option, and elements are read by no TryFrom: the error of one would say nothing.

    /// None for zero, and for zero alone.
    fn inverse(self) -> Option<Self>
        ensures { MatchOption result (self ≡ ops.zero) (λ y. (self ≢ ops.zero) × (y ≡ ops.inv self)) };

    fn same(&self, other: &Self) -> bool
        ensures { result ≡ equality.same self.now other.now }
    {
        self == other
    }

    /// The point of an id from 1 to the largest, and None for any other number.
    fn point(id: u8) -> Option<Self>
        ensures { MatchOption result (1 ≤ id → id ≤ points.largest → ⊥) (λ x. (1 ≤ id) × (id ≤ points.largest) × (x ≡ points.at id)) };

    /// The byte form, with zeros after it up to four bytes.
    // Fixed memory beside the length: an array of `BYTES` bytes is no type, since a const argument is not computed.
    fn write(self) -> [u8; 4]
        ensures { result ≡ forms.bytes self ++ replicate (4 - forms.width) 0 };

    /// The element whose byte form this is, if there is one.
    fn read(form: &[u8]) -> Option<Self>
        ensures { MatchOption result ((x : Self) → forms.bytes x ≢ form.now) (λ x. forms.bytes x ≡ form.now) };

    /// How many elements there are, less one.
    fn largest_number() -> u32
        ensures { result ≡ finite.size - 1 };

    /// The number by which a script names the element.
    // No Into: an element of the bytes is a polynomial, and not the number that names it.
    fn number(self) -> u32
        ensures { result ≡ finite.number self };

    /// The element of a number, if there is one.
    fn element(number: u32) -> Option<Self>
        ensures { MatchOption result (finite.size ≤ number) (λ x. (number < finite.size) × (finite.number x ≡ number)) };

    // The operators are the operations, at all elements.

    ghost add_free: { (x y : Self) → Self.Add.can_add x y };

    ghost add_is: { (x y r : Self) → Self.Add.add_gives x y r → r ≡ ops.add x y };

    ghost sub_free: { (x y : Self) → Self.Sub.can_sub x y };

    ghost sub_is: { (x y r : Self) → Self.Sub.sub_gives x y r → r ≡ sub ops x y };

    ghost mul_free: { (x y : Self) → Self.Mul.can_mul x y };

    ghost mul_is: { (x y r : Self) → Self.Mul.mul_gives x y r → r ≡ ops.mul x y };

    ghost neg_free: { (x : Self) → Self.Neg.can_neg x };

    ghost neg_is: { (x r : Self) → Self.Neg.neg_gives x r → r ≡ ops.neg x };

    // An element takes few bytes.
    ghost few_bytes: { type_size Self.row ≤ 65536 };

    // `==` tells which elements are the same.
    ghost eq_is: { (x y : Self) → Self.PartialEq.eq x y ≡ equality.same x y };
}
