//! The moduli whose residues are our fields. A further prime is one record of choices and one impl.

ghost use Rattle.std.specs.Prelude.{◌≡◌, ℕ, refl};
ghost use Rattle.fields.specs.Modulus.{Chosen, chosen_13, chosen_41, chosen_257};
ghost use Rattle.fields.specs.Residue.{count};

use crate::residue::Residue;

/// What is chosen for the field of the residues modulo P.
pub trait Modulus<const P: u16> {
    ghost chosen: { Chosen P };

    const LARGEST_ID: u8;

    const BYTES: usize;

    const FIELD_BYTE: u8;

    ghost LARGEST_ID: { ℕ };

    ghost BYTES: { ℕ };

    ghost FIELD_BYTE: { ℕ };

    // The constants are those chosen.
    ghost constants: { (LARGEST_ID ≡ chosen.largest) × (BYTES ≡ count chosen.width) × (FIELD_BYTE ≡ chosen.mark) };
}

pub type Z13 = Residue<13>;

impl Modulus<13> for Residue<13> {
    ghost chosen = { chosen_13 };

    ghost LARGEST_ID = { 12 };

    ghost BYTES = { 1 };

    ghost FIELD_BYTE = { 1 };

    ghost constants = { (refl, refl, refl) };

    const LARGEST_ID: u8 = 12;

    const BYTES: usize = 1;

    const FIELD_BYTE: u8 = 1;
}

pub type Z41 = Residue<41>;

impl Modulus<41> for Residue<41> {
    ghost chosen = { chosen_41 };

    ghost LARGEST_ID = { 32 };

    ghost BYTES = { 1 };

    ghost FIELD_BYTE = { 2 };

    ghost constants = { (refl, refl, refl) };

    const LARGEST_ID: u8 = 32;

    const BYTES: usize = 1;

    const FIELD_BYTE: u8 = 2;
}

pub type Z257 = Residue<257>;

impl Modulus<257> for Residue<257> {
    ghost chosen = { chosen_257 };

    ghost LARGEST_ID = { 32 };

    ghost BYTES = { 2 };

    ghost FIELD_BYTE = { 3 };

    ghost constants = { (refl, refl, refl) };

    const LARGEST_ID: u8 = 32;

    const BYTES: usize = 2;

    const FIELD_BYTE: u8 = 3;
}
