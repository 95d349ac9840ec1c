//! What a circle is. The struct stands alone, since files of specs name it.

ghost use Rattle.std.specs.Prelude.{◌≡◌, ◌≤◌, count_ones};

use crate::ids::IdSet;
use std::marker::PhantomData;

/// A key dealt over the field F: who holds a share, how many shares open it, how often the shares were renewed, and how many
/// elements the key has. The roll is the set of the holders' ids, and a place is one element of the key.
#[derive(Drop)]
pub struct Circle<F> {
    pub(crate) roll: IdSet,
    pub(crate) threshold: u16,
    pub(crate) epoch: u16,
    pub(crate) places: u16,
    pub(crate) field: PhantomData<F>,
    ghost some: { 1 ≤ places },
    ghost few: { places ≤ 32 },
    ghost low: { 2 ≤ threshold },
    ghost high: { threshold ≤ count_ones roll },
    ghost last: { epoch ≤ 9999 },
}

impl<F> Circle<F> {
    /// The set of the holders' ids.
    pub fn roll(&self) -> IdSet
        ensures { result ≡ self.now.roll }
    {
        self.roll
    }

    /// How many shares open the key.
    pub fn threshold(&self) -> u16
        ensures { result ≡ self.now.threshold }
    {
        self.threshold
    }

    /// How often the shares were renewed.
    pub fn epoch(&self) -> u16
        ensures { result ≡ self.now.epoch }
    {
        self.epoch
    }

    /// How many elements the key has.
    pub fn places(&self) -> u16
        ensures { result ≡ self.now.places }
    {
        self.places
    }
}
