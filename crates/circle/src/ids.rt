//! Sets of holder ids.

ghost use Rattle.std.specs.Prelude.{◌≡◌, ℕ, ◌-◌, ◌%◌, ◌^◌, ◌<◌, not, [], ◌∷◌, length, MatchOption, ◌==◌, bit_and, bit_or};
ghost use Rattle.std.specs.List.{slice_get};
ghost use Rattle.circle.specs.Ids as ids;
ghost use Rattle.std.specs.Iterator.{at_most};
ghost use Rattle.std.specs.Iterator.Runs.{EveryRun, ItemsAre};

use std::marker::Model;

/// Whether `id` is an id at all.
pub fn is_id(id: u8) -> bool
    ensures { result ≡ ids.is_id id }
{
    (1..=32).contains(&id)
}

// The bit of `id`, or 0 where it is no id: what it does to any set.
fn mask(id: u8) -> u32
    ensures tests { (set : ℕ) → set < 2 ^ 32 → not ((bit_and set result) == 0) ≡ ids.member set id }
    ensures inserts { (set : ℕ) → bit_or set result ≡ ids.inserted set id }
    ensures removes { (set : ℕ) → set < 2 ^ 32 → bit_and set (2 ^ 32 - 1 - result) ≡ ids.removed set id }
{
    if is_id(id) { 1 << (id - 1) } else { 0 }
}

/// A set of holder ids, from 1 to 32: bit h - 1 for the id h.
#[derive(Clone, Copy, Debug, PartialEq, Eq)]
pub struct IdSet {
    bits: u32,
}

impl Model for IdSet {
    ghost Value = { ℕ };

    ghost view = { λ s. s.bits };

    ghost invariant = { λ s. s.bits < 2 ^ 32 };

    ghost inverse = { λ n. record { bits = n } };
}

impl From<u32> for IdSet {
    ghost from_gives = { λ bits set. set ≡ bits };

    fn from(bits: u32) -> IdSet {
        IdSet { bits }
    }
}

impl From<IdSet> for u32 {
    ghost from_gives = { λ set bits. bits ≡ set };

    fn from(set: IdSet) -> u32 {
        set.bits
    }
}

impl IdSet {
    /// The set of no ids.
    pub fn empty() -> IdSet
        ensures { result ≡ 0 }
    {
        IdSet { bits: 0 }
    }

    /// Whether the set holds `id`. No set holds what is no id.
    pub fn contains(self, id: u8) -> bool
        ensures { result ≡ ids.member self id }
    {
        self.bits & mask(id) != 0
    }

    /// The set with `id`; the same set where `id` is no id.
    pub fn insert(self, id: u8) -> IdSet
        ensures { result ≡ ids.inserted self id }
    {
        IdSet {
            bits: self.bits | mask(id),
        }
    }

    /// The set without `id`.
    pub fn remove(self, id: u8) -> IdSet
        ensures { result ≡ ids.removed self id }
    {
        IdSet {
            bits: self.bits & !mask(id),
        }
    }

    /// How many ids the set holds.
    pub fn size(self) -> u32
        ensures { result ≡ ids.size self }
    {
        self.bits.count_ones()
    }

    // The ids of the set that are below `id`.
    fn below(self, id: u8) -> IdSet
        ensures { result ≡ self % 2 ^ (id - 1) }
    {
        if id == 0 {
            IdSet::empty()
        } else if id > 32 {
            self
        } else {
            IdSet {
                bits: self.bits & (1 << (id - 1)) - 1,
            }
        }
    }

    /// How many ids of the set are below `id`.
    pub fn rank(self, id: u8) -> u32
        ensures { result ≡ ids.rank self id }
    {
        self.below(id).size()
    }

    /// Whether no id of the set is above `largest`.
    pub fn all_within(self, largest: u8) -> bool
        ensures { result ≡ ids.within_largest self largest }
    {
        largest >= 32 || self.bits >> largest == 0
    }

    // The ids of the set that are not in `of`.
    fn outside(self, of: IdSet) -> IdSet
        ensures { (result == 0) ≡ ids.subset self of }
    {
        IdSet {
            bits: self.bits & !of.bits,
        }
    }

    /// Whether every id of the set is in `of` too.
    pub fn is_subset(self, of: IdSet) -> bool
        ensures { result ≡ ids.subset self of }
    {
        self.outside(of) == IdSet::empty()
    }

    // The lowest id of the set, if it has one. In the order those of the set without it come next.
    fn lowest(self) -> Option<u8>
        ensures { MatchOption result (ids.members self ≡ []) (λ h. ids.members self ≡ h ∷ ids.members (ids.removed self h)) }
    {
        if self.bits == 0 {
            return None;
        }
        Some(self.bits.trailing_zeros() as u8 + 1)
    }

    /// The ids of the set, ascending.
    pub fn members(self) -> Iter
        ensures rest { result.rest ≡ self }
        ensures runs { EveryRun ⟦<Iter as Iterator>⟧.next_gives (λ p. ItemsAre p (ids.members p.from.rest)) }
    {
        Iter { rest: self }
    }

    /// The member at place `k`, from 0, in ascending order.
    pub fn nth_member(self, k: usize) -> Option<u8>
        ensures { result ≡ slice_get (ids.members self) k }
    {
        self.members().nth(k)
    }
}

/// A walk through the ids of a set, ascending: those still to come.
#[derive(Drop)]
pub struct Iter {
    rest: IdSet,
}

impl Iterator for Iter {
    type Item = u8;

    ghost next_gives = { λ s r t. ids.Stepped s.rest r t.rest };

    ghost remaining = { λ s. at_most (length (ids.members s.rest)) };

    fn next(&mut self) -> Option<u8> {
        let id = self.rest.lowest()?;
        self.rest = self.rest.remove(id);
        Some(id)
    }
}

// The laws of sets of ids, shown once.
fn laws_shown()
    ensures { ids.SetLaws }
{}

/// The laws of sets of ids hold.
pub fn set_laws()
    ensures { ids.SetLaws }
{
    laws_shown();
}
