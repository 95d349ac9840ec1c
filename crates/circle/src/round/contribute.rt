//! Contributing to a round.

ghost use Rattle.std.specs.Prelude.{◌≡◌, ℕ, ◌+◌, ◌*◌, ◌≤◌, true, length, slice_index_or, Ok, Err, MatchResult};
ghost use Rattle.circle.specs.Contribute.{portion, portions, grown, contribute_answer, contribute_round, contribute_tally};
ghost use Rattle.circle.specs.Ids.{member, members, has_point};
ghost use Rattle.circle.specs.Kind.{contributors};
ghost use Rattle.circle.specs.Lagrange.{constant_in};
ghost use Rattle.circle.specs.Round.{round_facts, after};
ghost use Rattle.circle.specs.Table.{entry, grid};
ghost use Rattle.std.specs.List.{list_all};

use crate::denial::Denial;
use crate::holders::Holders;
use crate::ids::IdSet;
use crate::kind::Kind;
use crate::lagrange::{constant_in, has_point};
use crate::polynomial::point_of;
use crate::round::Round;
use crate::table::{piece_of, sum, update};
use fields::field::Field;

// The k-th of a helper's portions: its numbers, and last what they lack of the whole.
fn portion_at<F: Field>(whole: F, numbers: &[F], k: usize) -> F
    ensures { result ≡ slice_index_or (portions F.ops F.points.at whole numbers.now) k F.ops.zero }
{
    if k < numbers.len() {
        numbers[k]
    } else if k == numbers.len() {
        whole - sum(numbers.iter().copied())
    } else {
        F::zero()
    }
}

// The portion that is for the id h.
fn portion_of<F: Field>(helpers: IdSet, whole: F, numbers: &[F], h: u8) -> F
    ensures { result ≡ portion F.ops F.points.at (members helpers) (portions F.ops F.points.at whole numbers.now) h }
{
    if helpers.contains(h) {
        portion_at(whole, numbers, helpers.rank(h) as usize)
    } else {
        F::zero()
    }
}

// The constant by which the share of the id, one of the helpers, counts towards the newcomer's.
fn constant_for<F: Field>(newcomer: u8, helpers: IdSet, id: u8) -> F
    requires newcomer { has_point F.points.largest newcomer ≡ true }
    requires known { list_all (has_point F.points.largest) (members helpers) ≡ true }
    requires own { member helpers id ≡ true }
    ensures { result ≡ constant_in F.ops F.points.at helpers id (F.points.at newcomer) }
{
    constant_in(helpers, id, point_of(newcomer))
}

// Adds what is given at each place, to each id.
fn add_each<F: Field, G: Fn(usize, u8) -> F>(tally: &mut [F], given: G)
    requires { (p h : ℕ) → 32 * p + h ≤ length tally.old → 1 ≤ h → h ≤ 32 → G.pre given p h }
    ensures { (p h : ℕ) → 32 * p + h ≤ length tally.old → 1 ≤ h → h ≤ 32
        → (x : F) × G.post given p h x × (entry F.ops.zero tally.new p h ≡ F.ops.add (entry F.ops.zero tally.old p h) x) }
{
    update(
        tally,
        |p, h, tallied| -> F
            requires { G.pre given p h }
            ensures { (x : _) × G.post given p h x × (result ≡ F.ops.add tallied x) }
        { tallied + given(p, h) },
    );
}

impl<F: Field> Round<F> {
    // Who has to contribute.
    pub(super) fn contributors(&self) -> IdSet
        ensures { result ≡ contributors self.now.kind self.now.circle.roll }
    {
        self.kind.contributors(self.circle.roll)
    }

    // Tests a contribution, in the order of the denials, and gives those who hold a share after the round.
    fn accepts(
        &self,
        id: u8,
        numbers: usize,
        table: usize,
        tally: usize,
    ) -> Result<Holders<F>, Denial>
        ensures { MatchResult result
            (λ holders. (contribute_answer F.points.largest (round_facts self.now) id numbers table tally ≡ Ok tt) × (holders.set ≡ (after (round_facts self.now)).roll))
            (λ denial. contribute_answer F.points.largest (round_facts self.now) id numbers table tally ≡ Err denial) }
    {
        if !has_point::<F>(id) {
            return Err(Denial::NoSuchId);
        }
        let next = self.after();
        let holders = Holders::of(next.roll).ok_or(Denial::NoSuchId)?;
        let n = next.places as usize;
        let terms = next.threshold as usize - 1;
        if numbers != n * terms || table != 32 * n || tally != 32 * n {
            return Err(Denial::Length);
        }
        if !self.contributors().contains(id) {
            return Err(Denial::NotOnRoll);
        }
        if self.contributed.contains(id) {
            return Err(Denial::AlreadyContributed);
        }
        Ok(holders)
    }

    // Gives everyone its part of a contribution that is accepted.
    fn gather(&self, holders: &Holders<F>, id: u8, numbers: &[F], table: &[F], tally: &mut [F])
        requires accepted { contribute_answer F.points.largest (round_facts self.now) id (length numbers.now) (length table.now) (length tally.old) ≡ Ok tt }
        requires holders { holders.now.set ≡ (after (round_facts self.now)).roll }
        ensures { tally.new ≡ grid self.now.circle.places (grown F.ops F.points.at (round_facts self.now) id numbers.now table.now tally.old) }
    {
        let terms = self.after().threshold as usize - 1;
        // A closure is asked only for what its first call requires, so after `piece_of` the share is read by an index.
        match self.kind {
            Kind::Refresh | Kind::Dismissal { .. } => {
                add_each(tally, |p, h| holders.value(h, piece_of(numbers, terms, p)));
            }
            Kind::Change { helpers, .. } => {
                let constant = constant_in(IdSet::from(helpers), id, F::zero());
                add_each(tally, |p, h| {
                    let rest = piece_of(numbers, terms, p);
                    let share = table[32 * p + id as usize - 1];
                    constant * holders.share(h, share, rest)
                });
            }
            Kind::Admission { newcomer, helpers } => {
                let helpers = IdSet::from(helpers);
                let constant: F = constant_for(newcomer, helpers, id);
                add_each(tally, |p, h| {
                    let rest = piece_of(numbers, terms, p);
                    let whole = constant * table[32 * p + id as usize - 1];
                    portion_of(helpers, whole, rest, h)
                });
            }
        }
    }

    /// Takes the contribution of the id: so many random numbers at each place as the threshold that the round leads to, less one.
    /// The table is read at the contributor's own shares only.
    // Table and tally are slices that the caller lends, each on its own: the circle has no heap.
    pub fn contribute(
        &mut self,
        id: u8,
        numbers: &[F],
        table: &[F],
        tally: &mut [F],
    ) -> Result<(), Denial>
        ensures answer { result ≡ contribute_answer F.points.largest (round_facts self.old) id (length numbers.now) (length table.now) (length tally.old) }
        ensures round { round_facts self.new ≡ contribute_round result (round_facts self.old) id }
        ensures tally { tally.new ≡ contribute_tally F.ops F.points.at result (round_facts self.old) id numbers.now table.now tally.old }
    {
        let holders = self.accepts(id, numbers.len(), table.len(), tally.len())?;
        self.gather(&holders, id, numbers, table, tally);
        self.contributed = self.contributed.insert(id);
        Ok(())
    }
}
