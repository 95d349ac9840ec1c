//! The end of a round.

ghost use Rattle.std.specs.Prelude.{◌≡◌, ◌+◌, ◌*◌, ◌≤◌, map, length, Ok, Err, MatchResult};
ghost use Rattle.circle.specs.Finish.{ended, share_after, finish_answer, finish_table, abandon_answer, end_tally};
ghost use Rattle.circle.specs.Ids.{members};
ghost use Rattle.circle.specs.Polynomial.{sum};
ghost use Rattle.circle.specs.Round.{round_facts, after};
ghost use Rattle.circle.specs.RoundLaws.{Rounds};
ghost use Rattle.circle.specs.Table.{entry, only};

use crate::denial::Denial;
use crate::holders::Holders;
use crate::ids::IdSet;
use crate::kind::Kind;
use crate::round::{Receipt, Round};
use crate::state::Circle;
use crate::table::{clear, entry_of, sum, update};
use fields::field::Field;

// The sum of what the tally holds for the ids of the set at the place p.
fn total<F: Field>(set: IdSet, tally: &[F], p: usize) -> F
    requires { 32 * p + 32 ≤ length tally.now }
    ensures { result ≡ sum F.ops (map (entry F.ops.zero tally.now p) (members set)) }
{
    sum(set.members().map(|id| entry_of(tally, p, id)))
}

// What a whole round does to the polynomials of the shares, shown once.
fn rounds_shown<F: Field>()
    ensures { Rounds F.ops F.points }
{}

impl<F: Field> Round<F> {
    // Tests what is handed over, in the order of the denials, and gives those who hold a share then.
    fn ready(&self, table: usize, tally: usize) -> Result<Holders<F>, Denial>
        ensures { MatchResult result
            (λ holders. (finish_answer F.points.largest (round_facts self.now) table tally ≡ Ok (after (round_facts self.now))) × (holders.set ≡ (after (round_facts self.now)).roll))
            (λ denial. finish_answer F.points.largest (round_facts self.now) table tally ≡ Err (round_facts self.now, denial)) }
    {
        let next = self.after();
        let holders = Holders::of(next.roll).ok_or(Denial::NoSuchId)?;
        let entries = 32 * next.places as usize;
        if table != entries || tally != entries {
            return Err(Denial::Length);
        }
        if !self.contributors().is_subset(self.contributed) {
            return Err(Denial::ContributionMissing);
        }
        Ok(holders)
    }

    // The share of the id h at the place p, where it had `share`: zero off the holders.
    fn new_share(&self, holders: &Holders<F>, share: F, tally: &[F], p: usize, h: u8) -> F
        requires { 32 * p + 32 ≤ length tally.now }
        ensures { result ≡ only F.ops holders.now.set h (share_after F.ops F.points.at self.now.kind (λ _. share) (entry F.ops.zero tally.now p) h) }
    {
        let Some(x) = holders.point(h) else {
            return F::zero();
        };
        match self.kind {
            Kind::Refresh | Kind::Dismissal { .. } => share + x * entry_of(tally, p, h),
            Kind::Change { .. } => entry_of(tally, p, h),
            Kind::Admission { newcomer, helpers } if h == newcomer => {
                total(IdSet::from(helpers), tally, p)
            }
            Kind::Admission { .. } => share,
        }
    }

    /// Ends the round, once everyone who contributes has: writes the shares that it leads to, and gives the circle.
    pub fn finish(
        self,
        receipt: Receipt,
        table: &mut [F],
        tally: &mut [F],
    ) -> Result<Circle<F>, (Round<F>, Receipt, Denial)>
        ensures answer { ended result ≡ finish_answer F.points.largest (round_facts self) (length table.old) (length tally.old) }
        ensures table { table.new ≡ finish_table F.ops F.points.at (ended result) (round_facts self) table.old tally.old }
        ensures tally { tally.new ≡ end_tally F.ops (ended result) tally.old }
        ensures rounds { Rounds F.ops F.points }
    {
        rounds_shown::<F>();
        match self.ready(table.len(), tally.len()) {
            Ok(holders) => {
                update(
                    table,
                    |p, h, share| self.new_share(&holders, share, tally, p, h),
                );
                clear(tally);
                let next = self.after();
                drop(self.close(receipt));
                Ok(next)
            }
            Err(denial) => Err((self, receipt, denial)),
        }
    }

    /// Gives the circle back as it was before the round.
    pub fn abandon(
        self,
        receipt: Receipt,
        tally: &mut [F],
    ) -> Result<Circle<F>, (Round<F>, Receipt, Denial)>
        ensures answer { ended result ≡ abandon_answer (round_facts self) (length tally.old) }
        ensures tally { tally.new ≡ end_tally F.ops (ended result) tally.old }
    {
        if tally.len() != 32 * self.circle.places as usize {
            return Err((self, receipt, Denial::Length));
        }
        clear(tally);
        Ok(self.close(receipt))
    }
}
