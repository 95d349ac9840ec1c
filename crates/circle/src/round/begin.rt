//! Beginning a round: a refresh, a dismissal, a change of the threshold, or an admission.

ghost use Rattle.std.specs.Prelude.{◌≡◌, length, Ok, Err, MatchResult};
ghost use Rattle.circle.specs.declared.kind.Kind.{Kind};
ghost use Rattle.circle.specs.Begin.{begun, begin_answer, begin_tally};
ghost use Rattle.circle.specs.State.{facts};

use crate::denial::Denial;
use crate::ids::IdSet;
use crate::kind::Kind;
use crate::round::{Receipt, Round};
use crate::state::Circle;
use crate::table::clear;
use fields::field::Field;

// Tests what is handed over, in the order of the denials.
fn tested<F: Field>(circle: &Circle<F>, kind: &Kind, tally: usize) -> Result<(), Denial>
    ensures { MatchResult result
        (λ _. begin_answer F.points.largest (facts circle.now) kind.now tally ≡ Ok (record { circle = facts circle.now; kind = kind.now; contributed = 0 }))
        (λ denial. begin_answer F.points.largest (facts circle.now) kind.now tally ≡ Err (facts circle.now, denial)) }
{
    if !kind.ids_known(F::max_id()) {
        return Err(Denial::NoSuchId);
    }
    if !kind.threshold_fits(circle.roll) {
        return Err(Denial::Threshold);
    }
    if tally != 32 * circle.places as usize {
        return Err(Denial::Length);
    }
    if !kind.on_roll(circle.roll) {
        return Err(Denial::NotOnRoll);
    }
    if !kind.newcomer_new(circle.roll) {
        return Err(Denial::AlreadyOnRoll);
    }
    if !kind.helpers_enough(circle.threshold) {
        return Err(Denial::WrongHelpers);
    }
    if !kind.enough_stay(circle.roll, circle.threshold) {
        return Err(Denial::TooFewLeft);
    }
    if !kind.epoch_left(circle.epoch) {
        return Err(Denial::LastEpoch);
    }
    Ok(())
}

/// Begins a round of the kind.
pub fn begin<F: Field>(
    circle: Circle<F>,
    kind: Kind,
    tally: &mut [F],
) -> Result<(Round<F>, Receipt), (Circle<F>, Denial)>
    ensures answer { begun result ≡ begin_answer F.points.largest (facts circle) kind (length tally.old) }
    ensures tally { tally.new ≡ begin_tally F.ops (begun result) tally.old }
{
    match tested(&circle, &kind, tally.len()) {
        Ok(()) => {
            clear(tally);
            let round = Round {
                circle,
                kind,
                contributed: IdSet::empty(),
            };
            Ok((round, Receipt { sealed: () }))
        }
        Err(denial) => Err((circle, denial)),
    }
}

impl<F: Field> Circle<F> {
    /// Begins a round that renews every share.
    pub fn refresh(self, tally: &mut [F]) -> Result<(Round<F>, Receipt), (Circle<F>, Denial)>
        ensures answer { begun result ≡ begin_answer F.points.largest (facts self) Kind.Refresh (length tally.old) }
        ensures tally { tally.new ≡ begin_tally F.ops (begun result) tally.old }
    {
        begin(self, Kind::Refresh, tally)
    }

    /// Begins a round in which the id goes, and every other share is renewed.
    pub fn dismiss(
        self,
        id: u8,
        tally: &mut [F],
    ) -> Result<(Round<F>, Receipt), (Circle<F>, Denial)>
        ensures answer { begun result ≡ begin_answer F.points.largest (facts self) (Kind.Dismissal id) (length tally.old) }
        ensures tally { tally.new ≡ begin_tally F.ops (begun result) tally.old }
    {
        begin(self, Kind::Dismissal { leaver: id }, tally)
    }

    /// Begins a round to another threshold, with the shares of the helpers.
    pub fn change(
        self,
        threshold: u16,
        helpers: IdSet,
        tally: &mut [F],
    ) -> Result<(Round<F>, Receipt), (Circle<F>, Denial)>
        ensures answer { begun result ≡ begin_answer F.points.largest (facts self) (Kind.Change threshold helpers) (length tally.old) }
        ensures tally { tally.new ≡ begin_tally F.ops (begun result) tally.old }
    {
        let helpers = u32::from(helpers);
        begin(self, Kind::Change { threshold, helpers }, tally)
    }

    /// Begins a round in which the id gets a share, with the shares of the helpers.
    pub fn admit(
        self,
        id: u8,
        helpers: IdSet,
        tally: &mut [F],
    ) -> Result<(Round<F>, Receipt), (Circle<F>, Denial)>
        ensures answer { begun result ≡ begin_answer F.points.largest (facts self) (Kind.Admission id helpers) (length tally.old) }
        ensures tally { tally.new ≡ begin_tally F.ops (begun result) tally.old }
    {
        begin(
            self,
            Kind::Admission {
                newcomer: id,
                helpers: u32::from(helpers),
            },
            tally,
        )
    }
}
