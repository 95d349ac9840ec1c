//! What an open round is. The structs stand alone, since files of specs name them.

ghost use Rattle.std.specs.Prelude.{◌≡◌, ◌≤◌, true, count_ones};
ghost use Rattle.circle.specs.Kind.{contributors, roll_after, threshold_after, epoch_after, newcomer_is_id};
ghost use Rattle.circle.specs.Ids.{subset};

use crate::ids::IdSet;
use crate::kind::Kind;
use crate::state::Circle;
use std::marker::PhantomData;

pub mod begin;
pub mod contribute;
pub mod finish;

/// A round that is open: the circle that abandoning gives back, what the round is for, and who has contributed. The tally is
/// memory that the caller lends, where contributions are gathered; it is laid out as the table.
pub struct Round<F> {
    pub(crate) circle: Circle<F>,
    pub(crate) kind: Kind,
    pub(crate) contributed: IdSet,
    ghost among: { subset (contributors kind circle.roll) (roll_after kind circle.roll) ≡ true },
    ghost named: { newcomer_is_id kind ≡ true },
    ghost low: { 2 ≤ threshold_after kind circle.threshold },
    ghost high: { threshold_after kind circle.threshold ≤ count_ones (roll_after kind circle.roll) },
    ghost last: { epoch_after kind circle.epoch ≤ 9999 },
}

impl<F> Round<F> {
    ghost use Rattle.circle.specs.Round.{round_facts, after};
    ghost use Rattle.circle.specs.State.{facts};

    /// The circle that abandoning gives back.
    pub fn circle(&self) -> &Circle<F>
        ensures { result.now ≡ self.now.circle }
    {
        &self.circle
    }

    /// What the round is for.
    pub fn kind(&self) -> Kind
        ensures { result ≡ self.now.kind }
    {
        self.kind
    }

    /// The set of those who have contributed.
    pub fn contributed(&self) -> IdSet
        ensures { result ≡ self.now.contributed }
    {
        self.contributed
    }

    // The circle that finishing gives.
    fn after(&self) -> Circle<F>
        ensures { facts result ≡ after (round_facts self.now) }
    {
        Circle {
            roll: self.kind.roll_after(self.circle.roll),
            threshold: self.kind.threshold_after(self.circle.threshold),
            epoch: self.kind.epoch_after(self.circle.epoch),
            places: self.circle.places,
            field: PhantomData,
        }
    }

    // Takes the round and its receipt apart, and gives the circle back as it was before the round.
    fn close(self, receipt: Receipt) -> Circle<F>
        ensures { result ≡ self.circle }
    {
        let Receipt { sealed: _ } = receipt;
        let Round {
            circle,
            kind: _,
            contributed: _,
        } = self;
        circle
    }
}

/// What a beginning gives beside its round, and only finishing or abandoning takes. It cannot be made by hand, copied or let go.
pub struct Receipt {
    pub(crate) sealed: (),
}
