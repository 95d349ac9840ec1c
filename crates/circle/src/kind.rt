//! The kinds of round: who contributes, the circle that a round leads to, and what each kind asks of the circle that it begins
//! with.

ghost use Rattle.std.specs.Prelude.{◌≡◌, ◌≤◌};
ghost use Rattle.circle.specs.Kind.{contributors, roll_after, threshold_after, epoch_after, ids_known, threshold_fits, on_roll, newcomer_new, helpers_enough, enough_stay, epoch_left};

use crate::ids::IdSet;

// Helpers are a number, whose bits are those of an `IdSet`: the checker does not copy an enum that holds one where it is passed by
// value twice.
#[derive(Clone, Copy, Debug, PartialEq, Eq)]
pub enum Kind {
    /// Renews every share.
    Refresh,
    /// Renews every share but the leaver's, who goes.
    Dismissal { leaver: u8 },
    /// Gives everyone a share of the same key under another threshold, from the shares of the helpers.
    Change { threshold: u16, helpers: u32 },
    /// Gives a newcomer a share, from the shares of the helpers.
    Admission { newcomer: u8, helpers: u32 },
}

// A match for each question and not for each kind, since the tests of a beginning have one order for all kinds.
impl Kind {
    // Who contributes, of those on the roll.
    pub(crate) fn contributors(&self, roll: IdSet) -> IdSet
        ensures { result ≡ contributors self.now roll }
    {
        match *self {
            Kind::Refresh => roll,
            Kind::Dismissal { leaver } => roll.remove(leaver),
            Kind::Change { helpers, .. } | Kind::Admission { helpers, .. } => IdSet::from(helpers),
        }
    }

    // The roll that the round leads to.
    pub(crate) fn roll_after(&self, roll: IdSet) -> IdSet
        ensures { result ≡ roll_after self.now roll }
    {
        match *self {
            Kind::Refresh | Kind::Change { .. } => roll,
            Kind::Dismissal { leaver } => roll.remove(leaver),
            Kind::Admission { newcomer, .. } => roll.insert(newcomer),
        }
    }

    // The threshold that the round leads to.
    pub(crate) fn threshold_after(&self, old: u16) -> u16
        ensures { result ≡ threshold_after self.now old }
    {
        match *self {
            Kind::Change { threshold, .. } => threshold,
            Kind::Refresh | Kind::Dismissal { .. } | Kind::Admission { .. } => old,
        }
    }

    // The epoch that the round leads to.
    pub(crate) fn epoch_after(&self, epoch: u16) -> u16
        requires { epoch ≤ 9999 }
        ensures { result ≡ epoch_after self.now epoch }
    {
        match *self {
            Kind::Refresh | Kind::Dismissal { .. } | Kind::Change { .. } => epoch + 1,
            Kind::Admission { .. } => epoch,
        }
    }

    // Whether every id that is named has a point in a field of this largest id.
    pub(crate) fn ids_known(&self, largest: u8) -> bool
        ensures { result ≡ ids_known self.now largest }
    {
        match *self {
            Kind::Refresh => true,
            Kind::Dismissal { leaver } => (1..=largest).contains(&leaver),
            Kind::Change { helpers, .. } => IdSet::from(helpers).all_within(largest),
            Kind::Admission { newcomer, helpers } => {
                (1..=largest).contains(&newcomer) && IdSet::from(helpers).all_within(largest)
            }
        }
    }

    // Whether a new threshold is from 2 to the size of the roll.
    pub(crate) fn threshold_fits(&self, roll: IdSet) -> bool
        ensures { result ≡ threshold_fits self.now roll }
    {
        match *self {
            Kind::Change { threshold, .. } => 2 <= threshold && threshold as u32 <= roll.size(),
            Kind::Refresh | Kind::Dismissal { .. } | Kind::Admission { .. } => true,
        }
    }

    // Whether the leaver, or every helper, is on the roll.
    pub(crate) fn on_roll(&self, roll: IdSet) -> bool
        ensures { result ≡ on_roll self.now roll }
    {
        match *self {
            Kind::Refresh => true,
            Kind::Dismissal { leaver } => roll.contains(leaver),
            Kind::Change { helpers, .. } | Kind::Admission { helpers, .. } => {
                IdSet::from(helpers).is_subset(roll)
            }
        }
    }

    // Whether the newcomer is not on the roll yet.
    pub(crate) fn newcomer_new(&self, roll: IdSet) -> bool
        ensures { result ≡ newcomer_new self.now roll }
    {
        match *self {
            Kind::Admission { newcomer, .. } => !roll.contains(newcomer),
            Kind::Refresh | Kind::Dismissal { .. } | Kind::Change { .. } => true,
        }
    }

    // Whether there are as many helpers as the threshold, for a change at least.
    pub(crate) fn helpers_enough(&self, old: u16) -> bool
        ensures { result ≡ helpers_enough self.now old }
    {
        match *self {
            Kind::Change { helpers, .. } => old as u32 <= IdSet::from(helpers).size(),
            Kind::Admission { helpers, .. } => IdSet::from(helpers).size() == old as u32,
            Kind::Refresh | Kind::Dismissal { .. } => true,
        }
    }

    // Whether a dismissal leaves as many holders as the threshold.
    pub(crate) fn enough_stay(&self, roll: IdSet, old: u16) -> bool
        ensures { result ≡ enough_stay self.now roll old }
    {
        match *self {
            Kind::Dismissal { leaver } => old as u32 <= roll.remove(leaver).size(),
            Kind::Refresh | Kind::Change { .. } | Kind::Admission { .. } => true,
        }
    }

    // Whether there is an epoch for the round to lead to: the last is 9,999.
    pub(crate) fn epoch_left(&self, epoch: u16) -> bool
        ensures { result ≡ epoch_left self.now epoch }
    {
        match *self {
            Kind::Refresh | Kind::Dismissal { .. } | Kind::Change { .. } => epoch < 9999,
            Kind::Admission { .. } => true,
        }
    }
}
