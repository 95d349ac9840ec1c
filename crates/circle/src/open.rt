//! Opening a key from cards: the first as many as the threshold give it, and the others must agree.

ghost use Rattle.std.specs.Prelude.{◌≡◌, ◌≤◌, true, length};
ghost use Rattle.std.specs.List.{list_all};
ghost use Rattle.circle.specs.Open.{face, faces, id_known, as_long, on_roll, of_epoch, other_id, ids_differ, lies, open_answer, open_key};
ghost use Rattle.circle.specs.State.{facts};

use crate::basis::Basis;
use crate::card::Card;
use crate::denial::Denial;
use crate::ids::IdSet;
use crate::lagrange::has_point;
use crate::state::Circle;
use fields::field::Field;

// Each test is a function of its own, since the search for the answers of `open` gives up where the chains stand in it.

// Whether the id of each card has a point.
fn all_known<F: Field>(cards: &[Card<'_, F>]) -> bool
    ensures { result ≡ list_all (λ c. id_known F.points.largest (face c)) cards.now }
{
    cards.iter().all(|card| has_point::<F>(card.id))
}

// Whether each card has a share for each place.
fn all_as_long<F: Field>(cards: &[Card<'_, F>], places: usize) -> bool
    ensures { result ≡ list_all (λ c. as_long places (face c)) cards.now }
{
    cards.iter().all(|card| card.shares.len() == places)
}

// Whether the id of each card is on the roll.
fn all_on_roll<F: Field>(cards: &[Card<'_, F>], roll: IdSet) -> bool
    ensures { result ≡ list_all (λ c. on_roll roll (face c)) cards.now }
{
    cards.iter().all(|card| roll.contains(card.id))
}

// Whether each card is of the epoch.
fn all_of_epoch<F: Field>(cards: &[Card<'_, F>], epoch: u16) -> bool
    ensures { result ≡ list_all (λ c. of_epoch epoch (face c)) cards.now }
{
    cards.iter().all(|card| card.epoch == epoch)
}

// Whether each card has another id.
fn all_other<F: Field>(cards: &[Card<'_, F>], id: u8) -> bool
    ensures { result ≡ list_all (λ c. other_id id (face c)) cards.now }
{
    cards.iter().all(|card| card.id != id)
}

// Whether no id stands on two cards.
#[tactic(auto, using(crate::proofs::open::Cards::card_steps))]
fn all_differ<F: Field>(cards: &[Card<'_, F>]) -> bool
    ensures { result ≡ ids_differ (faces cards.now) }
{
    for (i, card) in cards.iter().enumerate() {
        if !all_other(&cards[i + 1..], card.id) {
            return false;
        }
    }
    true
}

// Whether each card lies on the polynomials of the basis.
fn all_agree<F: Field>(cards: &[Card<'_, F>], basis: &Basis<'_, F>) -> bool
    requires own { list_all (id_known F.points.largest) (faces cards.now) ≡ true }
    requires long { list_all (as_long basis.now.places) (faces cards.now) ≡ true }
    ensures { result ≡ list_all (lies F.ops F.points.at F.equality.same basis.now.places (faces basis.now.cards.now)) (faces cards.now) }
{
    cards.iter().all(|card| basis.agrees(card))
}

// How many cards open the key: no more than there are ids.
fn needed<F>(circle: &Circle<F>) -> usize
    ensures is { result ≡ circle.now.threshold }
    ensures few { result ≤ 32 }
{
    // Read for the proof: a roll has at most 32 ids, and the threshold is no larger than the roll.
    let _roll = circle.roll();
    circle.threshold as usize
}

/// Opens the key from cards.
#[tactic(auto, using(crate::proofs::open::Cards::card_steps))]
pub fn open<F: Field>(
    circle: &Circle<F>,
    cards: &[Card<'_, F>],
    key: &mut [F],
) -> Result<(), Denial>
    ensures answer { result ≡ open_answer F.ops F.points.at F.equality.same F.points.largest (facts circle.now) (faces cards.now) (length key.old) }
    ensures key { key.new ≡ open_key F.ops F.points.at result (facts circle.now) (faces cards.now) key.old }
{
    let places = circle.places as usize;
    let threshold = needed(circle);
    if !all_known(cards) {
        return Err(Denial::NoSuchId);
    }
    if !all_as_long(cards, places) || key.len() != places {
        return Err(Denial::Length);
    }
    if !all_on_roll(cards, circle.roll) {
        return Err(Denial::NotOnRoll);
    }
    if cards.len() < threshold {
        return Err(Denial::TooFewCards);
    }
    if !all_differ(cards) {
        return Err(Denial::IdTwice);
    }
    if !all_of_epoch(cards, circle.epoch) {
        return Err(Denial::OtherEpoch);
    }
    let (first, later) = cards.split_at(threshold);
    let basis = Basis::new(first, places);
    if !all_agree(later, &basis) {
        return Err(Denial::OffPolynomial);
    }
    basis.interpolate(F::zero(), key);
    Ok(())
}
