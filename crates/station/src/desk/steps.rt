//! The steps at the desk of a field that is named. `heap` goes down to all that allocates, as in the library.

ghost use Rattle.std.specs.Prelude.{◌≡◌, ◌+◌, ◌*◌, ◌≤◌, ◌∷◌, ◌++◌, min, true, map, length, take, drop, replicate, IfOk, OnOk, vec_len};
ghost use Rattle.circle.specs.Ids.{inserted};
ghost use Rattle.circle.specs.Open.{faces, open_answer};
ghost use Rattle.circle.specs.Card.{show_answer, shares_of};
ghost use Rattle.circle.specs.State.{facts};
ghost use Rattle.circle.specs.Begin.{begun};
ghost use Rattle.circle.specs.Finish.{ended};
ghost use Rattle.circle.specs.Round.{round_facts};
ghost use Rattle.station.specs.Desk.{settled, running, none, kept, settled_kept, running_kept, items_of, circle_standing, kept_after, answer_of, standing, done_with, set_of, element_of, elements, numbers, deal_move, begin_move, contribute_move, finish_move, abandon_move, show_said, open_said, face_of, key_of, blank};
ghost use Rattle.station.specs.DeskParts.{settled_of, places_of, ended_kept, ended_answer, BegunIn, ContributedIn, FinishedIn, AbandonedIn};
ghost use Rattle.station.specs.Refusal.{IfAnswered, IfLacking};
ghost use Rattle.script.specs.Grammar.{sections, value, values};
ghost use Rattle.script.specs.Steps.{cards, open_stands, stated};

use super::{Desk, Memory, Running, Settled};
use crate::refusal::{Failure, Refusal};
use circle::card::Card;
use circle::card::show::show;
use circle::deal::deal;
use circle::denial::Denial;
use circle::ids::IdSet;
use circle::kind::Kind;
use circle::open::open;
use circle::round::begin::begin;
use circle::round::{Receipt, Round};
use circle::state::Circle;
use fields::field::Field;
use script::grammar::Token;
use script::steps::next_card;
use std::alloc::{AllocError, Global};
use std::mem::replace;

// The element that a number names. Zero where it names none, so that it is total: the grammar has refused such a line.
fn element_of<F: Field>(number: u16) -> F
    ensures { result ≡ element_of F.ops F.finite number }
{
    F::element(u32::from(number)).unwrap_or(F::zero())
}

// The elements that tokens name.
fn elements_of<F: Field>(heap: Global, tokens: &[Token]) -> Result<Vec<F>, AllocError>
    ensures { IfOk result (λ v. v.items ≡ elements F.ops F.finite (values tokens.now)) }
{
    tokens
        .iter()
        .map(|token| token.value())
        .map(|number| element_of(number)) // the check does not cover the function's bare name here
        .collect(heap)
}

// Writes the elements that tokens name.
fn write_elements<F: Field>(tokens: &[Token], xs: &mut [F])
    requires { length xs.old ≡ length tokens.now }
    ensures { xs.new ≡ elements F.ops F.finite (values tokens.now) }
{
    for (i, token) in tokens.iter().enumerate() {
        xs[i] = element_of(token.value());
    }
}

// So many zeros.
fn zeros<F: Field>(heap: Global, n: usize) -> Result<Vec<F>, AllocError>
    ensures items { IfOk result (λ v. v.items ≡ replicate n F.ops.zero) }
    ensures long { IfOk result (λ v. vec_len v ≡ n) }
{
    let mut all = Vec::new(heap);
    all.resize(n, F::zero())?;
    Ok(all)
}

// The set of the ids that tokens list.
pub(crate) fn set_of(tokens: &[Token]) -> IdSet
    ensures { result ≡ set_of (values tokens.now) }
{
    tokens
        .iter()
        .fold(IdSet::empty(), |set, token| with_id(set, token.value()))
}

// The set with an id.
fn with_id(set: IdSet, id: u16) -> IdSet
    ensures { result ≡ inserted set id }
{
    match u8::try_from(id) {
        Ok(id) => set.insert(id),
        Err(_) => set,
    }
}

// The numbers of elements.
fn numbers_of<F: Field>(heap: Global, xs: &[F]) -> Result<Vec<u32>, AllocError>
    ensures { IfOk result (λ v. v.items ≡ numbers F.ops F.finite xs.now) }
{
    xs.iter().map(|x| x.number()).collect(heap)
}

// The epoch, the threshold and how many holders there are.
fn standing_of<F: Field>(heap: Global, circle: &Circle<F>) -> Result<Vec<u32>, AllocError>
    ensures { IfOk result (λ v. v.items ≡ circle_standing (facts circle.now)) }
{
    let epoch = u32::from(circle.epoch());
    let threshold = u32::from(circle.threshold());
    Ok(vec![in heap; epoch, threshold, circle.roll().size()]?)
}

// Puts the numbers of elements after those that are there.
fn add_numbers<F: Field>(all: &mut Vec<u32>, xs: &[F]) -> Result<(), AllocError>
    ensures { OnOk result (all.new.items ≡ all.old.items ++ numbers F.ops F.finite xs.now) }
{
    all.extend(xs.iter().map(|x| x.number()))
}

// The id, the epoch and the shares of a card.
fn card_numbers<F: Field>(heap: Global, card: &Card<'_, F>) -> Result<Vec<u32>, AllocError>
    requires { length card.now.shares.now ≤ 32 }
    ensures { IfOk result (λ v. v.items ≡ card.now.id ∷ card.now.epoch ∷ numbers F.ops F.finite card.now.shares.now) }
{
    let mut numbers = Vec::with_capacity(heap, 2 + card.shares.len())?;
    numbers.push(u32::from(card.id))?;
    numbers.push(u32::from(card.epoch))?;
    add_numbers(&mut numbers, card.shares)?;
    Ok(numbers)
}

// The elements of a card's shares, and those after them: before the shares stand a slash, an id and an epoch.
fn split_shares<F: Field>(xs: &[F], n: usize) -> (&[F], &[F])
    requires { 3 + n ≤ length xs.now }
    ensures shares { result.0.now ≡ take n (drop 3 xs.now) }
    ensures left { result.1.now ≡ drop n (drop 3 xs.now) }
{
    xs[3..].split_at(n)
}

// The cards that tokens state, each after its slash: `xs` are the tokens' elements.
fn cards_of<'a, F: Field>(
    heap: Global,
    tokens: &[Token],
    xs: &'a [F],
) -> Result<Vec<Card<'a, F>>, AllocError>
    requires stand { open_stands F.finite.size (sections tokens.now) ≡ true }
    requires named { xs.now ≡ elements F.ops F.finite (values tokens.now) }
    ensures { IfOk result (λ v. faces v.items ≡ map (face_of F.ops F.finite F.points) (map stated (cards tokens.now))) }
{
    let mut all = Vec::new(heap);
    let mut left = tokens;
    let mut elements = xs;
    while let Some((card, rest)) = next_card(left) {
        let (shares, others) = split_shares(elements, card.shares.len());
        all.push(Card {
            id: card.id,
            epoch: card.epoch,
            shares,
        })?;
        left = rest;
        elements = others;
    }
    Ok(all)
}

// The desk after a round was to end, with its answer.
fn after_end<F: Field>(
    answer: Result<Circle<F>, (Round<F>, Receipt, Denial)>,
    memory: Memory<F>,
) -> (Desk<F>, Result<(), Refusal>)
    requires { vec_len memory.table ≡ 32 * places_of (ended answer) }
    ensures kept { kept result.0 ≡ ended_kept (ended answer) memory.table.items memory.tally.items }
    ensures answer { result.1 ≡ ended_answer (ended answer) }
{
    match answer {
        Ok(circle) => (Desk::Settled(Settled { circle, memory }), Ok(())),
        Err((round, receipt, denial)) => (
            Desk::Running(Running {
                round,
                receipt,
                memory,
            }),
            Err(denial.into()),
        ),
    }
}

impl<F: Field> Memory<F> {
    // Memory for so many places.
    fn new(heap: Global, places: u16) -> Result<Memory<F>, AllocError>
        ensures table { IfOk result (λ m. m.table.items ≡ blank F.ops F.finite F.points places) }
        ensures tally { IfOk result (λ m. m.tally.items ≡ blank F.ops F.finite F.points places) }
        ensures long { IfOk result (λ m. vec_len m.table ≡ 32 * min places 32) }
    {
        let len = 32 * usize::from(places.min(32));
        let table = zeros(heap, len)?;
        let tally = zeros(heap, len)?;
        Ok(Memory { table, tally })
    }

    // Begins a round.
    fn begin(
        &mut self,
        circle: Circle<F>,
        kind: Kind,
    ) -> Result<(Round<F>, Receipt), (Circle<F>, Denial)>
        ensures done { BegunIn F.ops F.finite F.points (facts circle) kind self.old.tally.items (begun result) self.new.tally.items }
        ensures table { self.new.table ≡ self.old.table }
    {
        begin(circle, kind, self.tally.as_mut_slice())
    }

    // Finishes a round.
    fn finish(
        &mut self,
        round: Round<F>,
        receipt: Receipt,
    ) -> Result<Circle<F>, (Round<F>, Receipt, Denial)>
        ensures done { FinishedIn F.ops F.finite F.points (round_facts round) self.old.table.items self.old.tally.items (ended result) self.new.table.items self.new.tally.items }
        ensures long { vec_len self.new.table ≡ vec_len self.old.table }
    {
        round.finish(
            receipt,
            self.table.as_mut_slice(),
            self.tally.as_mut_slice(),
        )
    }

    // Abandons a round.
    fn abandon(
        &mut self,
        round: Round<F>,
        receipt: Receipt,
    ) -> Result<Circle<F>, (Round<F>, Receipt, Denial)>
        ensures done { AbandonedIn F.ops F.finite F.points (round_facts round) self.old.tally.items (ended result) self.new.tally.items }
        ensures table { self.new.table ≡ self.old.table }
    {
        round.abandon(receipt, self.tally.as_mut_slice())
    }
}

impl<F: Field> Settled<F> {
    // Deals a key with the elements that tokens name.
    fn deal(
        heap: Global,
        threshold: u16,
        places: u16,
        ids: &[Token],
        key: &[Token],
        numbers: &[Token],
    ) -> Result<Settled<F>, Failure>
        ensures { IfAnswered result (λ a. settled_of a ≡ deal_move F.ops F.finite F.points none threshold places (values ids.now) (values key.now) (values numbers.now)) }
    {
        let key: Vec<F> = elements_of(heap, key)?;
        let numbers: Vec<F> = elements_of(heap, numbers)?;
        let mut memory = Memory::new(heap, places)?;
        let circle = deal(
            set_of(ids),
            threshold,
            places,
            key.as_slice(),
            numbers.as_slice(),
            memory.table.as_mut_slice(),
        )?;
        Ok(Settled { circle, memory })
    }

    // Begins a round.
    fn begin(self, kind: Kind) -> (Desk<F>, Result<(), Refusal>)
        ensures kept { kept result.0 ≡ kept_after (begin_move F.ops F.finite F.points (settled (facts self.circle)) kind (settled_kept self)) (settled_kept self) }
        ensures answer { result.1 ≡ answer_of (begin_move F.ops F.finite F.points (settled (facts self.circle)) kind (settled_kept self)) }
    {
        let Settled { circle, mut memory } = self;
        match memory.begin(circle, kind) {
            Ok((round, receipt)) => (
                Desk::Running(Running {
                    round,
                    receipt,
                    memory,
                }),
                Ok(()),
            ),
            Err((circle, denial)) => (
                Desk::Settled(Settled { circle, memory }),
                Err(denial.into()),
            ),
        }
    }

    // Shows a holder's card.
    fn show(&self, heap: Global, id: u8) -> Result<Vec<u32>, Failure>
        ensures { IfAnswered result (λ a. items_of a ≡ show_said F.ops F.finite F.points (settled (facts self.now.circle)) self.now.memory.table.items id) }
    {
        let mut row = [F::zero(); 32];
        let shares = &mut row[..usize::from(self.circle.places())];
        show(&self.circle, id, self.memory.table.as_slice(), shares)?;
        let card = Card {
            id,
            epoch: self.circle.epoch(),
            shares,
        };
        Ok(card_numbers(heap, &card)?)
    }

    // The numbers of the key that cards open.
    fn open_cards(&self, heap: Global, cards: &[Card<'_, F>]) -> Result<Vec<u32>, Failure>
        ensures { IfAnswered result (λ a. items_of a ≡ done_with (numbers F.ops F.finite (key_of F.ops F.finite F.points (facts self.now.circle) (faces cards.now))) (open_answer F.ops F.points.at F.equality.same F.points.largest (facts self.now.circle) (faces cards.now) self.now.circle.places)) }
    {
        let mut row = [F::zero(); 32];
        let key = &mut row[..usize::from(self.circle.places())];
        open(&self.circle, cards, key)?;
        Ok(numbers_of(heap, key)?)
    }

    // Opens the key from the cards that tokens state.
    fn open(&self, heap: Global, tokens: &[Token]) -> Result<Vec<u32>, Failure>
        requires { open_stands F.finite.size (sections tokens.now) ≡ true }
        ensures { IfAnswered result (λ a. items_of a ≡ open_said F.ops F.finite F.points F.equality.same (settled (facts self.now.circle)) (map stated (cards tokens.now))) }
    {
        let xs: Vec<F> = elements_of(heap, tokens)?;
        let cards = cards_of(heap, tokens, xs.as_slice())?;
        self.open_cards(heap, cards.as_slice())
    }
}

impl<F: Field> Running<F> {
    // Takes a contribution.
    fn contribute(&mut self, id: u8, numbers: &[F]) -> Result<(), Denial>
        ensures done { ContributedIn F.ops F.finite F.points (round_facts self.old.round) id numbers.now self.old.memory.table.items self.old.memory.tally.items result (round_facts self.new.round) self.new.memory.tally.items }
        ensures table { self.new.memory.table ≡ self.old.memory.table }
    {
        self.round.contribute(
            id,
            numbers,
            self.memory.table.as_slice(),
            self.memory.tally.as_mut_slice(),
        )
    }

    // Finishes the round.
    fn finish(self) -> (Desk<F>, Result<(), Refusal>)
        ensures kept { kept result.0 ≡ kept_after (finish_move F.ops F.finite F.points (running (round_facts self.round)) (running_kept self)) (running_kept self) }
        ensures answer { result.1 ≡ answer_of (finish_move F.ops F.finite F.points (running (round_facts self.round)) (running_kept self)) }
    {
        let Running {
            round,
            receipt,
            mut memory,
        } = self;
        let answer = memory.finish(round, receipt);
        after_end(answer, memory)
    }

    // Abandons the round.
    fn abandon(self) -> (Desk<F>, Result<(), Refusal>)
        ensures kept { kept result.0 ≡ kept_after (abandon_move F.ops F.finite F.points (running (round_facts self.round)) (running_kept self)) (running_kept self) }
        ensures answer { result.1 ≡ answer_of (abandon_move F.ops F.finite F.points (running (round_facts self.round)) (running_kept self)) }
    {
        let Running {
            round,
            receipt,
            mut memory,
        } = self;
        let answer = memory.abandon(round, receipt);
        after_end(answer, memory)
    }
}

impl<F: Field> Desk<F> {
    // `D`: deals a key, where there is no circle.
    pub(crate) fn deal(
        &mut self,
        heap: Global,
        threshold: u16,
        places: u16,
        ids: &[Token],
        key: &[Token],
        numbers: &[Token],
    ) -> Result<(), Failure>
        ensures kept { IfAnswered result (λ _. kept self.new ≡ kept_after (deal_move F.ops F.finite F.points (kept self.old).holding threshold places (values ids.now) (values key.now) (values numbers.now)) (kept self.old)) }
        ensures answer { IfAnswered result (λ a. a ≡ answer_of (deal_move F.ops F.finite F.points (kept self.old).holding threshold places (values ids.now) (values key.now) (values numbers.now))) }
        ensures lacking { IfLacking result (kept self.new ≡ kept self.old) }
    {
        match self {
            Desk::Empty => {
                let settled = Settled::deal(heap, threshold, places, ids, key, numbers)?;
                *self = Desk::Settled(settled);
                Ok(())
            }
            _ => Err(Refusal::NotAllowed.into()),
        }
    }

    // `R`, `X`, `T` and `A`: begins a round, where there is a circle.
    pub(crate) fn begin(&mut self, kind: Kind) -> Result<(), Refusal>
        ensures kept { kept self.new ≡ kept_after (begin_move F.ops F.finite F.points (kept self.old).holding kind (kept self.old)) (kept self.old) }
        ensures answer { result ≡ answer_of (begin_move F.ops F.finite F.points (kept self.old).holding kind (kept self.old)) }
    {
        match replace(self, Desk::Empty) {
            Desk::Settled(settled) => {
                let (desk, answer) = settled.begin(kind);
                *self = desk;
                answer
            }
            other => {
                *self = other;
                Err(Refusal::NotAllowed)
            }
        }
    }

    // `C`: contributes to the round.
    pub(crate) fn contribute(
        &mut self,
        heap: Global,
        id: u8,
        numbers: &[Token],
    ) -> Result<(), Failure>
        ensures kept { IfAnswered result (λ _. kept self.new ≡ kept_after (contribute_move F.ops F.finite F.points (kept self.old).holding id (values numbers.now) (kept self.old)) (kept self.old)) }
        ensures answer { IfAnswered result (λ a. a ≡ answer_of (contribute_move F.ops F.finite F.points (kept self.old).holding id (values numbers.now) (kept self.old))) }
        ensures lacking { IfLacking result (kept self.new ≡ kept self.old) }
    {
        match self {
            Desk::Running(running) => {
                // So few as a row holds take no memory.
                if numbers.len() <= 32 {
                    let mut row = [F::zero(); 32];
                    let xs = &mut row[..numbers.len()];
                    write_elements(numbers, xs);
                    running.contribute(id, xs)?;
                    return Ok(());
                }
                let xs: Vec<F> = elements_of(heap, numbers)?;
                running.contribute(id, xs.as_slice())?;
                Ok(())
            }
            _ => Err(Refusal::NotAllowed.into()),
        }
    }

    // `F`: finishes the round.
    pub(crate) fn finish(&mut self) -> Result<(), Refusal>
        ensures kept { kept self.new ≡ kept_after (finish_move F.ops F.finite F.points (kept self.old).holding (kept self.old)) (kept self.old) }
        ensures answer { result ≡ answer_of (finish_move F.ops F.finite F.points (kept self.old).holding (kept self.old)) }
    {
        match replace(self, Desk::Empty) {
            Desk::Running(running) => {
                let (desk, answer) = running.finish();
                *self = desk;
                answer
            }
            other => {
                *self = other;
                Err(Refusal::NotAllowed)
            }
        }
    }

    // `Q`: abandons the round.
    pub(crate) fn abandon(&mut self) -> Result<(), Refusal>
        ensures kept { kept self.new ≡ kept_after (abandon_move F.ops F.finite F.points (kept self.old).holding (kept self.old)) (kept self.old) }
        ensures answer { result ≡ answer_of (abandon_move F.ops F.finite F.points (kept self.old).holding (kept self.old)) }
    {
        match replace(self, Desk::Empty) {
            Desk::Running(running) => {
                let (desk, answer) = running.abandon();
                *self = desk;
                answer
            }
            other => {
                *self = other;
                Err(Refusal::NotAllowed)
            }
        }
    }

    // How the circle stands: the epoch, the threshold and how many holders there are.
    pub(crate) fn standing(&self, heap: Global) -> Result<Vec<u32>, AllocError>
        ensures { IfOk result (λ v. v.items ≡ standing (kept self.now).holding) }
    {
        match self {
            Desk::Empty => Ok(Vec::new(heap)),
            Desk::Settled(settled) => standing_of(heap, &settled.circle),
            Desk::Running(running) => standing_of(heap, running.round.circle()),
        }
    }

    // `K`: shows a holder's card.
    pub(crate) fn show(&self, heap: Global, id: u8) -> Result<Vec<u32>, Failure>
        ensures { IfAnswered result (λ a. items_of a ≡ show_said F.ops F.finite F.points (kept self.now).holding (kept self.now).table id) }
    {
        match self {
            Desk::Settled(settled) => settled.show(heap, id),
            _ => Err(Refusal::NotAllowed.into()),
        }
    }

    // `O`: opens the key from the cards that tokens state.
    pub(crate) fn open(&self, heap: Global, tokens: &[Token]) -> Result<Vec<u32>, Failure>
        requires { open_stands F.finite.size (sections tokens.now) ≡ true }
        ensures { IfAnswered result (λ a. items_of a ≡ open_said F.ops F.finite F.points F.equality.same (kept self.now).holding (map stated (cards tokens.now))) }
    {
        match self {
            Desk::Settled(settled) => settled.open(heap, tokens),
            _ => Err(Refusal::NotAllowed.into()),
        }
    }
}
