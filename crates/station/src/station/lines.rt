//! Answering lines.

ghost use Rattle.std.specs.Prelude.{◌≡◌, ◌^◌, ◌<◌, true, Err};
ghost use Rattle.std.specs.Option.{option_map_or};
ghost use Rattle.script.specs.Steps.{form, meaning, step_stands};
ghost use Rattle.station.specs.Desk.{answer_of, items_of, kept};
ghost use Rattle.station.specs.Refusal.{IfAnswered, IfLacking, StaysOrSteps};
ghost use Rattle.station.specs.Station.{state, desks_state, unnamed, fresh, move, desk_said, desk_kept, line_said, line_state, StaysDealing};

use super::{Desks, DesksOf, ScriptOf, Station};
use crate::desk::Desk;
use crate::desk::steps::set_of;
use crate::refusal::{Failure, Refusal};
use circle::kind::Kind;
use fields::field::Field;
use script::grammar::Token;
use script::steps::{FieldName, Step, parse};
use std::alloc::Global;

// Does a step that changes what the desk keeps; showing and opening change nothing, and `step_at` does them itself.
fn perform<F: Field>(heap: Global, desk: &mut Desk<F>, step: Step<'_>) -> Result<(), Failure>
    ensures kept { IfAnswered result (λ _. kept desk.new ≡ desk_kept F.ops F.finite F.points (kept desk.old) (meaning step.entry)) }
    ensures answer { IfAnswered result (λ a. a ≡ answer_of (move F.ops F.finite F.points (kept desk.old) (meaning step.entry))) }
    ensures lacking { IfLacking result (kept desk.new ≡ kept desk.old) }
{
    match step {
        Step::Name(_) => Err(Refusal::NotAllowed.into()),
        Step::Deal {
            threshold,
            places,
            ids,
            key,
            numbers,
        } => desk.deal(heap, threshold, places, ids, key, numbers),
        Step::Refresh => Ok(desk.begin(Kind::Refresh)?),
        Step::Dismiss(id) => Ok(desk.begin(Kind::Dismissal { leaver: id })?),
        Step::Change { threshold, helpers } => {
            let helpers = u32::from(set_of(helpers));
            Ok(desk.begin(Kind::Change { threshold, helpers })?)
        }
        Step::Admit { id, helpers } => {
            let helpers = u32::from(set_of(helpers));
            Ok(desk.begin(Kind::Admission {
                newcomer: id,
                helpers,
            })?)
        }
        Step::Contribute { id, numbers } => desk.contribute(heap, id, numbers),
        Step::Finish => Ok(desk.finish()?),
        Step::Abandon => Ok(desk.abandon()?),
        Step::Show(_) | Step::Open(_) => Ok(()),
    }
}

// Does a step at the desk of a field that is named.
fn step_at<F: Field>(heap: Global, desk: &mut Desk<F>, step: Step<'_>) -> Result<Vec<u32>, Failure>
    requires { step_stands F.finite.size step ≡ true }
    ensures said { IfAnswered result (λ a. items_of a ≡ desk_said F.ops F.finite F.points F.equality.same (kept desk.old) (meaning step.entry)) }
    ensures kept { IfAnswered result (λ _. kept desk.new ≡ desk_kept F.ops F.finite F.points (kept desk.old) (meaning step.entry)) }
    ensures lacking { IfLacking result (StaysOrSteps (kept desk.old) (desk_kept F.ops F.finite F.points (kept desk.old) (meaning step.entry)) (kept desk.new)) }
{
    match step {
        Step::Show(id) => desk.show(heap, id),
        Step::Open(tokens) => desk.open(heap, tokens),
        _ => {
            perform(heap, desk, step)?;
            Ok(desk.standing(heap)?)
        }
    }
}

// Without the rounds no line opens a round: shown once.
fn dealing_shown()
    ensures { StaysDealing }
{}

// How many elements the field has. That a u32 holds it is asked of the field's type, so no value can carry it.
fn size<F: Field>() -> u32
    requires { F.finite.size < 2 ^ 32 }
    ensures { result ≡ F.finite.size }
{
    F::largest_number() + 1
}

// Answers a line at the desk of a field that is named.
fn answer_at<F: Field, const ROUNDS: bool>(
    heap: Global,
    desk: &mut Desk<F>,
    line: &[u8],
    room: &mut Vec<Token>,
) -> Result<Vec<u32>, Failure>
    requires { F.finite.size < 2 ^ 32 }
    ensures said { IfAnswered result (λ a. items_of a ≡ option_map_or (desk_said F.ops F.finite F.points F.equality.same (kept desk.old)) (form ROUNDS F.finite.size line.now) (Err Refusal.NotOfForm)) }
    ensures kept { IfAnswered result (λ _. kept desk.new ≡ option_map_or (desk_kept F.ops F.finite F.points (kept desk.old)) (form ROUNDS F.finite.size line.now) (kept desk.old)) }
    ensures lacking { IfLacking result (StaysOrSteps (kept desk.old) (option_map_or (desk_kept F.ops F.finite F.points (kept desk.old)) (form ROUNDS F.finite.size line.now) (kept desk.old)) (kept desk.new)) }
{
    match parse::<ROUNDS>(size::<F>(), line, room)? {
        Some(step) => step_at(heap, desk, step),
        None => Err(Refusal::NotOfForm.into()),
    }
}

impl Desks {
    // The desk of a field that is named.
    fn named(name: FieldName) -> Desks
        ensures { desks_state result ≡ fresh name }
    {
        match name {
            FieldName::Z13 => Desks::At13(Desk::Empty),
            FieldName::Z41 => Desks::At41(Desk::Empty),
            FieldName::Z257 => Desks::At257(Desk::Empty),
            FieldName::Byte => Desks::AtByte(Desk::Empty),
        }
    }

    // Answers a line, of a script with the rounds or without.
    fn answer<const ROUNDS: bool>(
        &mut self,
        heap: Global,
        line: &[u8],
        room: &mut Vec<Token>,
    ) -> Result<Vec<u32>, Failure>
        ensures said { IfAnswered result (λ a. items_of a ≡ line_said ROUNDS (desks_state self.old) line.now) }
        ensures state { IfAnswered result (λ _. desks_state self.new ≡ line_state ROUNDS (desks_state self.old) line.now) }
        ensures lacking { IfLacking result (StaysOrSteps (desks_state self.old) (line_state ROUNDS (desks_state self.old) line.now) (desks_state self.new)) }
    {
        match self {
            Desks::Unnamed => match parse::<ROUNDS>(65536, line, room)? {
                Some(Step::Name(name)) => {
                    *self = Desks::named(name);
                    Ok(Vec::new(heap))
                }
                Some(_) => Err(Refusal::NotAllowed.into()),
                None => Err(Refusal::NotOfForm.into()),
            },
            Desks::At13(desk) => answer_at::<_, ROUNDS>(heap, desk, line, room),
            Desks::At41(desk) => answer_at::<_, ROUNDS>(heap, desk, line, room),
            Desks::At257(desk) => answer_at::<_, ROUNDS>(heap, desk, line, room),
            Desks::AtByte(desk) => answer_at::<_, ROUNDS>(heap, desk, line, room),
        }
    }
}

impl<const ROUNDS: bool> Station<ROUNDS> {
    /// No field is named yet.
    pub fn new() -> Self
        ensures { state result ≡ unnamed }
    {
        Station {
            of_script: DesksOf {
                desks: Desks::Unnamed,
                script: ScriptOf {},
            },
        }
    }

    /// Answers a line without its newline, with the numbers that are said after `ok`. `room` is for the line's tokens.
    pub fn answer(
        &mut self,
        heap: Global,
        line: &[u8],
        room: &mut Vec<Token>,
    ) -> Result<Vec<u32>, Failure>
        ensures said { IfAnswered result (λ a. items_of a ≡ line_said ROUNDS (state self.old) line.now) }
        ensures state { IfAnswered result (λ _. state self.new ≡ line_state ROUNDS (state self.old) line.now) }
        ensures dealing { StaysDealing }
        // Where there was no memory to answer, the state is as it was, or as the line leaves it.
        ensures lacking { IfLacking result (StaysOrSteps (state self.old) (line_state ROUNDS (state self.old) line.now) (state self.new)) }
    {
        dealing_shown();
        self.of_script.desks.answer::<ROUNDS>(heap, line, room)
    }
}
