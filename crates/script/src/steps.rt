//! The steps of the script, and the lines that state them.

ghost use Rattle.std.specs.Prelude.{◌≡◌, ◌==◌, ◌||◌, ℕ, true, false, not, List, drop, IfOk};
ghost use Rattle.std.specs.Bool.{then_some};
ghost use Rattle.std.specs.List.{list_all};
ghost use Rattle.std.specs.Option.{option_copied, option_map};
ghost use Rattle.std.proofs.lemmas.Map.Entries.{option_filter};
ghost use Rattle.script.specs.Grammar.{part, sections, values, words};
ghost use Rattle.script.specs.Steps.{admit_form, begins_dealing, card_of, card_read, card_stands, cards, change_form, contribute_form, deal_form, deals, field_name, filled, first, form, in_range, is_card, known, letter_form, lists_elements, lists_ids, lone_id, meaning, name_form, named, next_card, once, open_form, pair_stands, stands, stated};
ghost use Rattle.script.specs.Spelling.{GrammarLaws};

use crate::grammar::{Token, section, section_end, tokens, word};
use std::alloc::AllocError;
use std::ops::Range;

/// A field by its name.
#[derive(Clone, Copy, Debug, PartialEq, Eq)]
pub enum FieldName {
    Z13,
    Z41,
    Z257,
    Byte,
}

/// A step of the script, with its numbers as tokens of its line.
#[derive(Clone, Copy, Debug, PartialEq, Eq)]
pub enum Step<'a> {
    /// Names the field.
    Name(FieldName),
    /// Deals a key.
    Deal {
        threshold: u16,
        places: u16,
        ids: &'a [Token],
        key: &'a [Token],
        numbers: &'a [Token],
    },
    /// Begins a refresh.
    Refresh,
    /// Begins the dismissal of a holder.
    Dismiss(u8),
    /// Begins a change of the threshold, by helpers.
    Change {
        threshold: u16,
        helpers: &'a [Token],
    },
    /// Begins the admission of a newcomer, by helpers.
    Admit {
        id: u8,
        helpers: &'a [Token],
    },
    /// Contributes numbers to the round.
    Contribute {
        id: u8,
        numbers: &'a [Token],
    },
    /// Finishes the round.
    Finish,
    /// Abandons the round.
    Abandon,
    /// Shows a holder's card.
    Show(u8),
    /// Opens cards, each after its slash.
    Open(&'a [Token]),
}

impl Step<'_> {
    // Does a script with the rounds, or without, know this step?
    fn is_known(self, rounds: bool) -> bool
        ensures { result ≡ known rounds (meaning self.entry) }
    {
        rounds || self.deals()
    }

    // Is this a step of dealing?
    fn deals(self) -> bool
        ensures { result ≡ deals (meaning self.entry) }
    {
        matches!(
            self,
            Step::Name(FieldName::Z13 | FieldName::Z41 | FieldName::Z257)
                | Step::Deal { .. }
                | Step::Show(_)
                | Step::Open(_)
        )
    }
}

/// A card as a line states it.
#[derive(Clone, Copy, Debug, PartialEq, Eq)]
pub struct Card<'a> {
    pub id: u8,
    pub epoch: u16,
    pub shares: &'a [Token],
}

// ## Words

// The field that a word names.
// Not a TryFrom: its error would have nothing to say.
fn field_name(word: &[u8]) -> Option<FieldName>
    ensures { result ≡ field_name word.now }
{
    match word {
        b"z13" => Some(FieldName::Z13),
        b"z41" => Some(FieldName::Z41),
        b"z257" => Some(FieldName::Z257),
        b"byte" => Some(FieldName::Byte),
        _ => None,
    }
}

// `M word`.
fn name_step(line: &[u8]) -> Option<FieldName>
    ensures { result ≡ name_form (drop 1 (words line.now)) }
{
    let space = line.iter().position(|byte| *byte == b' ')?;
    field_name(&line[space + 1..])
}

// ## Sections

// Is each number in the range?
fn all_in_range(section: &[Token], range: Range<u32>) -> bool
    ensures { result ≡ list_all (in_range range.start range.end) (values section.now) }
{
    section
        .iter()
        .all(|token| range.contains(&u32::from(token.value())))
}

// Does the number stand nowhere?
fn lacks(section: &[Token], n: u16) -> bool
    ensures { result ≡ list_all (λ m. not (m == n)) (values section.now) }
{
    section.iter().all(|token| token.value() != n)
}

// Does no number stand twice?
fn is_once(section: &[Token]) -> bool
    ensures { result ≡ once (values section.now) }
{
    section
        .iter()
        .enumerate()
        .all(|(i, token)| lacks(&section[i + 1..], token.value()))
}

// Are there 1 to 1,024 numbers?
fn is_filled(section: &[Token]) -> bool
    ensures { result ≡ filled (values section.now) }
{
    (1..1025).contains(&section.len())
}

// Is this a set of ids, each once?
fn lists_ids(section: &[Token]) -> bool
    ensures { result ≡ lists_ids (values section.now) }
{
    is_filled(section) && all_in_range(section, 1..33) && is_once(section)
}

// Are these elements of a field of this size?
fn lists_elements(size: u32, section: &[Token]) -> bool
    ensures { result ≡ lists_elements size (values section.now) }
{
    is_filled(section) && all_in_range(section, 0..size)
}

// ## Cards

// The card that a section states.
fn card_of(section: &[Token]) -> Option<Card<'_>>
    ensures { option_map card_of result ≡ then_some (is_card (values section.now)) (stated (values section.now)) }
{
    let [id, epoch, shares @ ..] = section else {
        return None;
    };
    if section.len() > 1024 {
        return None;
    }
    Some(Card {
        id: u8::try_from(id.value()).ok()?,
        epoch: epoch.value(),
        shares,
    })
}

/// The card after the first slash, and the tokens after it.
pub fn next_card(tokens: &[Token]) -> Option<(Card<'_>, &[Token])>
    ensures { card_read result ≡ next_card tokens.now }
{
    let (_, after) = tokens.split_first()?;
    let end = section_end(after);
    let card = card_of(&after[..end])?;
    Some((card, &after[end..]))
}

// Is this a card with elements of a field of this size?
fn is_card(size: u32, section: &[Token]) -> bool
    ensures { result ≡ card_stands size (values section.now) }
{
    card_of(section).is_some_and(|card| all_in_range(card.shares, 0..size))
}

// Is each section after the first a card with elements of a field of this size?
fn cards_stand(size: u32, tokens: &[Token]) -> bool
    ensures { result ≡ list_all (card_stands size) (cards tokens.now) }
{
    tokens
        .split(|token| token.is_slash())
        .skip(1)
        .all(|section| is_card(size, section))
}

// ## Steps

// `size` and `tokens` stay two parameters: a struct of them would only lengthen the names in the contracts.

// The id of `X id` and `K id`.
#[tactic(auto, using(crate::proofs::steps::Laws::lone_long))]
fn lone_id(tokens: &[Token]) -> Option<u8>
    ensures { result ≡ lone_id (sections tokens.now) }
{
    match tokens {
        [Token::Number(id)] => u8::try_from(*id).ok(),
        _ => None,
    }
}

// One number, and one section.
fn pair(tokens: &[Token]) -> Option<(u16, &[Token])>
    ensures { option_map {U = ℕ × List ℕ} (λ p. (p.0, values p.1.now)) result ≡ then_some (pair_stands (sections tokens.now)) (first (sections tokens.now), part (sections tokens.now) 1) }
{
    match (section(tokens, 0), section(tokens, 1), section(tokens, 2)) {
        (Some([n]), Some(section), None) => Some((n.value(), section)),
        _ => None,
    }
}

// `T t / helpers`.
fn change_step(tokens: &[Token]) -> Option<Step<'_>>
    ensures { option_map meaning result ≡ change_form (sections tokens.now) }
{
    let (threshold, helpers) = pair(tokens)?;
    lists_ids(helpers).then_some(Step::Change { threshold, helpers })
}

// `A id / helpers`.
fn admit_step(tokens: &[Token]) -> Option<Step<'_>>
    ensures { option_map meaning result ≡ admit_form (sections tokens.now) }
{
    let (id, helpers) = pair(tokens)?;
    let id = u8::try_from(id).ok()?;
    lists_ids(helpers).then_some(Step::Admit { id, helpers })
}

// `C id / numbers`.
fn contribute_step(size: u32, tokens: &[Token]) -> Option<Step<'_>>
    ensures { option_map meaning result ≡ contribute_form size (sections tokens.now) }
{
    let (id, numbers) = pair(tokens)?;
    let id = u8::try_from(id).ok()?;
    lists_elements(size, numbers).then_some(Step::Contribute { id, numbers })
}

// `D t places / ids / key / numbers`.
fn deal_step(size: u32, tokens: &[Token]) -> Option<Step<'_>>
    ensures { option_map meaning result ≡ deal_form size (sections tokens.now) }
{
    let [threshold, places] = section(tokens, 0)? else {
        return None;
    };
    let ids = section(tokens, 1)?;
    let key = section(tokens, 2)?;
    let numbers = section(tokens, 3)?;
    let stands = section(tokens, 4).is_none()
        && lists_ids(ids)
        && lists_elements(size, key)
        && lists_elements(size, numbers);
    stands.then_some(Step::Deal {
        threshold: threshold.value(),
        places: places.value(),
        ids,
        key,
        numbers,
    })
}

// `O / card / card ..`.
// That its cards stand is a clause: a type for its tokens would be no plainer, since the station walks them by `next_card`.
#[tactic(auto, using(crate::proofs::grammar::Laws::first_section_long))]
fn open_step(size: u32, tokens: &[Token]) -> Option<Step<'_>>
    ensures says { option_map meaning result ≡ open_form size (sections tokens.now) }
    ensures stands { stands size result ≡ true }
{
    let opens = section_end(tokens) == 0 && cards_stand(size, tokens);
    opens.then_some(Step::Open(tokens))
}

// ## Lines

// The step of `M word`, if a script with the rounds, or without, knows it.
fn known_name<'a>(rounds: bool, line: &[u8]) -> Option<Step<'a>>
    ensures says { option_map meaning result ≡ option_filter (known rounds) (option_map named (name_form (drop 1 (words line.now)))) }
    ensures stands { (size : ℕ) → stands size result ≡ true }
{
    let step = Step::Name(name_step(line)?);
    step.is_known(rounds).then_some(step)
}

// The step that a letter other than M names, of a line's tokens, if all its words but the first are such.
#[tactic(auto, using(crate::proofs::steps::Laws::alone_is))]
fn step_of<'a>(size: u32, letter: u8, tokens: Option<&'a [Token]>) -> Option<Step<'a>>
    requires { (letter == 77) ≡ false }
    ensures says { (rest : List (List ℕ)) → option_map meaning result ≡ letter_form size letter rest (option_copied tokens.entry) }
    ensures stands { stands size result ≡ true }
{
    let tokens = tokens?;
    match letter {
        b'D' => deal_step(size, tokens),
        b'R' => tokens.is_empty().then_some(Step::Refresh),
        b'X' => Some(Step::Dismiss(lone_id(tokens)?)),
        b'T' => change_step(tokens),
        b'A' => admit_step(tokens),
        b'C' => contribute_step(size, tokens),
        b'F' => tokens.is_empty().then_some(Step::Finish),
        b'Q' => tokens.is_empty().then_some(Step::Abandon),
        b'K' => Some(Step::Show(lone_id(tokens)?)),
        b'O' => open_step(size, tokens),
        _ => None,
    }
}

// Has a script with the rounds, or without, a step whose letter is the line's first byte?
fn has_letter(rounds: bool, line: &[u8]) -> bool
    ensures { result ≡ (rounds || begins_dealing line.now) }
{
    rounds || matches!(line, [b'M' | b'D' | b'K' | b'O', ..])
}

/// The step that a line without its newline states, with elements below `size`; none if it is not of the form.
/// A script without the rounds has only the moduli, and the steps `M`, `D`, `K` and `O`.
/// The tokens of the line are kept in `room`, in place of what it held.
pub fn parse<'a, const ROUNDS: bool>(
    size: u32,
    line: &[u8],
    room: &'a mut Vec<Token>,
) -> Result<Option<Step<'a>>, AllocError>
    ensures says { IfOk result (λ step. option_map meaning step ≡ form ROUNDS size line.now) }
    ensures stands { IfOk result (λ step. stands size step ≡ true) }
{
    if !has_letter(ROUNDS, line) {
        return Ok(None);
    }
    let Some([letter]) = word(line, 0) else {
        return Ok(None);
    };
    let tokens = tokens(line, room)?;
    if *letter == b'M' {
        return Ok(known_name(ROUNDS, line));
    }
    Ok(step_of(size, *letter, tokens))
}

// The laws of the grammar, shown once.
fn laws_shown<const ROUNDS: bool>()
    ensures { GrammarLaws ROUNDS }
{}

/// The laws of the grammar: a line of the form is the one spelling of its step.
pub fn grammar_laws<const ROUNDS: bool>()
    ensures { GrammarLaws ROUNDS }
{
    laws_shown::<ROUNDS>();
}
