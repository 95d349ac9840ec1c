//! The grammar of a line: words between spaces, numbers in plain decimal, and slashes.

ghost use Rattle.std.specs.Prelude.{◌≡◌, ◌<◌, ◌≤◌, ◌+◌, ◌-◌, ◌*◌, ◌&&◌, nat_le, length, IfOk, MatchOption};
ghost use Rattle.std.specs.Bool.{then_some};
ghost use Rattle.std.specs.Char.{is_ascii_digit};
ghost use Rattle.std.specs.List.{slice_get};
ghost use Rattle.std.specs.Option.{option_copied};
ghost use Rattle.script.specs.Grammar.{before, digits_number, is_slash, line_tokens, number, part, sections, token, value, values, words};

use std::alloc::AllocError;

/// A word of a line after its first.
#[derive(Clone, Copy, Debug, PartialEq, Eq)]
pub enum Token {
    /// A number of the script.
    Number(u16),
    /// The slash before a section.
    Slash,
}

// The word at a place of a line, from 0.
pub(crate) fn word(line: &[u8], place: usize) -> Option<&[u8]>
    ensures { option_copied result ≡ slice_get (words line.now) place }
{
    line.split(|byte| *byte == b' ').nth(place)
}

// The number with one digit more, if the byte is one and the number at most 65,535.
fn with_digit(value: u16, byte: u8) -> Option<u16>
    ensures { result ≡ then_some (is_ascii_digit byte && nat_le (value * 10 + (byte - 48)) 65535) (value * 10 + (byte - 48)) }
{
    if !byte.is_ascii_digit() {
        return None;
    }
    u16::try_from(u32::from(value) * 10 + u32::from(byte - b'0')).ok()
}

// The number that digits write, if it is at most 65,535.
fn digits_number(word: &[u8]) -> Option<u16>
    ensures { result ≡ digits_number word.now }
{
    word.iter()
        .try_fold(0, |value, byte| with_digit(value, *byte))
}

// The number that a word is: unpadded decimal, at most 65,535. No TryFrom: its error would have nothing to say.
fn number(word: &[u8]) -> Option<u16>
    ensures { result ≡ number word.now }
{
    match word {
        [] | [b'0', _, ..] => None,
        _ => digits_number(word),
    }
}

// The token that a word is. No TryFrom, as for a number.
fn read_token(word: &[u8]) -> Option<Token>
    ensures { result ≡ token word.now }
{
    match word {
        b"/" => Some(Token::Slash),
        _ => number(word).map(Token::Number),
    }
}

// Puts the tokens of all words of a line but the first into `room`, in place of what it held, and gives them if each is one.
pub(crate) fn tokens<'a>(
    line: &[u8],
    room: &'a mut Vec<Token>,
) -> Result<Option<&'a [Token]>, AllocError>
    ensures { IfOk result (λ found. option_copied found ≡ line_tokens line.now) }
{
    room.clear();
    let mut words = line.split(|byte| *byte == b' ');
    let _ = words.next();
    for word in words {
        match read_token(word) {
            Some(token) => room.push(token)?,
            None => return Ok(None),
        }
    }
    Ok(Some(room.as_slice()))
}

impl Token {
    // Is this a slash?
    pub(crate) fn is_slash(self) -> bool
        ensures { result ≡ is_slash self }
    {
        matches!(self, Token::Slash)
    }

    /// The number that this is, and 0 of a slash.
    // No Option: a section has numbers only, and its reader would unwrap each.
    pub fn value(self) -> u16
        ensures { result ≡ value self }
    {
        match self {
            Token::Number(n) => n,
            Token::Slash => 0,
        }
    }
}

// The section at a place, from 0.
pub(crate) fn section(tokens: &[Token], place: usize) -> Option<&[Token]>
    ensures { MatchOption result
        (length (sections tokens.now) ≤ place)
        (λ s. (place < length (sections tokens.now)) × (values s.now ≡ part (sections tokens.now) place) × (length s.now ≡ length (part (sections tokens.now) place))) }
{
    tokens.split(|token| token.is_slash()).nth(place)
}

// How many tokens stand before the first slash.
pub(crate) fn section_end(tokens: &[Token]) -> usize
    ensures value { result ≡ before is_slash tokens.now }
    ensures within { result ≤ length tokens.now }
{
    tokens
        .iter()
        .position(|token| token.is_slash())
        .unwrap_or(tokens.len())
}
