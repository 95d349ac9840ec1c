//! The states of a script. The types stand alone, since files of specs name them.

ghost use Rattle.std.specs.Prelude.{◌≡◌, Bool, false};
ghost use Rattle.std.specs.Coded.{→_prop};
ghost use Rattle.station.specs.States.{desks_state, IsDealing, IsDealing-prop};

use crate::desk::Desk;
use fields::byte::Byte;
use fields::modulus::{Z13, Z41, Z257};

pub mod lines;

// No field is named yet, or there is the desk of the field that was.
// An enum of the fields: a desk behind a `dyn` would be made here and handed out, which the gate refuses.
#[derive(Drop)]
pub(crate) enum Desks {
    Unnamed,
    At13(Desk<Z13>),
    At41(Desk<Z41>),
    At257(Desk<Z257>),
    AtByte(Desk<Byte>),
}

/// A script, by whether it has the rounds and the bytes.
pub trait Script {
    ghost rounds: { Bool };
}

/// The script with the rounds and the bytes, or without them.
#[derive(Drop)]
pub struct ScriptOf<const ROUNDS: bool> {}

// A trait carries the parameter into the invariant below, since a ghost field cannot stand beside a `bool` one.
impl<const ROUNDS: bool> Script for ScriptOf<ROUNDS> {
    ghost rounds = { ROUNDS };
}

// The desks of a script. Without the rounds no round is open and the field is not the bytes, whatever was answered.
#[derive(Drop)]
pub(crate) struct DesksOf<S: Script> {
    desks: Desks,
    script: S,
    ghost dealing: { S.rounds ≡ false → IsDealing (desks_state desks) } by { →_prop (IsDealing-prop (desks_state desks)) },
}

/// The state of a script with the rounds and the bytes, or without them. It begins with no field, and only lines lead it on.
#[derive(Drop)]
pub struct Station<const ROUNDS: bool>
where
    ScriptOf<ROUNDS>: Script,
{
    of_script: DesksOf<ScriptOf<ROUNDS>>,
}
