//! Why a line is not answered `ok`. The enums stand alone, since files of specs name them.

ghost use Rattle.std.specs.Prelude.{◌≡◌, ◌++◌, codes, Some};
ghost use Rattle.std.specs.Fmt.{decimal};
ghost use Rattle.station.specs.Refusal.{number};
ghost use Rattle.station.specs.declared.refusal.Failure.TheVariants.{Refused, OutOfMemory};
ghost use Rattle.station.specs.declared.refusal.Refusal.TheVariants.{Denied};

use circle::denial::Denial;
use std::alloc::AllocError;
use std::fmt;

/// Why a line is refused.
#[derive(Clone, Copy, Debug, PartialEq, Eq)]
pub enum Refusal {
    /// The line is not of the form.
    NotOfForm,
    /// The present state does not allow the step.
    NotAllowed,
    /// The circle denies the step.
    Denied(Denial),
}

/// Why a line is not answered `ok`: it is refused, or there is no memory to answer it.
#[derive(Clone, Copy, Debug, PartialEq, Eq)]
pub enum Failure {
    Refused(Refusal),
    OutOfMemory(AllocError),
}

impl Refusal {
    /// The number that is said of it.
    pub fn number(self) -> u8
        ensures { result ≡ number self }
    {
        match self {
            Refusal::NotOfForm => 1,
            Refusal::NotAllowed => 2,
            Refusal::Denied(denial) => denial.number(),
        }
    }
}

impl fmt::Display for Refusal {
    ghost output = { λ refusal. Some (codes "no " ++ decimal (number refusal)) };

    fn fmt<W: fmt::Write>(&self, f: &mut fmt::Formatter<W>) -> fmt::Result {
        let number = self.number();
        write!(f, "no {number}")
    }
}

impl From<Denial> for Refusal {
    ghost from_gives = { λ denial refusal. refusal ≡ Denied denial };

    fn from(denial: Denial) -> Refusal {
        Self::Denied(denial)
    }
}

impl From<Refusal> for Failure {
    ghost from_gives = { λ refusal failure. failure ≡ Refused refusal };

    fn from(refusal: Refusal) -> Failure {
        Failure::Refused(refusal)
    }
}

impl From<Denial> for Failure {
    ghost from_gives = { λ denial failure. failure ≡ Refused (Denied denial) };

    fn from(denial: Denial) -> Failure {
        Failure::Refused(Refusal::Denied(denial))
    }
}

impl From<AllocError> for Failure {
    ghost from_gives = { λ error failure. failure ≡ OutOfMemory error };

    fn from(error: AllocError) -> Failure {
        Failure::OutOfMemory(error)
    }
}
