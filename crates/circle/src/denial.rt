//! Why a call is denied. Each denial has a number, and a call answers the first that fits, in the order of the numbers.

ghost use Rattle.std.specs.Prelude.{◌≡◌};
ghost use Rattle.circle.specs.Denial.{number};

#[derive(Clone, Copy, Debug, PartialEq, Eq)]
pub enum Denial {
    /// Places are not 1 to 32.
    Places = 9,
    /// An id, alone or in a set, is 0 or above the field's largest.
    NoSuchId = 10,
    /// A threshold is below 2 or above the roll's size.
    Threshold = 11,
    /// A piece handed over has the wrong length.
    Length = 12,
    /// An id is not on the roll, or not among those who contribute.
    NotOnRoll = 13,
    /// A newcomer is on the roll already.
    AlreadyOnRoll = 14,
    /// Helpers are fewer than the threshold, or for an admission not exactly as many.
    WrongHelpers = 15,
    /// A dismissal would leave fewer holders than the threshold.
    TooFewLeft = 16,
    /// The epoch is 9,999, and the round is no admission.
    LastEpoch = 17,
    /// The id has contributed to this round.
    AlreadyContributed = 18,
    /// At finish a contribution is missing.
    ContributionMissing = 19,
    /// Fewer cards than the threshold are listed.
    TooFewCards = 20,
    /// An id is listed twice.
    IdTwice = 21,
    /// A card's epoch is not the circle's.
    OtherEpoch = 22,
    /// A later card lies off a polynomial.
    OffPolynomial = 23,
}

impl Denial {
    pub fn number(self) -> u8
        ensures { result ≡ number self }
    {
        self as u8
    }
}
