// Numbers that must not be taken for one another.
ghost use Rattle.std.specs.Prelude.{◌≡◌, ◌+◌, ◌<◌, ◌≤◌, MatchOption, ◌==◌};

/// The edition of a note. Nothing was written under edition 0.
#[derive(Clone, Copy, PartialEq, Eq, PartialOrd, Ord, Debug)]
pub struct Edition(pub u64);

/// The number of a reader's round.
#[derive(Clone, Copy, PartialEq, Eq, PartialOrd, Ord, Debug)]
pub struct RoundNumber(pub u64);

/// The number of a note.
#[derive(Clone, Copy, PartialEq, Eq, PartialOrd, Ord, Debug)]
pub struct NoteId(pub u32);

/// The number of a party: wardens are 0 to 62, the office is 63, readers and anybody else have others.
#[derive(Clone, Copy, PartialEq, Eq, PartialOrd, Ord, Debug)]
pub struct PartyId(pub u32);

/// The office's writings have editions up to this one.
pub const LAST_EDITION: u64 = 4611686018427387903;

/// The office's number.
pub const OFFICE: PartyId = PartyId(63);

impl Edition {
    /// The next edition that can be written, if there is one.
    pub fn next(self) -> Option<Edition>
        ensures { MatchOption result (4611686018427387903 ≤ self.0) (λ e. (self.0 < 4611686018427387903) × (e.0 ≡ self.0 + 1)) }
    {
        if self.0 < LAST_EDITION {
            Some(Edition(self.0 + 1))
        } else {
            None
        }
    }
}

impl RoundNumber {
    /// The number of the round after this one, if this one can be used at all.
    pub fn next(self) -> Option<RoundNumber>
        ensures { MatchOption result (18446744073709551615 ≤ self.0) (λ n. (self.0 < 18446744073709551615) × (n.0 ≡ self.0 + 1)) }
    {
        self.0.checked_add(1).map(RoundNumber)
    }
}

impl PartyId {
    pub fn is_office(self) -> bool
        ensures { result ≡ (self.0 == 63) }
    {
        self == OFFICE
    }
}
