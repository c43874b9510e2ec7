// The number of a reader.
ghost use Rattle.std.specs.Prelude.{◌≡◌, ◌+◌, ◌<◌, [], ◌∷◌, map};

use notes::ids::PartyId;

/// The number of the first reader.
pub const FIRST_READER: u32 = 65;

/// One of the four readers that a rehearsal can have.
#[derive(Clone, Copy, Debug, PartialEq, Eq)]
pub struct ReaderId {
    pub index: u8,
    ghost few: { index < 4 },
}

impl ReaderId {
    /// All of them.
    pub fn all() -> [ReaderId; 4]
        ensures { map (λ r. r.index) result ≡ 0 ∷ 1 ∷ 2 ∷ 3 ∷ [] }
    {
        [
            ReaderId { index: 0 },
            ReaderId { index: 1 },
            ReaderId { index: 2 },
            ReaderId { index: 3 },
        ]
    }
}

impl From<ReaderId> for PartyId {
    ghost from_gives = { λ reader id. id.0 ≡ 65 + reader.index };

    fn from(reader: ReaderId) -> PartyId {
        PartyId(FIRST_READER + u32::from(reader.index))
    }
}
