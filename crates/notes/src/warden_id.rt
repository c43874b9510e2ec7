// The number of a warden.
ghost use Rattle.std.specs.Prelude.{◌≡◌, ◌<◌, ◌≤◌, MatchOption};

use crate::ids::PartyId;

/// Which of the wardens, of whom there are at most 63.
#[derive(Clone, Copy, PartialEq, Eq, PartialOrd, Ord, Debug)]
pub struct WardenId {
    pub index: u8,
    ghost small: { index < 63 },
}

impl WardenId {
    /// The warden of this number, if a warden can have it.
    pub fn new(index: u8) -> Option<WardenId>
        ensures { MatchOption result (63 ≤ index) (λ w. w.index ≡ index) }
    {
        if index < 63 {
            Some(WardenId { index })
        } else {
            None
        }
    }
}

impl From<WardenId> for PartyId {
    ghost from_gives = { λ warden party. party.0 ≡ warden.index };

    fn from(warden: WardenId) -> PartyId {
        PartyId(u32::from(warden.index))
    }
}
