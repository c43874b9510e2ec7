// Who takes part in a rehearsal.
ghost use Rattle.std.specs.Prelude.{◌≡◌, MatchResult};
ghost use Rattle.rehearsal.specs.Parties.{party_number, TakesPart};
ghost use Rattle.rehearsal.specs.declared.script_error.ScriptError.TheVariants.{NoSuchParty};

use crate::reader_id::{FIRST_READER, ReaderId};
use crate::script_error::ScriptError;
use notes::ids::{OFFICE, PartyId};
use notes::warden_id::WardenId;

#[derive(Clone, Copy, PartialEq, Eq, Debug)]
pub enum Party {
    Office,
    Warden(WardenId),
    Reader(ReaderId),
}

impl From<Party> for PartyId {
    ghost from_gives = { λ party id. id.0 ≡ party_number party };

    fn from(party: Party) -> PartyId {
        match party {
            Party::Office => OFFICE,
            Party::Warden(warden) => warden.into(),
            Party::Reader(reader) => reader.into(),
        }
    }
}

// Who has this number, if somebody can have it.
impl TryFrom<PartyId> for Party {
    type Error = ScriptError;

    ghost try_from_gives = { λ id r. MatchResult r (λ p. party_number p ≡ id.0) (λ e. (e ≡ NoSuchParty) × (TakesPart id.0 → ⊥)) };

    fn try_from(id: PartyId) -> Result<Party, ScriptError> {
        if id == OFFICE {
            return Ok(Party::Office);
        }
        match id.0 {
            0..=62 => Ok(Party::Warden(WardenId { index: id.0 as u8 })),
            65..=68 => Ok(Party::Reader(ReaderId {
                index: (id.0 - FIRST_READER) as u8,
            })),
            _ => Err(ScriptError::NoSuchParty),
        }
    }
}
