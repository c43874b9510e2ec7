// How notes, their numbers, and those who write and keep them are printed. No library derives this for a struct round a number.
ghost use Rattle.std.specs.Prelude.{Some, decimal};
ghost use Rattle.notes.specs.Texts.{party_text, value_text, note_text};

use crate::ids::{Edition, NoteId, PartyId, RoundNumber};
use crate::note::Note;
use crate::value::Value;
use crate::warden_id::WardenId;
use crate::warden_set::WardenSet;
use std::fmt;

impl fmt::Display for Edition {
    ghost output = { λ edition. Some (decimal edition.0) };

    fn fmt<W: fmt::Write>(&self, f: &mut fmt::Formatter<W>) -> fmt::Result {
        write!(f, "{}", self.0)
    }
}

impl fmt::Display for RoundNumber {
    ghost output = { λ round. Some (decimal round.0) };

    fn fmt<W: fmt::Write>(&self, f: &mut fmt::Formatter<W>) -> fmt::Result {
        write!(f, "{}", self.0)
    }
}

impl fmt::Display for NoteId {
    ghost output = { λ note. Some (decimal note.0) };

    fn fmt<W: fmt::Write>(&self, f: &mut fmt::Formatter<W>) -> fmt::Result {
        write!(f, "{}", self.0)
    }
}

impl fmt::Display for WardenId {
    ghost output = { λ warden. Some (decimal warden.index) };

    fn fmt<W: fmt::Write>(&self, f: &mut fmt::Formatter<W>) -> fmt::Result {
        write!(f, "{}", self.index)
    }
}

impl fmt::Display for PartyId {
    ghost output = { λ party. Some (party_text party.0) };

    fn fmt<W: fmt::Write>(&self, f: &mut fmt::Formatter<W>) -> fmt::Result {
        if self.is_office() {
            write!(f, "office")
        } else {
            write!(f, "{}", self.0)
        }
    }
}

// Two hexadecimal digits for each byte.
impl fmt::Display for Value {
    ghost output = { λ value. Some (value_text value) };

    fn fmt<W: fmt::Write>(&self, f: &mut fmt::Formatter<W>) -> fmt::Result {
        let bytes = self.bytes();
        for byte in bytes {
            write!(f, "{byte:02x}")?;
        }
        Ok(())
    }
}

// The edition, and the value if it has any bytes.
impl fmt::Display for Note {
    ghost output = { λ note. Some (note_text note) };

    fn fmt<W: fmt::Write>(&self, f: &mut fmt::Formatter<W>) -> fmt::Result {
        write!(f, "{}", self.edition)?;
        if self.value.bytes().is_empty() {
            return Ok(());
        }
        write!(f, " {}", self.value)
    }
}

// The numbers of those in the set, with a space before each.
impl fmt::Display for WardenSet {
    fn fmt<W: fmt::Write>(&self, f: &mut fmt::Formatter<W>) -> fmt::Result {
        if self.bits == 0 {
            return write!(f, " nobody");
        }
        let all = (0..63).filter_map(WardenId::new);
        for warden in all.filter(|warden| self.contains(*warden)) {
            write!(f, " {warden}")?;
        }
        Ok(())
    }
}
