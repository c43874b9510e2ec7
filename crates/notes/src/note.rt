// A note.
ghost use Rattle.std.specs.Prelude.{◌≡◌};
ghost use Rattle.register.specs.Note.{none};
ghost use Rattle.notes.specs.Views.{note_of};

use crate::ids::Edition;
use crate::value::Value;

/// What was written under an edition.
#[derive(Clone, Copy, PartialEq, Eq, Debug)]
pub struct Note {
    pub edition: Edition,
    pub value: Value,
}

impl Note {
    /// What stands where nothing was ever written.
    pub fn none() -> Note
        ensures { note_of result ≡ none }
    {
        Note {
            edition: Edition(0),
            value: Value {
                length: 0,
                bytes: [0; 64],
            },
        }
    }
}
