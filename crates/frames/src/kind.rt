// What a frame begins with.
ghost use Rattle.std.specs.Prelude.{◌≡◌};
ghost use Rattle.frames.specs.Views.{number_of, Decodes};

/// The kinds of frames: four of messages, and two that stand on the office's file alone. The numbers 7 and 8 are kept free.
#[derive(Clone, Copy, Debug, PartialEq, Eq)]
pub enum Kind {
    Take = 1,
    Took = 2,
    Ask = 3,
    Told = 4,
    Begun = 5,
    Ended = 6,
}

/// A byte that stands for no kind.
#[derive(Clone, Copy, Debug, PartialEq, Eq)]
pub struct UnknownKind(pub u8);

impl From<Kind> for u8 {
    ghost from_gives = { λ kind byte. byte ≡ number_of kind };

    /// The byte that stands for it.
    fn from(kind: Kind) -> u8 {
        kind as u8
    }
}

impl TryFrom<u8> for Kind {
    type Error = UnknownKind;

    ghost try_from_gives = { Decodes };

    /// The kind that a byte stands for, if it stands for one.
    fn try_from(byte: u8) -> Result<Kind, UnknownKind> {
        match byte {
            1 => Ok(Kind::Take),
            2 => Ok(Kind::Took),
            3 => Ok(Kind::Ask),
            4 => Ok(Kind::Told),
            5 => Ok(Kind::Begun),
            6 => Ok(Kind::Ended),
            _ => Err(UnknownKind(byte)),
        }
    }
}
