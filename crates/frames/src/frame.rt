// Frames, as they are read.
ghost use Rattle.std.specs.Prelude.{◌≡◌};
ghost use Rattle.frames.specs.Views.{kind_of};

use crate::kind::Kind;
use notes::ids::{Edition, NoteId, RoundNumber};

/// What a frame says. A value is a part of the bytes that were read.
#[derive(Clone, Copy, PartialEq, Eq, Debug)]
pub enum Frame<'a> {
    Take {
        note: NoteId,
        edition: Edition,
        value: &'a [u8],
    },
    Took {
        note: NoteId,
        edition: Edition,
    },
    Ask {
        note: NoteId,
        round: RoundNumber,
    },
    Told {
        note: NoteId,
        round: RoundNumber,
        edition: Edition,
        value: &'a [u8],
    },
    Begun {
        note: NoteId,
        edition: Edition,
        value: &'a [u8],
    },
    Ended {
        note: NoteId,
        edition: Edition,
    },
}

impl<'a> Frame<'a> {
    pub fn kind(self) -> Kind
        ensures { result ≡ kind_of self.entry }
    {
        match self {
            Frame::Take { .. } => Kind::Take,
            Frame::Took { .. } => Kind::Took,
            Frame::Ask { .. } => Kind::Ask,
            Frame::Told { .. } => Kind::Told,
            Frame::Begun { .. } => Kind::Begun,
            Frame::Ended { .. } => Kind::Ended,
        }
    }
}
