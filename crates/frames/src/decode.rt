// Frames from bytes.
ghost use Rattle.std.specs.Prelude.{◌≡◌, ℕ, ◌<◌, ◌≤◌, List, ◌∷◌, ◌++◌, length, MatchOption, ◌≢◌};
ghost use Rattle.frames.specs.Format.{be, valued};
ghost use Rattle.frames.specs.Views.{number_of};
ghost use Rattle.frames.specs.Fronts.{framed, Begins, NoFrame, GoesOn, NoTail, NoValue, EndsWith};
ghost use Rattle.frames.specs.declared.kind.Kind.{Kind as AnyKind};

use crate::frame::Frame;
use crate::kind::Kind;
use notes::ids::{Edition, NoteId, RoundNumber};
use notes::value::LONGEST;

/// A kind and, beside it, the bytes that follow.
#[derive(Clone, Copy)]
pub(crate) struct Parcel<'a> {
    pub(crate) kind: Kind,
    pub(crate) body: &'a [u8],
}

/// What each frame begins with, and the bytes that follow.
#[derive(Clone, Copy)]
struct Head<'a> {
    kind: Kind,
    note: NoteId,
    number: u64,
    rest: &'a [u8],
}

/// A frame and the bytes that follow it.
#[derive(Clone, Copy, PartialEq, Eq, Debug)]
pub struct Front<'a> {
    pub frame: Frame<'a>,
    pub rest: &'a [u8],
}

// The kind that stands at the front, and what follows.
pub(crate) fn split_kind(bytes: &[u8]) -> Option<Parcel<'_>>
    ensures { MatchOption result ((k : AnyKind) (more : List ℕ) → bytes.now ≢ number_of k ∷ more) (λ p. bytes.now ≡ number_of p.kind ∷ p.body.now) }
{
    let (first, body) = bytes.split_first()?;
    let kind = Kind::try_from(*first).ok()?;
    Some(Parcel { kind, body })
}

// The number of a note in the first four bytes, and what follows.
fn split_note(bytes: &[u8]) -> Option<(NoteId, &[u8])>
    ensures { MatchOption result (length bytes.now < 4) (λ p. bytes.now ≡ be 4 p.0.0 ++ p.1.now) }
{
    let (front, rest) = bytes.split_first_chunk::<4>()?;
    Some((NoteId(u32::from_be_bytes(*front)), rest))
}

// The number in the first eight bytes, and what follows.
fn split_number(bytes: &[u8]) -> Option<(u64, &[u8])>
    ensures { MatchOption result (length bytes.now < 8) (λ p. bytes.now ≡ be 8 p.0 ++ p.1.now) }
{
    let (front, rest) = bytes.split_first_chunk::<8>()?;
    Some((u64::from_be_bytes(*front), rest))
}

// What stands at the front of each frame, and what follows.
fn split_head(bytes: &[u8]) -> Option<Head<'_>>
    ensures { MatchOption result (NoFrame bytes.now) (λ h. bytes.now ≡ framed (number_of h.kind) h.note.0 h.number h.rest.now) }
{
    let Parcel { kind, body } = split_kind(bytes)?;
    let (note, body) = split_note(body)?;
    let (number, rest) = split_number(body)?;
    Some(Head {
        kind,
        note,
        number,
        rest,
    })
}

// A value behind its length, and what follows.
fn value(bytes: &[u8]) -> Option<(&[u8], &[u8])>
    ensures { MatchOption result (NoValue bytes.now) (λ p. (bytes.now ≡ valued p.0.now ++ p.1.now) × (length p.0.now ≤ 64)) }
{
    let (size, rest) = bytes.split_first()?;
    let size = usize::from(*size);
    if size > LONGEST {
        return None;
    }
    rest.split_at_checked(size)
}

// The frame that a value ends, from the bytes where the value begins.
fn with_value<'a, F: FnOnce(&'a [u8]) -> Frame<'a>>(bytes: &'a [u8], frame: F) -> Option<Front<'a>>
    requires { F.IsAlwaysCallable frame }
    ensures { MatchOption result (NoValue bytes.now) (EndsWith (F.post frame) bytes.now) }
{
    let (value, rest) = value(bytes)?;
    Some(Front {
        frame: frame(value),
        rest,
    })
}

// A told, from the bytes behind its two numbers.
fn told(note: NoteId, round: RoundNumber, bytes: &[u8]) -> Option<Front<'_>>
    ensures { MatchOption result (NoTail 4 bytes.now) (GoesOn 4 note.0 round.0 bytes.now) }
{
    let (edition, bytes) = split_number(bytes)?;
    let edition = Edition(edition);
    with_value(
        bytes,
        |value| Frame::Told {
            note,
            round,
            edition,
            value,
        },
    )
}

/// The frame at the front, if a whole one stands there, and what follows.
pub fn first(bytes: &[u8]) -> Option<Front<'_>>
    ensures { MatchOption result (NoFrame bytes.now) (Begins bytes.now) }
{
    let Head {
        kind,
        note,
        number,
        rest,
    } = split_head(bytes)?;
    let edition = Edition(number);
    let round = RoundNumber(number);
    match kind {
        Kind::Take => with_value(
            rest,
            |value| Frame::Take {
                note,
                edition,
                value,
            },
        ),
        Kind::Told => told(note, round, rest),
        Kind::Begun => with_value(
            rest,
            |value| Frame::Begun {
                note,
                edition,
                value,
            },
        ),
        Kind::Took => Some(Front {
            frame: Frame::Took { note, edition },
            rest,
        }),
        Kind::Ask => Some(Front {
            frame: Frame::Ask { note, round },
            rest,
        }),
        Kind::Ended => Some(Front {
            frame: Frame::Ended { note, edition },
            rest,
        }),
    }
}
