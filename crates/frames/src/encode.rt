// Frames to bytes. Each is added whole; where there is no memory, nothing is. Each kind has a function of its own, since one over all of
// them would take a value of any length, and could fail for that.
ghost use Rattle.std.specs.Prelude.{◌+◌, ◌^◌, ◌<◌, ◌≤◌, [], ◌∷◌, ◌++◌, length, vec_len, vec_capacity};
ghost use Rattle.protocol.specs.Message.{Take, Took, Ask, Told};
ghost use Rattle.notes.specs.Views.{bytes_of, note_of};
ghost use Rattle.frames.specs.Format.{Sent, Begun, Ended, be, valued, encode, Fits};
ghost use Rattle.frames.specs.Views.{number_of};
ghost use Rattle.frames.specs.Fronts.{framed};
ghost use Rattle.frames.specs.Room.{Added, WholeOrNot};

use crate::kind::Kind;
use notes::ids::{Edition, NoteId, RoundNumber};
use notes::note::Note;
use notes::value::Value;
use std::alloc::AllocError;

// The bytes of a kind and two numbers, with which each frame begins.
const HEAD: usize = 13;

// The bytes of an edition.
const EDITION: usize = 8;

// Adds bytes for which room was reserved.
fn put(out: &mut Vec<u8>, bytes: &[u8])
    requires { vec_len out.old + length bytes.now ≤ vec_capacity out.old }
    ensures { Added out.old out.new bytes.now }
{
    out.extend_from_slice(bytes).unwrap();
}

fn put_head(out: &mut Vec<u8>, kind: Kind, note: NoteId, number: u64)
    requires { vec_len out.old + 13 ≤ vec_capacity out.old }
    ensures { Added out.old out.new (number_of kind ∷ (be 4 note.0 ++ be 8 number)) }
{
    put(out, &[u8::from(kind)]);
    put(out, &note.0.to_be_bytes());
    put(out, &number.to_be_bytes());
}

// Adds a value behind its length.
fn put_value(out: &mut Vec<u8>, value: &[u8])
    requires short { length value.now ≤ 64 }
    requires room { vec_len out.old + (1 + length value.now) ≤ vec_capacity out.old }
    ensures { Added out.old out.new (valued value.now) }
{
    put(out, &[value.len() as u8]);
    put(out, value);
}

// Adds a frame of a kind and two numbers.
fn put_bare(out: &mut Vec<u8>, kind: Kind, note: NoteId, number: u64) -> Result<(), AllocError>
    ensures { WholeOrNot out.old out.new (framed (number_of kind) note.0 number []) result }
{
    out.reserve(HEAD)?;
    put_head(out, kind, note, number);
    Ok(())
}

// Adds a frame of a kind, two numbers and a value.
#[tactic(auto, using(crate::proofs::Room::value_short))]
fn put_valued(
    out: &mut Vec<u8>,
    kind: Kind,
    note: NoteId,
    edition: Edition,
    value: &Value,
) -> Result<(), AllocError>
    ensures items { WholeOrNot out.old out.new (framed (number_of kind) note.0 edition.0 (valued (bytes_of value.now))) result }
    ensures fits { (edition.0 < 2 ^ 64) × (length (bytes_of value.now) ≤ 64) }
{
    let bytes = value.bytes();
    out.reserve(HEAD + 1 + bytes.len())?;
    put_head(out, kind, note, edition.0);
    put_value(out, bytes);
    Ok(())
}

/// Adds a take: this note is to be taken.
#[tactic(auto, unfolding(crate::specs::Format::encode))]
pub fn put_take(out: &mut Vec<u8>, note: NoteId, what: &Note) -> Result<(), AllocError>
    ensures items { WholeOrNot out.old out.new (encode (Sent note.0 (Take (note_of what.now)))) result }
    ensures fits { Fits (Sent note.0 (Take (note_of what.now))) }
{
    put_valued(out, Kind::Take, note, what.edition, &what.value)
}

/// Adds a took: that edition is taken.
#[tactic(auto, unfolding(crate::specs::Format::encode))]
pub fn put_took(out: &mut Vec<u8>, note: NoteId, edition: Edition) -> Result<(), AllocError>
    ensures items { WholeOrNot out.old out.new (encode (Sent note.0 (Took edition.0))) result }
    ensures fits { Fits (Sent note.0 (Took edition.0)) }
{
    put_bare(out, Kind::Took, note, edition.0)
}

/// Adds an ask: what is had, in that round.
#[tactic(auto, unfolding(crate::specs::Format::encode))]
pub fn put_ask(out: &mut Vec<u8>, note: NoteId, round: RoundNumber) -> Result<(), AllocError>
    ensures items { WholeOrNot out.old out.new (encode (Sent note.0 (Ask round.0))) result }
    ensures fits { Fits (Sent note.0 (Ask round.0)) }
{
    put_bare(out, Kind::Ask, note, round.0)
}

/// Adds a told: what is had, to who asked in that round.
#[tactic(auto, using(crate::proofs::Room::value_short))]
pub fn put_told(
    out: &mut Vec<u8>,
    note: NoteId,
    round: RoundNumber,
    what: &Note,
) -> Result<(), AllocError>
    ensures items { WholeOrNot out.old out.new (encode (Sent note.0 (Told round.0 (note_of what.now)))) result }
    ensures fits { Fits (Sent note.0 (Told round.0 (note_of what.now))) }
{
    let edition = what.edition.0;
    let value = what.value.bytes();
    out.reserve(HEAD + EDITION + 1 + value.len())?;
    put_head(out, Kind::Told, note, round.0);
    put(out, &edition.to_be_bytes());
    put_value(out, value);
    Ok(())
}

/// Adds a begun: the office has begun that edition.
#[tactic(auto, unfolding(crate::specs::Format::encode))]
pub fn put_begun(out: &mut Vec<u8>, note: NoteId, what: &Note) -> Result<(), AllocError>
    ensures items { WholeOrNot out.old out.new (encode (Begun note.0 (note_of what.now))) result }
    ensures fits { Fits (Begun note.0 (note_of what.now)) }
{
    put_valued(out, Kind::Begun, note, what.edition, &what.value)
}

/// Adds an ended: the writing of that edition has come to an end.
#[tactic(auto, unfolding(crate::specs::Format::encode))]
pub fn put_ended(out: &mut Vec<u8>, note: NoteId, edition: Edition) -> Result<(), AllocError>
    ensures items { WholeOrNot out.old out.new (encode (Ended note.0 edition.0)) result }
    ensures fits { Fits (Ended note.0 edition.0) }
{
    put_bare(out, Kind::Ended, note, edition.0)
}
