// The words of a line, and what they say.
ghost use Rattle.std.specs.Prelude.{◌≡◌, ℕ, ◌^◌, ◌<◌, ◌≤◌, ◌⊎◌, ◌↔◌, if◌then◌else◌, option_map, unwrap_or, [], IfOk, IfErr, IsOk, ◌+◌, IsErr, IsTrue, length, decimal, MatchResult, ◌≢◌};
ghost use Rattle.hex.specs.Hex.{decode_of};
ghost use Rattle.notes.specs.Views.{Numbers, bytes_of};
ghost use Rattle.rehearsal.specs.Parties.{party_number, TakesPart};
ghost use Rattle.rehearsal.specs.Words.{left_of, word_of, behind_word};

use crate::party::Party;
use crate::reader_id::ReaderId;
use crate::script_error::ScriptError;
use crate::way::Which;
use notes::ids::{Edition, NoteId, PartyId, RoundNumber};
use notes::note::Note;
use notes::quorum::Quorum;
use notes::value::{LONGEST, Value};
use notes::warden_id::WardenId;
use parties::message::Message;

/// The most wardens in a rehearsal.
pub const MOST_WARDENS: u64 = 9;

/// What of a line is still to be read; words are separated by one space.
#[derive(Clone, Copy)]
pub struct Words<'a> {
    rest: Option<&'a str>,
}

impl<'a> Words<'a> {
    pub fn new(line: &'a str) -> Words<'a>
        ensures { left_of result ≡ Some line.now }
    {
        Words { rest: Some(line) }
    }

    /// The next word, if there is one.
    pub fn next_word(&mut self) -> Option<&'a str>
        ensures word { option_map (λ w. w.now) result ≡ word_of (left_of self.old) }
        ensures left { left_of self.new ≡ behind_word (left_of self.old) }
    {
        let text = self.rest?;
        let (word, rest) = match text.split_once(' ') {
            Some((word, rest)) => (word, Some(rest)),
            None => (text, None),
        };
        self.rest = rest;
        Some(word)
    }

    /// The next word, which is to be there.
    pub fn word(&mut self) -> Result<&'a str, ScriptError>
        ensures word { MatchResult result (λ w. word_of (left_of self.old) ≡ Some w.now) (λ _. left_of self.old ≡ None) }
        ensures left { left_of self.new ≡ behind_word (left_of self.old) }
    {
        self.next_word().ok_or(ScriptError::WordMissing)
    }

    /// Reads this word, if it is all that is left.
    pub fn is_last(&mut self, word: &str) -> bool
        ensures is { IsTrue result ↔ (left_of self.old ≡ Some word.now) }
        ensures left { left_of self.new ≡ if result then None else left_of self.old }
    {
        let is_last = self.rest == Some(word);
        if is_last {
            self.rest = None;
        }
        is_last
    }

    /// Nothing is to follow.
    pub fn end(&self) -> Result<(), ScriptError>
        ensures { IsOk result ↔ (left_of self.now ≡ None) }
    {
        match self.rest {
            Some(_) => Err(ScriptError::TooManyWords),
            None => Ok(()),
        }
    }

    pub fn number(&mut self) -> Result<u64, ScriptError>
        ensures number { MatchResult result (λ n. word_of (left_of self.old) ≡ Some (decimal n)) (λ _. (n : ℕ) → n < 2 ^ 64 → word_of (left_of self.old) ≢ Some (decimal n)) }
        ensures left { left_of self.new ≡ behind_word (left_of self.old) }
    {
        number_of(self.word()?)
    }

    /// How many wardens there are, and how many of them may lie.
    pub fn quorum(&mut self) -> Result<Quorum, ScriptError>
        ensures few { IfOk result (λ q. q.wardens ≤ 9) }
        ensures numbers { IfOk result (λ q. (word_of (left_of self.old) ≡ Some (decimal q.wardens)) × (word_of (behind_word (left_of self.old)) ≡ Some (decimal q.faults))) }
        ensures refused { IfErr result (λ _. (n f : ℕ) → Numbers n f → n ≤ 9 → word_of (left_of self.old) ≡ Some (decimal n) → word_of (behind_word (left_of self.old)) ≡ Some (decimal f) → ⊥) }
    {
        let wardens = self.number()?;
        let faults = self.number()?;
        if wardens > MOST_WARDENS || faults > MOST_WARDENS {
            return Err(ScriptError::WrongNumbers);
        }
        Quorum::new(wardens as u8, faults as u8).ok_or(ScriptError::WrongNumbers)
    }

    pub fn party(&mut self) -> Result<Party, ScriptError> {
        party_of(self.word()?)
    }

    pub fn warden(&mut self) -> Result<WardenId, ScriptError>
        ensures number { IfOk result (λ w. word_of (left_of self.old) ≡ Some (decimal w.index)) }
        ensures left { left_of self.new ≡ behind_word (left_of self.old) }
    {
        match party_at(self.number()?) {
            Ok(Party::Warden(warden)) => Ok(warden),
            _ => Err(ScriptError::NoSuchWarden),
        }
    }

    pub fn reader(&mut self) -> Result<ReaderId, ScriptError>
        ensures number { IfOk result (λ r. word_of (left_of self.old) ≡ Some (decimal (65 + r.index))) }
        ensures left { left_of self.new ≡ behind_word (left_of self.old) }
    {
        match party_at(self.number()?) {
            Ok(Party::Reader(reader)) => Ok(reader),
            _ => Err(ScriptError::NoSuchReader),
        }
    }

    /// The number of a note.
    pub fn note_id(&mut self) -> Result<NoteId, ScriptError>
        ensures number { IfOk result (λ k. word_of (left_of self.old) ≡ Some (decimal k.0)) }
        ensures left { left_of self.new ≡ behind_word (left_of self.old) }
    {
        let number = u32::try_from(self.number()?).map_err(|_| ScriptError::NoSuchNote)?;
        Ok(NoteId(number))
    }

    /// A number, or two parties.
    pub fn which(&mut self) -> Result<Which, ScriptError> {
        let first = self.word()?;
        match self.next_word() {
            None => Ok(Which::Number(number_of(first)?)),
            Some(second) => Ok(Which::Between(party_of(first)?, party_of(second)?)),
        }
    }

    /// The bytes that the last word of a line writes; no bytes are no word.
    pub fn value(&mut self) -> Result<Value, ScriptError>
        ensures { IfOk result (λ v. decode_of (unwrap_or (word_of (left_of self.old)) []) ≡ Ok (bytes_of v)) }
    {
        match self.next_word() {
            None => value_of(b""),
            Some("") => Err(ScriptError::BytesExpected),
            Some(word) => value_of(word.as_bytes()),
        }
    }

    /// An edition and its value.
    pub fn note(&mut self) -> Result<Note, ScriptError> {
        Ok(Note {
            edition: Edition(self.number()?),
            value: self.value()?,
        })
    }

    /// A message, after the note that it is about.
    pub fn message(&mut self) -> Result<(NoteId, Message), ScriptError> {
        match self.word()? {
            "take" => Ok((self.note_id()?, Message::Take(self.note()?))),
            "took" => Ok((self.note_id()?, Message::Took(Edition(self.number()?)))),
            "ask" => Ok((self.note_id()?, Message::Ask(RoundNumber(self.number()?)))),
            "told" => {
                let note = self.note_id()?;
                let round = RoundNumber(self.number()?);
                Ok((note, Message::Told(round, self.note()?)))
            }
            _ => Err(ScriptError::MessageExpected),
        }
    }
}

// Who has this number.
fn party_at(number: u64) -> Result<Party, ScriptError>
    ensures { MatchResult result (λ p. party_number p ≡ number) (λ _. TakesPart number → ⊥) }
{
    let id = u32::try_from(number).map_err(|_| ScriptError::NoSuchParty)?;
    Party::try_from(PartyId(id))
}

/// The party that a word names.
pub fn party_of(word: &str) -> Result<Party, ScriptError> {
    if word == "office" {
        return Ok(Party::Office);
    }
    let number = number_of(word).map_err(|_| ScriptError::PartyExpected)?;
    match party_at(number)? {
        Party::Office => Err(ScriptError::NoSuchParty),
        party => Ok(party),
    }
}

// The number that a word writes in decimal digits, with no sign and no leading zero.
fn number_of(word: &str) -> Result<u64, ScriptError>
    ensures { MatchResult result (λ n. word.now ≡ decimal n) (λ _. (n : ℕ) → n < 2 ^ 64 → word.now ≢ decimal n) }
{
    if word.starts_with('+') {
        return Err(ScriptError::NumberExpected);
    }
    if word.starts_with('0') && word.len() > 1 {
        return Err(ScriptError::NumberExpected);
    }
    word.parse().map_err(|_| ScriptError::NumberExpected)
}

// The bytes that hexadecimal digits write, two of them each.
fn value_of(digits: &[u8]) -> Result<Value, ScriptError>
    ensures { MatchResult result (λ v. decode_of digits.now ≡ Ok (bytes_of v)) (λ _. IsErr (decode_of digits.now) ⊎ (128 < length digits.now)) }
{
    if digits.len() % 2 != 0 {
        return Err(ScriptError::BytesExpected);
    }
    let length = digits.len() / 2;
    if length > LONGEST {
        return Err(ScriptError::ValueTooLong);
    }
    let mut bytes = [0; LONGEST];
    hex::decode_to_slice(digits, &mut bytes[..length]).map_err(|_| ScriptError::BytesExpected)?;
    Ok(Value {
        length: length as u8,
        bytes,
    })
}
