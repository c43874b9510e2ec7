// What the parties say to one another.
use notes::ids::{Edition, NoteId, PartyId, RoundNumber};
use notes::note::Note;

#[derive(Clone, Copy, PartialEq, Eq, Debug)]
pub enum Message {
    /// The office to a warden: take this note.
    Take(Note),
    /// A warden to the office: I have taken that edition, or a later one.
    Took(Edition),
    /// Anybody to a warden, in a round of its own: what do you have?
    Ask(RoundNumber),
    /// A warden to who asked: this.
    Told(RoundNumber, Note),
}

/// A message about a note, and from whom it comes.
#[derive(Clone, Copy, PartialEq, Eq, Debug)]
pub struct Incoming {
    pub from: PartyId,
    pub note: NoteId,
    pub message: Message,
}

/// What a party sends at once.
#[derive(Clone, Copy, PartialEq, Eq, Debug)]
pub enum Sends {
    Nothing,
    One(PartyId, Message),
    /// One such message to each warden, in their order.
    Each(Message),
}
