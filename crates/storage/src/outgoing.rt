// What a party sends.
use notes::ids::{NoteId, PartyId};
use parties::message::Message;

/// A message about a note, and to whom it goes.
#[derive(Clone, Copy, PartialEq, Eq, Debug)]
pub struct Outgoing {
    pub to: PartyId,
    pub note: NoteId,
    pub message: Message,
}
