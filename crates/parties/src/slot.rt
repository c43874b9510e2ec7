// A warden's place for one note.
ghost use Rattle.std.specs.Prelude.{◌≡◌};
ghost use Rattle.register.specs.Note.{none};
ghost use Rattle.notes.specs.Views.{note_of};
ghost use Rattle.protocol.specs.Message.{One, Took};
ghost use Rattle.protocol.specs.Warden.{warden_on, ask_on};
ghost use Rattle.protocol.specs.Runs.{WardenHears};
ghost use Rattle.parties.specs.Views.{message_of, sends_of, warden_outcome, made, Did, ForQuorums};
ghost use Rattle.parties.specs.Standings.{standing_of};

use crate::message::{Message, Sends};
use crate::refusal::Refusal;
use crate::step::{Step, WardenDone, WardenOutcome, WardenStep};
use notes::ids::{Edition, OFFICE, PartyId, RoundNumber};
use notes::note::Note;

/// What it has of the note; at first nothing.
#[derive(Clone, Copy, PartialEq, Eq, Debug)]
pub struct Slot {
    pub held: Note,
}

/// How a message stands to the note that is held: whether the edition that it speaks of is above. It has a name since what is done goes by
/// it first, and then by the message.
#[derive(Clone, Copy, PartialEq, Eq, Debug)]
pub enum Standing {
    Above,
    NotAbove,
}

impl Slot {
    pub fn new() -> Slot
        ensures { note_of result.held ≡ none }
    {
        Slot { held: Note::none() }
    }

    /// A message of which `Ask` speaks of no edition.
    fn standing(&self, message: &Message) -> Standing
        ensures { result ≡ standing_of (note_of self.now.held) (message_of message.now) }
    {
        let edition = match message {
            Message::Take(note) => note.edition,
            Message::Took(edition) => *edition,
            Message::Ask(_) => self.held.edition,
            Message::Told(_, note) => note.edition,
        };
        if edition > self.held.edition {
            Standing::Above
        } else {
            Standing::NotAbove
        }
    }

    /// What it does with a message from a party.
    pub fn on(&mut self, from: PartyId, message: Message) -> WardenStep
        ensures did { Did (note_of self.new.held) (sends_of result.sends) (warden_outcome result.outcome) (warden_on (note_of self.old.held) from.0 (message_of message)) }
        ensures runs { ForQuorums (λ n f. WardenHears n f (note_of self.old.held) from.0 (message_of message) (made (note_of self.new.held) (sends_of result.sends) (warden_outcome result.outcome))) }
    {
        self.receive(from, message)
    }

    fn receive(&mut self, from: PartyId, message: Message) -> WardenStep
        ensures { Did (note_of self.new.held) (sends_of result.sends) (warden_outcome result.outcome) (warden_on (note_of self.old.held) from.0 (message_of message)) }
    {
        match self.standing(&message) {
            Standing::Above => match message {
                Message::Take(note) if from.is_office() => {
                    self.held = note;
                    took(note.edition, Ok(WardenDone::Taken))
                }
                Message::Ask(round) => self.told(from, round),
                Message::Take(_) | Message::Took(_) | Message::Told(_, _) => Step::refused(
                    Refusal::Malformed,
                ),
            },
            Standing::NotAbove => match message {
                Message::Take(note) if from.is_office() => took(
                    note.edition,
                    Err(Refusal::NotAbove),
                ),
                Message::Ask(round) => self.told(from, round),
                Message::Take(_) | Message::Took(_) | Message::Told(_, _) => Step::refused(
                    Refusal::Malformed,
                ),
            },
        }
    }

    fn told(&self, to: PartyId, round: RoundNumber) -> WardenStep
        ensures { Did (note_of self.now.held) (sends_of result.sends) (warden_outcome result.outcome) (ask_on (note_of self.now.held) to.0 round.0) }
    {
        Step {
            outcome: Ok(WardenDone::Answered),
            sends: Sends::One(to, Message::Told(round, self.held)),
        }
    }
}

// It says that it took the edition.
fn took(edition: Edition, outcome: WardenOutcome) -> WardenStep
    ensures sends { sends_of result.sends ≡ One 63 (Took edition.0) }
    ensures outcome { result.outcome ≡ outcome }
{
    Step {
        outcome,
        sends: Sends::One(OFFICE, Message::Took(edition)),
    }
}
