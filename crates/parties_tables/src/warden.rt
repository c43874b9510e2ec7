// A warden: it has many notes.
ghost use Rattle.std.specs.Prelude.{◌≡◌, IfOk, MatchResult};
ghost use Rattle.register.specs.Note.{none};
ghost use Rattle.notes.specs.Views.{note_of};
ghost use Rattle.parties.specs.Views.{message_of, sends_of, warden_outcome, made, Did, ForQuorums};
ghost use Rattle.protocol_tables.specs.Keep.{empty};
ghost use Rattle.protocol_tables.specs.Warden.{warden_keeps};
ghost use Rattle.protocol_tables.specs.Runs.{WardenHears};
ghost use Rattle.parties_tables.specs.Keeps.{Stored};
ghost use Rattle.parties_tables.specs.Wardens.{notes_of};

use crate::room::if_placed;
use notes::ids::NoteId;
use notes::note::Note;
use notes_table::table::Table;
use notes_table::unplaced::Unplaced;
use parties::message::Incoming;
use parties::slot::Slot;
use parties::step::{WardenDone, WardenStep};
use std::alloc::{AllocError, Global};

/// What it has of each note.
#[derive(Drop)]
pub struct Warden {
    pub notes: Table<Note>,
}

impl Warden {
    /// A warden that has nothing.
    pub fn new(heap: Global) -> Warden
        ensures { notes_of result ≡ empty none }
    {
        Warden {
            notes: Table::new(heap),
        }
    }

    /// What it has of a note: edition 0 and no value, where it has nothing.
    pub fn note(&self, number: NoteId) -> Note
        ensures { note_of result ≡ (notes_of self.now).at number.0 }
    {
        self.notes.get(number).unwrap_or(Note::none())
    }

    /// What it does with a message about a note.
    pub fn on(&mut self, incoming: Incoming) -> Result<WardenStep, AllocError>
        ensures did { MatchResult result (λ step. Did (notes_of self.new) (sends_of step.sends) (warden_outcome step.outcome) (warden_keeps (notes_of self.old) incoming.from.0 incoming.note.0 (message_of incoming.message))) (λ _. notes_of self.new ≡ notes_of self.old) }
        ensures runs { IfOk result (λ step. ForQuorums (λ n f. WardenHears n f (notes_of self.old) incoming.from.0 incoming.note.0 (message_of incoming.message) (made (notes_of self.new) (sends_of step.sends) (warden_outcome step.outcome)))) }
    {
        self.receive(incoming)
    }

    fn receive(&mut self, incoming: Incoming) -> Result<WardenStep, AllocError>
        ensures { MatchResult result (λ step. Did (notes_of self.new) (sends_of step.sends) (warden_outcome step.outcome) (warden_keeps (notes_of self.old) incoming.from.0 incoming.note.0 (message_of incoming.message))) (λ _. notes_of self.new ≡ notes_of self.old) }
    {
        let mut slot = Slot {
            held: self.note(incoming.note),
        };
        let step = slot.on(incoming.from, incoming.message);
        let Ok(WardenDone::Taken) = step.outcome else {
            return Ok(step);
        };
        if_placed(self.keep(incoming.note, slot.held), step)
    }

    // Has the note from now on, if there is room.
    fn keep(&mut self, number: NoteId, note: Note) -> Result<(), Unplaced>
        ensures { Stored number.0 (note_of note) (notes_of self.old) (notes_of self.new) result }
    {
        self.notes.put(number, note)
    }
}
