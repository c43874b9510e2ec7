// The office: it writes many notes, several at once.
ghost use Rattle.std.specs.Prelude.{◌≡◌, map, IfOk, MatchResult};
ghost use Rattle.notes.specs.Views.{bytes_of};
ghost use Rattle.parties.specs.Desks.{desk_of};
ghost use Rattle.protocol.specs.Office.{office_on};
ghost use Rattle.parties.specs.Views.{message_of, sends_of, office_outcome, Did as DidAt};
ghost use Rattle.protocol_tables.specs.Office.{empty_office, office_writes, office_hears, again, office_ticks, close_writing, without};
ghost use Rattle.protocol_tables.specs.Runs.{OfficeHears, OfficeWrites, OfficeTicks};
ghost use Rattle.parties_tables.specs.Keeps.{Stored};
ghost use Rattle.parties_tables.specs.Offices.{number_of, office_of, letter_about, letter_of, Begun, Did};

use crate::room::if_placed;
use notes::ids::{Edition, NoteId};
use notes::quorum::Quorum;
use notes::value::Value;
use notes_table::table::Table;
use notes_table::unplaced::Unplaced;
use parties::desk::Desk;
use parties::message::{Incoming, Message, Sends};
use parties::step::{OfficeDone, OfficeStep};
use std::alloc::{AllocError, Global};

/// A desk for each note, and the notes that are being written, in the order in which those writings began.
#[derive(Drop)]
pub struct Office {
    pub quorum: Quorum,
    pub desks: Table<Desk>,
    pub under_way: Vec<NoteId>,
}

/// What is sent about a note.
#[derive(Clone, Copy)]
pub struct Letter {
    pub note: NoteId,
    pub sends: Sends,
}

impl Office {
    /// An office that has written nothing.
    pub fn new(heap: Global, quorum: Quorum) -> Office
        ensures quorum { result.quorum ≡ quorum }
        ensures office { office_of result ≡ empty_office }
    {
        Office {
            quorum,
            desks: Table::new(heap),
            under_way: Vec::new(heap),
        }
    }

    /// What it has of a note.
    pub fn desk(&self, number: NoteId) -> Desk
        ensures { desk_of result ≡ (office_of self.now).desks.at number.0 }
    {
        self.desks.get(number).unwrap_or(Desk::new())
    }

    /// The next edition of a note is to have this value.
    pub fn write(&mut self, number: NoteId, value: Value) -> Result<OfficeStep, AllocError>
        ensures quorum { self.new.quorum ≡ self.old.quorum }
        ensures did { MatchResult result (λ step. Did (office_of self.new) (letter_about number.0 (sends_of step.sends)) (office_outcome step.outcome) (office_writes (office_of self.old) number.0 (bytes_of value))) (λ _. office_of self.new ≡ office_of self.old) }
        ensures runs { IfOk result (λ step. OfficeWrites self.old.quorum.wardens self.old.quorum.faults (office_of self.old) number.0 (record { next = (office_of self.new); letters = letter_about number.0 (sends_of step.sends); outcome = office_outcome step.outcome })) }
    {
        self.begin_writing(number, value)
    }

    fn begin_writing(&mut self, number: NoteId, value: Value) -> Result<OfficeStep, AllocError>
        ensures quorum { self.new.quorum ≡ self.old.quorum }
        ensures did { MatchResult result (λ step. Did (office_of self.new) (letter_about number.0 (sends_of step.sends)) (office_outcome step.outcome) (office_writes (office_of self.old) number.0 (bytes_of value))) (λ _. office_of self.new ≡ office_of self.old) }
    {
        let mut desk = self.desk(number);
        let step = desk.write(value);
        let Ok(OfficeDone::Begun) = step.outcome else {
            return Ok(step);
        };
        if_placed(self.begin(number, desk), step)
    }

    // The writing of a note is under way from now on, if there is room: all of it or nothing.
    fn begin(&mut self, number: NoteId, desk: Desk) -> Result<(), Unplaced>
        ensures quorum { self.new.quorum ≡ self.old.quorum }
        ensures begun { Begun number.0 (desk_of desk) (office_of self.old) (office_of self.new) result }
    {
        self.under_way.reserve(1)?;
        self.keep(number, desk)?;
        self.under_way.push_reserved(number);
        Ok(())
    }

    // Has the desk from now on, if there is room. What the rules see of it differs from what they see of a warden's note.
    #[tactic(auto, using(crate::proofs::Tables::desk_stored))]
    fn keep(&mut self, number: NoteId, desk: Desk) -> Result<(), Unplaced>
        ensures quorum { self.new.quorum ≡ self.old.quorum }
        ensures order { self.new.under_way ≡ self.old.under_way }
        ensures kept { Stored number.0 (desk_of desk) (office_of self.old).desks (office_of self.new).desks result }
    {
        self.desks.put(number, desk)
    }

    /// What it does with a message about a note.
    pub fn on(&mut self, incoming: Incoming) -> OfficeStep
        ensures quorum { self.new.quorum ≡ self.old.quorum }
        ensures did { Did (office_of self.new) (letter_about incoming.note.0 (sends_of result.sends)) (office_outcome result.outcome) (office_hears self.old.quorum.wardens self.old.quorum.faults (office_of self.old) incoming.from.0 incoming.note.0 (message_of incoming.message)) }
        ensures runs { OfficeHears self.old.quorum.wardens self.old.quorum.faults (office_of self.old) incoming.from.0 incoming.note.0 (message_of incoming.message) (record { next = (office_of self.new); letters = letter_about incoming.note.0 (sends_of result.sends); outcome = office_outcome result.outcome }) }
    {
        self.receive(incoming)
    }

    fn receive(&mut self, incoming: Incoming) -> OfficeStep
        ensures quorum { self.new.quorum ≡ self.old.quorum }
        ensures did { Did (office_of self.new) (letter_about incoming.note.0 (sends_of result.sends)) (office_outcome result.outcome) (office_hears self.old.quorum.wardens self.old.quorum.faults (office_of self.old) incoming.from.0 incoming.note.0 (message_of incoming.message)) }
    {
        let number = incoming.note;
        let (desk, step) = self.hear(incoming);
        match step.outcome {
            Ok(OfficeDone::Counted) => {
                let _ = self.desks.set(number, desk);
            }
            Ok(OfficeDone::Ended) => {
                let _ = self.desks.set(number, desk);
                remove(&mut self.under_way, number);
            }
            _ => {}
        }
        step
    }

    // What the desk of a note makes of a message about it, and what the desk is then.
    #[tactic(auto, using(crate::proofs::Hearing::at_desk))]
    fn hear(&self, incoming: Incoming) -> (Desk, OfficeStep)
        ensures { DidAt (desk_of result.0) (sends_of result.1.sends) (office_outcome result.1.outcome) (office_on self.now.quorum.wardens self.now.quorum.faults ((office_of self.now).desks.at incoming.note.0) incoming.from.0 (message_of incoming.message)) }
    {
        let mut desk = self.desk(incoming.note);
        let step = desk.on(&self.quorum, incoming.from, incoming.message);
        (desk, step)
    }

    /// The writing of an edition has come to an end before, if it is the one that is being written.
    pub fn close(&mut self, number: NoteId, edition: Edition)
        ensures quorum { self.new.quorum ≡ self.old.quorum }
        ensures closed { office_of self.new ≡ close_writing (office_of self.old) number.0 edition.0 }
    {
        let mut ended = self.desk(number);
        if ended.busy && edition == ended.now.edition {
            ended.busy = false;
            let _ = self.desks.set(number, ended);
            remove(&mut self.under_way, number);
        }
    }

    /// It is time to send again: each writing under way, in the order in which they began.
    pub fn tick(&self, heap: Global) -> Result<Vec<Letter>, AllocError>
        ensures did { IfOk result (λ letters. map letter_of letters.items ≡ (office_ticks (office_of self.now)).letters) }
        ensures runs { IfOk result (λ letters. OfficeTicks self.now.quorum.wardens self.now.quorum.faults (office_of self.now) (record { next = (office_of self.now); letters = map letter_of letters.items; outcome = (office_ticks (office_of self.now)).outcome })) }
    {
        self.letters(heap)
    }

    fn letters(&self, heap: Global) -> Result<Vec<Letter>, AllocError>
        ensures { IfOk result (λ letters. map letter_of letters.items ≡ (office_ticks (office_of self.now)).letters) }
    {
        // Of a desk only what the rules see of it is known, so no chain can say which letters these are.
        let mut letters = Vec::new(heap);
        for number in &self.under_way {
            letters.push(self.again(*number))?;
        }
        Ok(letters)
    }

    fn again(&self, number: NoteId) -> Letter
        ensures { letter_of result ≡ again (office_of self.now).desks number.0 }
    {
        Letter {
            note: number,
            sends: Sends::Each(Message::Take(self.desk(number).now)),
        }
    }
}

// Leaves a number out, wherever it stands.
fn remove(numbers: &mut Vec<NoteId>, number: NoteId)
    ensures { map number_of numbers.new.items ≡ without number.0 (map number_of numbers.old.items) }
{
    numbers.retain(|other| *other != number);
}
