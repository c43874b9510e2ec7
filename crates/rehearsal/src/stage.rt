// The parties and what is on its way between them. Whatever a party does is a step of `parties` or `parties_tables`.
ghost use Rattle.std.specs.Prelude.{◌≡◌, ◌<◌, true, [], ◌++◌, map, option_map, option_and_then, IfOk, vec_len, OnOk};
ghost use Rattle.register.specs.Note.{none};
ghost use Rattle.notes.specs.Views.{bytes_of, members};
ghost use Rattle.protocol.specs.Message.{packets};
ghost use Rattle.protocol.specs.Reader.{Reader as AnyReader, ReaderDone, new_reader, read_on};
ghost use Rattle.protocol.specs.Step.{Step};
ghost use Rattle.protocol_tables.specs.Keep.{empty};
ghost use Rattle.protocol_tables.specs.Office.{empty_office, office_writes, office_ticks};
ghost use Rattle.parties.specs.Readers.{reader_of};
ghost use Rattle.parties.specs.Views.{message_of, sends_of, reader_outcome, Did};
ghost use Rattle.parties_tables.specs.Offices.{letter_of};
ghost use Rattle.rehearsal.specs.Parties.{party_number};
ghost use Rattle.rehearsal.specs.Casts.{numbers_by, numbers_of};
ghost use Rattle.rehearsal.specs.Seeds.{answer_by};
ghost use Rattle.rehearsal.specs.Ways.{packets_of};
ghost use Rattle.rehearsal.specs.Scenes.{scene_of, wardens_of, posted, by_office, Stays, OfficeMade, WardenMade, ReaderMade, ticked, at_office, at_warden, at_reader, Arrived, sending, Lied, Answered, seed_state, seed_after, IfTurnedAway};

use crate::cast::Cast;
use crate::command::Saying;
use crate::failure::Failure;
use crate::liar::Seed;
use crate::party::Party;
use crate::reader_id::ReaderId;
use crate::script_error::ScriptError;
use crate::way::{Packet, Way};
use notes::ids::{NoteId, OFFICE, PartyId};
use notes::quorum::Quorum;
use notes::value::Value;
use notes::warden_id::WardenId;
use parties::message::{Message, Sends};
use parties::reader::Reader;
use parties::step::{OfficeOutcome, ReaderOutcome, ReaderStep, WardenOutcome};
use parties_tables::office::Letter;
use std::alloc::{AllocError, Global};

/// The parties, the seed by which liars answer, and what is on its way.
#[derive(Drop)]
pub struct Stage {
    pub heap: Global,
    pub cast: Cast,
    pub seed: Option<Seed>,
    pub way: Way,
}

/// To whom a message came, and what it came to there.
#[derive(Clone, Copy, PartialEq, Eq, Debug)]
pub enum Arrival {
    Office(OfficeOutcome),
    Warden(WardenOutcome),
    Reader(ReaderOutcome),
    /// A liar, who does not keep to the rules.
    Liar,
    Nobody,
}

impl Stage {
    /// Nothing has happened yet, and nobody lies.
    pub fn new(heap: Global, quorum: Quorum) -> Result<Stage, AllocError>
        ensures scene { IfOk result (λ s. scene_of s ≡ record { office = empty_office; warden = λ i. empty none; reader = λ j. new_reader 1; on_way = [] }) }
        ensures wardens { IfOk result (λ s. (wardens_of s ≡ quorum.wardens) × (vec_len s.cast.wardens ≡ quorum.wardens)) }
    {
        Ok(Stage {
            heap,
            cast: Cast::new(heap, quorum)?,
            seed: None,
            way: Way::new(heap),
        })
    }

    /// The office is to write this value of a note.
    pub fn write(&mut self, note: NoteId, value: Value) -> Result<OfficeOutcome, AllocError>
        ensures stays { Stays self.old self.new }
        ensures did { IfOk result (OfficeMade self.old self.new (office_writes (scene_of self.old).office note.0 (bytes_of value))) }
    {
        let step = self.cast.office.write(note, value)?;
        self.send(OFFICE, note, step.sends)?;
        Ok(step.outcome)
    }

    /// Time passes for the office: whatever it is writing is sent again.
    pub fn tick_office(&mut self) -> Result<(), AllocError>
        ensures stays { Stays self.old self.new }
        ensures scene { OnOk result (scene_of self.new ≡ by_office (wardens_of self.old) (office_ticks (scene_of self.old).office) (scene_of self.old)) }
    {
        let letters = self.cast.office.tick(self.heap)?;
        self.post(&letters)
    }

    // The office sends its letters, one after the other.
    fn post(&mut self, letters: &[Letter]) -> Result<(), AllocError>
        ensures cast { self.new.cast ≡ self.old.cast }
        ensures seed { self.new.seed ≡ self.old.seed }
        ensures way { OnOk result (packets_of self.new.way ≡ packets_of self.old.way ++ posted (wardens_of self.old) (map letter_of letters.now)) }
    {
        for letter in letters {
            self.send(OFFICE, letter.note, letter.sends)?;
        }
        Ok(())
    }

    /// A reader begins to read a note.
    pub fn read(&mut self, reader: ReaderId, note: NoteId) -> Result<ReaderOutcome, AllocError>
        ensures stays { Stays self.old self.new }
        ensures did { IfOk result (ReaderMade self.old self.new reader.index (read_on ((scene_of self.old).reader reader.index) note.0)) }
    {
        let mut party = *self.cast.readers.get(reader);
        let step = party.read(note);
        self.reader_made(reader, party, step)
    }

    /// Time passes for a reader.
    pub fn tick_reader(&mut self, reader: ReaderId) -> Result<ReaderOutcome, AllocError>
        ensures stays { Stays self.old self.new }
        ensures did { IfOk result (ReaderMade self.old self.new reader.index (ticked self.old reader.index)) }
    {
        let mut party = *self.cast.readers.get(reader);
        let step = party.tick();
        self.reader_made(reader, party, step)
    }

    /// A message comes to whom it is for.
    pub fn arrive(&mut self, packet: Packet) -> Result<Arrival, AllocError>
        ensures stays { Stays self.old self.new }
        ensures arrived { IfOk result (Arrived self.old self.new packet) }
    {
        match Party::try_from(packet.to) {
            Ok(Party::Office) => Ok(Arrival::Office(self.to_office(packet)?)),
            Ok(Party::Warden(warden)) => self.to_warden(warden, packet),
            Ok(Party::Reader(reader)) => Ok(Arrival::Reader(self.to_reader(reader, packet)?)),
            Err(_) => Ok(Arrival::Nobody),
        }
    }

    // What comes to a liar changes nothing.
    fn to_warden(&mut self, warden: WardenId, packet: Packet) -> Result<Arrival, AllocError>
        ensures stays { Stays self.old self.new }
        ensures arrived { packet.to.0 ≡ warden.index → IfOk result (Arrived self.old self.new packet) }
    {
        if !self.cast.is_there(warden) {
            return Ok(Arrival::Nobody);
        }
        if self.cast.is_liar(warden) {
            return Ok(Arrival::Liar);
        }
        Ok(Arrival::Warden(self.to_honest(warden, packet)?))
    }

    fn to_office(&mut self, packet: Packet) -> Result<OfficeOutcome, AllocError>
        ensures stays { Stays self.old self.new }
        ensures did { IfOk result (OfficeMade self.old self.new (at_office self.old packet)) }
    {
        let step = self.cast.office.on(packet.incoming());
        self.send(OFFICE, packet.note, step.sends)?;
        Ok(step.outcome)
    }

    fn to_honest(&mut self, warden: WardenId, packet: Packet) -> Result<WardenOutcome, AllocError>
        requires { warden.index < vec_len self.old.cast.wardens }
        ensures stays { Stays self.old self.new }
        ensures did { IfOk result (WardenMade self.old self.new warden.index packet.note.0 (at_warden self.old warden.index packet)) }
    {
        let step = self.cast.hear(warden, packet.incoming())?;
        self.send(warden.into(), packet.note, step.sends)?;
        Ok(step.outcome)
    }

    fn to_reader(&mut self, reader: ReaderId, packet: Packet) -> Result<ReaderOutcome, AllocError>
        ensures stays { Stays self.old self.new }
        ensures did { IfOk result (ReaderMade self.old self.new reader.index (at_reader self.old reader.index packet)) }
    {
        let mut party = *self.cast.readers.get(reader);
        let step = party.on(packet.incoming());
        self.reader_made(reader, party, step)
    }

    // A reader has made a step, and this is what it has now.
    fn reader_made(
        &mut self,
        id: ReaderId,
        reader: Reader,
        step: ReaderStep,
    ) -> Result<ReaderOutcome, AllocError>
        ensures stays { numbers_by reader ≡ numbers_of self.old.cast.readers id.index → Stays self.old self.new }
        ensures did { (rule : Step AnyReader ReaderDone) → Did (reader_of reader) (sends_of step.sends) (reader_outcome step.outcome) rule → IfOk result (ReaderMade self.old self.new id.index rule) }
    {
        self.cast.readers.set(id, reader);
        self.send(id.into(), reader.note, step.sends)?;
        Ok(step.outcome)
    }

    // What a party sends about a note goes behind all that is on its way.
    fn send(&mut self, from: PartyId, note: NoteId, sends: Sends) -> Result<(), AllocError>
        ensures cast { self.new.cast ≡ self.old.cast }
        ensures seed { self.new.seed ≡ self.old.seed }
        ensures way { OnOk result (packets_of self.new.way ≡ packets_of self.old.way ++ packets (wardens_of self.old) from.0 note.0 (sends_of sends)) }
    {
        self.way
            .send(self.cast.office.quorum.wardens, from, note, sends)
    }

    /// A liar sends what it likes, to somebody who takes part.
    pub fn say(&mut self, saying: Saying) -> Result<(), Failure>
        ensures stays { Stays self.old self.new }
        ensures said { OnOk result ((members self.old.cast.liars saying.liar.index ≡ true) × (scene_of self.new ≡ sending saying.liar.index (party_number saying.to) saying.note.0 (message_of saying.message) (scene_of self.old))) }
        ensures unchanged { IfTurnedAway result (self.new ≡ self.old) }
    {
        if !self.cast.is_liar(saying.liar) {
            return Err(ScriptError::NotALiar.into());
        }
        if let Party::Warden(to) = saying.to
            && !self.cast.is_there(to)
        {
            return Err(ScriptError::NoSuchWarden.into());
        }
        self.way.put(
            saying.liar.into(),
            saying.to.into(),
            saying.note,
            saying.message,
        )?;
        Ok(())
    }

    /// The liar to whom a message came answers by the seed, if there is one.
    pub fn lie(&mut self, packet: Packet) -> Result<(), AllocError>
        ensures cast { self.new.cast ≡ self.old.cast }
        ensures lied { OnOk result (Lied (scene_of self.old) (scene_of self.new) packet) }
        ensures answered { OnOk result (Answered self.old self.new packet) }
        ensures seed { seed_state self.new ≡ seed_after self.old (message_of packet.message) }
    {
        let Some(message) = self.made_up(packet.message) else {
            return Ok(());
        };
        let to = match message {
            Message::Took(_) => OFFICE,
            _ => packet.from,
        };
        self.way.put(packet.to, to, packet.note, message)
    }

    fn made_up(&mut self, message: Message) -> Option<Message>
        ensures said { option_map message_of result ≡ option_and_then (λ s. answer_by s.state (message_of message)) self.old.seed }
        ensures cast { self.new.cast ≡ self.old.cast }
        ensures way { self.new.way ≡ self.old.way }
        ensures seed { seed_state self.new ≡ seed_after self.old (message_of message) }
    {
        self.seed.as_mut()?.answer(message)
    }
}
