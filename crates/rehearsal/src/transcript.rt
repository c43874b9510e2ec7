// What a rehearsal tells, line by line.
ghost use Rattle.std.specs.Prelude.{◌≡◌, [], string_bytes};

use crate::cast::Cast;
use crate::reader_id::ReaderId;
use crate::script_error::ScriptError;
use crate::stage::{Arrival, Stage};
use crate::way::{Packet, Way};
use notes::ids::{NoteId, PartyId};
use notes::note::Note;
use notes::quorum::Quorum;
use notes::warden_id::WardenId;
use parties::desk::Desk;
use parties::step::{
    OfficeDone, OfficeOutcome, ReaderDone, ReaderOutcome, WardenDone, WardenOutcome,
};
use parties_tables::office::Office;
use parties_tables::warden::Warden;
use std::alloc::{AllocError, Global};

/// The lines so far.
#[derive(Drop)]
pub struct Transcript {
    pub text: String,
}

impl Transcript {
    pub fn new(heap: Global) -> Transcript
        ensures { string_bytes result.text ≡ [] }
    {
        Transcript {
            text: String::new(heap),
        }
    }

    /// A remark of the script, as it stands.
    pub fn remark(&mut self, line: &str) -> Result<(), AllocError> {
        writeln!(self.text, "{line}")
    }

    /// A command, before it is done.
    pub fn echo(&mut self, line: &str) -> Result<(), AllocError> {
        writeln!(self.text, "> {line}")
    }

    /// Why a line of the script is turned away.
    pub fn turned_away(&mut self, line: u64, error: ScriptError) -> Result<(), AllocError> {
        writeln!(self.text, "line {line}: {error}")
    }

    pub fn begins(&mut self, quorum: Quorum) -> Result<(), AllocError> {
        let Quorum { wardens, faults } = quorum;
        writeln!(self.text, "  {wardens} wardens, of whom {faults} may lie")
    }

    pub fn turns(&mut self, warden: WardenId) -> Result<(), AllocError> {
        writeln!(self.text, "  {warden} lies from now on")
    }

    pub fn forgets(&mut self, warden: WardenId) -> Result<(), AllocError> {
        writeln!(self.text, "  {warden} has lost its notes")
    }

    pub fn seeds(&mut self, seed: u64) -> Result<(), AllocError> {
        writeln!(self.text, "  liars answer by the seed {seed}")
    }

    /// What the office did when it was told to write a note, of which it now has this.
    pub fn writes(
        &mut self,
        note: NoteId,
        now: Note,
        outcome: OfficeOutcome,
    ) -> Result<(), AllocError> {
        match outcome {
            Err(refusal) => writeln!(self.text, "  office: {refusal}"),
            _ => writeln!(self.text, "  office begins note {note} edition {now}"),
        }
    }

    /// What the office did when time passed.
    pub fn office_ticks(&mut self, office: &Office) -> Result<(), AllocError> {
        if office.under_way.is_empty() {
            writeln!(self.text, "  office: nothing to do")
        } else {
            writeln!(self.text, "  office sends again")
        }
    }

    /// What a reader did when it was told to read, or when time passed.
    pub fn reader(
        &mut self,
        cast: &Cast,
        reader: ReaderId,
        outcome: ReaderOutcome,
    ) -> Result<(), AllocError> {
        let id = PartyId::from(reader);
        match outcome {
            Ok(ReaderDone::Asked | ReaderDone::Retried) => {
                let reader = cast.readers.get(reader);
                let note = reader.note;
                let round = reader.round.number;
                writeln!(self.text, "  {id} begins round {round} of note {note}")
            }
            Ok(ReaderDone::AskedAgain) => writeln!(self.text, "  {id} asks again"),
            Err(refusal) => writeln!(self.text, "  {id}: {refusal}"),
            _ => writeln!(self.text, "  {id}: nothing to do"),
        }
    }

    /// A message came to whom it was for.
    pub fn comes(
        &mut self,
        cast: &Cast,
        packet: Packet,
        arrival: Arrival,
    ) -> Result<(), AllocError> {
        write!(self.text, "  {}: comes to {}", packet.number, packet.to)?;
        match arrival {
            Arrival::Office(outcome) => {
                self.office_came_to(packet.note, cast.written(packet.note), outcome)
            }
            Arrival::Warden(outcome) => self.warden_came_to(outcome),
            Arrival::Reader(outcome) => self.reader_came_to(packet.note, outcome),
            Arrival::Liar => writeln!(self.text, ", who lies"),
            Arrival::Nobody => writeln!(self.text, ", who is not there"),
        }
    }

    // The rest of a line: what a message about a note came to, at the office, at a warden, at a reader.
    fn office_came_to(
        &mut self,
        note: NoteId,
        now: Note,
        outcome: OfficeOutcome,
    ) -> Result<(), AllocError> {
        match outcome {
            Ok(OfficeDone::Ended) => writeln!(self.text, ": ended {note} {}", now.edition),
            Err(refusal) => writeln!(self.text, ": {refusal}"),
            _ => writeln!(self.text, ": counted"),
        }
    }

    fn warden_came_to(&mut self, outcome: WardenOutcome) -> Result<(), AllocError> {
        match outcome {
            Ok(WardenDone::Taken) => writeln!(self.text, ": taken"),
            Ok(WardenDone::Answered) => writeln!(self.text, ": answered"),
            Err(refusal) => writeln!(self.text, ": {refusal}"),
        }
    }

    fn reader_came_to(&mut self, note: NoteId, outcome: ReaderOutcome) -> Result<(), AllocError> {
        match outcome {
            Ok(ReaderDone::Undecided) => writeln!(self.text, ": undecided"),
            Ok(ReaderDone::Read(read)) => writeln!(self.text, ": note {note} {read}"),
            Ok(ReaderDone::Unsure) => writeln!(self.text, ": unsure {note}"),
            Err(refusal) => writeln!(self.text, ": {refusal}"),
            _ => writeln!(self.text, ": heard"),
        }
    }

    /// The messages that are behind the first so many: those that were sent last.
    pub fn sent(&mut self, way: &Way, before: usize) -> Result<(), AllocError> {
        for packet in way.packets.iter().skip(before) {
            writeln!(self.text, "  {packet}")?;
        }
        Ok(())
    }

    /// What became of a message on its way.
    pub fn became(&mut self, packet: Packet, what: &str) -> Result<(), AllocError> {
        writeln!(self.text, "  {}: {what}", packet.number)
    }

    pub fn nothing_comes(&mut self) -> Result<(), AllocError> {
        writeln!(self.text, "  nothing is on its way")
    }

    pub fn stops(&mut self, delivered: u32) -> Result<(), AllocError> {
        writeln!(self.text, "  stopped after {delivered} messages")
    }

    /// What each party has, and how much is on its way.
    pub fn show(&mut self, stage: &Stage) -> Result<(), AllocError> {
        self.show_office(&stage.cast.office)?;
        let ids = (0..63).filter_map(WardenId::new);
        for (id, warden) in ids.zip(&stage.cast.wardens) {
            self.show_warden(&stage.cast, id, warden)?;
        }
        for reader in ReaderId::all() {
            self.show_reader(&stage.cast, reader)?;
        }
        writeln!(self.text, "  on the way: {}", stage.way.packets.len())
    }

    fn show_office(&mut self, office: &Office) -> Result<(), AllocError> {
        if office.desks.count() == 0 {
            return writeln!(self.text, "  office: no notes");
        }
        for (number, desk) in office.desks.iter() {
            self.show_desk(*number, desk)?;
        }
        Ok(())
    }

    fn show_desk(&mut self, note: NoteId, desk: &Desk) -> Result<(), AllocError> {
        let now = desk.now;
        let acks = desk.acks;
        let writing = if desk.busy {
            "being written"
        } else {
            "not being written"
        };
        writeln!(
            self.text,
            "  office: note {note} edition {now}, {writing}, taken by{acks}"
        )
    }

    fn show_warden(
        &mut self,
        cast: &Cast,
        id: WardenId,
        warden: &Warden,
    ) -> Result<(), AllocError> {
        let lies = if cast.is_liar(id) { ", who lies" } else { "" };
        if warden.notes.count() == 0 {
            return writeln!(self.text, "  {id}{lies}: no notes");
        }
        for (number, note) in warden.notes.iter() {
            writeln!(self.text, "  {id}{lies}: note {number} edition {note}")?;
        }
        Ok(())
    }

    // A reader that never began to read is passed over.
    fn show_reader(&mut self, cast: &Cast, reader: ReaderId) -> Result<(), AllocError> {
        if !cast.readers.has_read(reader) {
            return Ok(());
        }
        let id = PartyId::from(reader);
        let reader = cast.readers.get(reader);
        let note = reader.note;
        let round = reader.round.number;
        if !reader.busy {
            return writeln!(self.text, "  {id}: not reading, round {round} was its last");
        }
        let heard = reader.round.heard;
        writeln!(
            self.text,
            "  {id}: reading note {note} in round {round}, told by{heard}"
        )
    }
}
