// The parties of a rehearsal.
ghost use Rattle.std.specs.Prelude.{◌≡◌, ℕ, ◌<◌, ◌≤◌, true, false, IfOk, vec_len, MatchResult, nat_lt};
ghost use Rattle.register.specs.Count.{put};
ghost use Rattle.register.specs.Note.{none};
ghost use Rattle.notes.specs.Views.{members, note_of};
ghost use Rattle.protocol.specs.Reader.{new_reader};
ghost use Rattle.protocol_tables.specs.Keep.{empty};
ghost use Rattle.protocol_tables.specs.Office.{empty_office};
ghost use Rattle.parties.specs.Views.{message_of, sends_of, warden_outcome};
ghost use Rattle.parties_tables.specs.Offices.{office_of};
ghost use Rattle.rehearsal.specs.Casts.{keeps_of, readers_of, numbers_of, HeardBy};

use crate::readers::Readers;
use crate::script_error::ScriptError;
use notes::ids::{NoteId, PartyId};
use notes::note::Note;
use notes::quorum::Quorum;
use notes::warden_id::WardenId;
use notes::warden_set::WardenSet;
use parties::message::Incoming;
use parties::step::WardenStep;
use parties_tables::office::Office;
use parties_tables::warden::Warden;
use std::alloc::{AllocError, Global};

/// The office, the wardens that take part, and all readers, who are there from the start.
#[derive(Drop)]
pub struct Cast {
    pub office: Office,
    pub wardens: Vec<Warden>,
    pub readers: Readers,
    pub liars: WardenSet,
}

// So many wardens that have nothing. Of a new one only what it has is known, of which no chain can speak: so this is a loop.
fn new_wardens(heap: Global, count: u8) -> Result<Vec<Warden>, AllocError>
    ensures { IfOk result (λ ws. (vec_len ws ≡ count) × (keeps_of ws.items ≡ (λ i. empty none))) }
{
    let mut wardens = Vec::new(heap);
    for made in 0..count {
        wardens.push(Warden::new(heap))?;
    }
    Ok(wardens)
}

impl Cast {
    /// Nothing has happened yet, and nobody lies.
    pub fn new(heap: Global, quorum: Quorum) -> Result<Cast, AllocError>
        ensures quorum { IfOk result (λ c. c.office.quorum ≡ quorum) }
        ensures office { IfOk result (λ c. office_of c.office ≡ empty_office) }
        ensures wardens { IfOk result (λ c. (vec_len c.wardens ≡ quorum.wardens) × (keeps_of c.wardens.items ≡ (λ i. empty none))) }
        ensures readers { IfOk result (λ c. readers_of c.readers ≡ (λ j. new_reader 1)) }
        ensures numbers { IfOk result (λ c. (j : ℕ) → j < 4 → numbers_of c.readers j ≡ (quorum.wardens, quorum.faults)) }
        ensures liars { IfOk result (λ c. members c.liars ≡ (λ i. false)) }
    {
        let wardens = new_wardens(heap, quorum.wardens)?;
        Ok(Cast {
            office: Office::new(heap, quorum),
            wardens,
            readers: Readers::new(quorum),
            liars: WardenSet::new(),
        })
    }

    /// What the office last began to write of a note.
    pub fn written(&self, note: NoteId) -> Note
        ensures { note_of result ≡ ((office_of self.now.office).desks.at note.0).now }
    {
        self.office
            .desks
            .get(note)
            .map_or(Note::none(), |desk| desk.now)
    }

    /// Whether the warden takes part.
    pub fn is_there(&self, warden: WardenId) -> bool
        ensures { result ≡ nat_lt warden.index (vec_len self.now.wardens) }
    {
        (warden.index as usize) < self.wardens.len()
    }

    /// Whether the warden lies.
    pub fn is_liar(&self, warden: WardenId) -> bool
        ensures { result ≡ members self.now.liars warden.index }
    {
        self.liars.contains(warden)
    }

    /// A warden lies from now on.
    pub fn turn(&mut self, warden: WardenId) -> Result<(), ScriptError>
        ensures liars { MatchResult result (λ _. (warden.index < vec_len self.old.wardens) × (members self.new.liars ≡ put warden.index true (members self.old.liars))) (λ _. (vec_len self.old.wardens ≤ warden.index) × (self.new ≡ self.old)) }
        ensures office { self.new.office ≡ self.old.office }
        ensures wardens { self.new.wardens ≡ self.old.wardens }
        ensures readers { self.new.readers ≡ self.old.readers }
    {
        if !self.is_there(warden) {
            return Err(ScriptError::NoSuchWarden);
        }
        self.liars = self.liars.with(warden);
        Ok(())
    }

    /// A warden loses all that it had.
    pub fn forget(&mut self, heap: Global, warden: WardenId) -> Result<(), ScriptError>
        ensures wardens { MatchResult result (λ _. (warden.index < vec_len self.old.wardens) × (keeps_of self.new.wardens.items ≡ put warden.index (empty none) (keeps_of self.old.wardens.items))) (λ _. (vec_len self.old.wardens ≤ warden.index) × (self.new ≡ self.old)) }
        ensures count { vec_len self.new.wardens ≡ vec_len self.old.wardens }
        ensures office { self.new.office ≡ self.old.office }
        ensures readers { self.new.readers ≡ self.old.readers }
        ensures liars { self.new.liars ≡ self.old.liars }
    {
        if !self.is_there(warden) {
            return Err(ScriptError::NoSuchWarden);
        }
        self.wardens[warden.index as usize] = Warden::new(heap);
        Ok(())
    }

    // What a warden that takes part does with a message about a note.
    pub(crate) fn hear(
        &mut self,
        warden: WardenId,
        incoming: Incoming,
    ) -> Result<WardenStep, AllocError>
        requires { warden.index < vec_len self.old.wardens }
        ensures did { IfOk result (λ step. HeardBy warden.index incoming.from.0 incoming.note.0 (message_of incoming.message) (keeps_of self.old.wardens.items) (keeps_of self.new.wardens.items) (sends_of step.sends) (warden_outcome step.outcome)) }
        ensures count { vec_len self.new.wardens ≡ vec_len self.old.wardens }
        ensures office { self.new.office ≡ self.old.office }
        ensures readers { self.new.readers ≡ self.old.readers }
        ensures liars { self.new.liars ≡ self.old.liars }
    {
        self.wardens[warden.index as usize].on(incoming)
    }
}
