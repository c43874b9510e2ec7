// The office with its file: what it begins is on the file, synced, before it sends it, and that it has ended before it says so.
ghost use Rattle.std.specs.Prelude.{◌≡◌, ℕ, false, ◌⊎◌, ◌++◌, take, MatchResult, OnOk};
ghost use Rattle.notes.specs.Views.{bytes_of};
ghost use Rattle.parties.specs.Views.{message_of, office_outcome};
ghost use Rattle.protocol_tables.specs.Office.{empty_office, post, office_writes, office_hears};
ghost use Rattle.frames.specs.Format.{Begun, Ended, encode};
ghost use Rattle.frames.specs.declared.role.Role.TheVariants.{Office as Writing};
ghost use Rattle.storage.specs.Conditions.{settled};
ghost use Rattle.journal.specs.Openings.{Unstarted};
ghost use Rattle.parties_files.specs.Commits.{Commits};
ghost use Rattle.parties_files.specs.Promises.{OfficeRuns, OfficeHears};
ghost use Rattle.parties_files.specs.Offices.{desks_of, parcels, Replays, Recorded, Failed, Started};

use crate::outbox::{commit, send_each};
use frames::encode::{put_begun, put_ended};
use frames::frame::Frame;
use frames::role::Role;
use journal::opening::Opening;
use journal::replay::Replay;
use journal::start::start;
use notes::ids::{Edition, NoteId};
use notes::quorum::Quorum;
use notes::value::Value;
use parties::message::{Incoming, Sends};
use parties::step::{OfficeDone, OfficeOutcome};
use parties_tables::office::Office as Desks;
use std::alloc::Global;
use storage::fault::Fault;
use storage::outgoing::Outgoing;
use storage::storage::Storage;

/// What it has of each note. While it is not up, nothing comes to it.
#[derive(Drop)]
pub struct Office {
    pub heap: Global,
    pub desks: Desks,
    // By the rules a party has a memory also while it is down, so this stands beside it.
    pub up: bool,
    /// The bytes of a record on its way to the file.
    pub encoded: Vec<u8>,
}

impl Office {
    /// An office that is to open its file.
    pub fn new(heap: Global, quorum: Quorum) -> Office
        ensures up { result.up ≡ false }
        ensures quorum { result.desks.quorum ≡ quorum }
        ensures desks { desks_of result ≡ empty_office }
    {
        Office {
            heap,
            desks: Desks::new(heap, quorum),
            up: false,
            encoded: Vec::new(heap),
        }
    }

    /// Opens its file: what is begun there and not ended is under way again, and nobody is counted yet. If the file is not to be
    /// trusted, what is sure of it is written anew first.
    pub fn start<S: Storage>(&mut self, store: &mut S) -> Result<Opening, Fault>
        ensures started { MatchResult result (λ o. Started (S.Storage.holds store.old) (S.Storage.holds store.new) self.old self.new (S.Storage.state store.old).trusted o) (λ _. (self.new.up ≡ false) × Unstarted Writing (S.Storage.holds store.old) (S.Storage.holds store.new)) }
        ensures state { OnOk result (S.Storage.state store.new ≡ settled) }
        ensures sent { S.Storage.sent store.new ≡ S.Storage.sent store.old }
        ensures runs { self.old.up ≡ false → OfficeRuns self.old.desks.quorum.wardens self.old.desks.quorum.faults (S.Storage.holds store.old) (S.Storage.holds store.new) self.old self.new (λ bag. bag) }
    {
        self.replay_file(store)
    }

    fn replay_file<S: Storage>(&mut self, store: &mut S) -> Result<Opening, Fault>
        ensures started { MatchResult result (λ o. Started (S.Storage.holds store.old) (S.Storage.holds store.new) self.old self.new (S.Storage.state store.old).trusted o) (λ _. (self.new.up ≡ false) × Unstarted Writing (S.Storage.holds store.old) (S.Storage.holds store.new)) }
        ensures state { OnOk result (S.Storage.state store.new ≡ settled) }
        ensures sent { S.Storage.sent store.new ≡ S.Storage.sent store.old }
    {
        let mut fresh = Office::new(self.heap, self.desks.quorum);
        let mut window = Vec::new(self.heap);
        self.up = false;
        let opening = start(&mut fresh, store, Role::Office, &mut window)?;
        fresh.up = true;
        *self = fresh;
        Ok(opening)
    }
}

impl Replay for Office {
    ghost replays = { Replays };

    fn replay(&mut self, frame: Frame<'_>) -> Result<(), Fault> {
        match frame {
            Frame::Begun {
                note,
                edition,
                value,
            } => {
                let value = Value::new(value).ok_or(Fault::System)?;
                self.begin_again(note, edition, value)
            }
            Frame::Ended { note, edition } => {
                self.desks.close(note, edition);
                Ok(())
            }
            _ => Ok(()),
        }
    }
}

impl Office {
    /// The next edition of a note is to have this value: it is on the file, synced, before it is sent.
    pub fn write<S: Storage>(
        &mut self,
        store: &mut S,
        number: NoteId,
        value: Value,
    ) -> Result<OfficeOutcome, Fault>
        ensures did { MatchResult result (λ o. (office_outcome o ≡ (office_writes (desks_of self.old) number.0 (bytes_of value)).outcome) × Recorded (S.Storage.holds store.old) (S.Storage.holds store.new) self.old self.new number.0 (office_writes (desks_of self.old) number.0 (bytes_of value))) (λ _. Failed (S.Storage.holds store.old) (S.Storage.holds store.new) self.old self.new number.0 (office_writes (desks_of self.old) number.0 (bytes_of value))) }
        ensures sent { MatchResult result (λ _. S.Storage.sent store.new ≡ S.Storage.sent store.old ++ parcels self.old.desks.quorum.wardens (office_writes (desks_of self.old) number.0 (bytes_of value)).letters) (λ _. (k : ℕ) × (S.Storage.sent store.new ≡ S.Storage.sent store.old ++ take k (parcels self.old.desks.quorum.wardens (office_writes (desks_of self.old) number.0 (bytes_of value)).letters))) }
        ensures runs { MatchResult result (λ _. OfficeRuns self.old.desks.quorum.wardens self.old.desks.quorum.faults (S.Storage.holds store.old) (S.Storage.holds store.new) self.old self.new (post self.old.desks.quorum.wardens (office_writes (desks_of self.old) number.0 (bytes_of value)).letters)) (λ _. OfficeRuns self.old.desks.quorum.wardens self.old.desks.quorum.faults (S.Storage.holds store.old) (S.Storage.holds store.new) self.old self.new (λ bag. bag) ⊎ OfficeRuns self.old.desks.quorum.wardens self.old.desks.quorum.faults (S.Storage.holds store.old) (S.Storage.holds store.new) self.old self.new (post self.old.desks.quorum.wardens (office_writes (desks_of self.old) number.0 (bytes_of value)).letters)) }
    {
        self.begin(store, number, value)
    }

    fn begin<S: Storage>(
        &mut self,
        store: &mut S,
        number: NoteId,
        value: Value,
    ) -> Result<OfficeOutcome, Fault>
        ensures did { MatchResult result (λ o. (office_outcome o ≡ (office_writes (desks_of self.old) number.0 (bytes_of value)).outcome) × Recorded (S.Storage.holds store.old) (S.Storage.holds store.new) self.old self.new number.0 (office_writes (desks_of self.old) number.0 (bytes_of value))) (λ _. Failed (S.Storage.holds store.old) (S.Storage.holds store.new) self.old self.new number.0 (office_writes (desks_of self.old) number.0 (bytes_of value))) }
        ensures sent { MatchResult result (λ _. S.Storage.sent store.new ≡ S.Storage.sent store.old ++ parcels self.old.desks.quorum.wardens (office_writes (desks_of self.old) number.0 (bytes_of value)).letters) (λ _. (k : ℕ) × (S.Storage.sent store.new ≡ S.Storage.sent store.old ++ take k (parcels self.old.desks.quorum.wardens (office_writes (desks_of self.old) number.0 (bytes_of value)).letters))) }
    {
        if !self.up || !store.condition().synced {
            return Err(Fault::System);
        }
        let step = self.desks.write(number, value)?;
        let Ok(OfficeDone::Begun) = step.outcome else {
            return Ok(step.outcome);
        };
        let Ok(()) = self.record_begun(store, number) else {
            self.up = false;
            return Err(Fault::System);
        };
        let Sends::Each(message) = step.sends else {
            return Ok(step.outcome);
        };
        send_each(store, self.desks.quorum.wardens, number, message)?;
        Ok(step.outcome)
    }

    /// What it does with a message about a note. That a writing has come to an end is on the file, synced, before it is said.
    pub fn on<S: Storage>(
        &mut self,
        store: &mut S,
        incoming: Incoming,
    ) -> Result<OfficeOutcome, Fault>
        ensures did { MatchResult result (λ o. (office_outcome o ≡ (office_hears self.old.desks.quorum.wardens self.old.desks.quorum.faults (desks_of self.old) incoming.from.0 incoming.note.0 (message_of incoming.message)).outcome) × Recorded (S.Storage.holds store.old) (S.Storage.holds store.new) self.old self.new incoming.note.0 (office_hears self.old.desks.quorum.wardens self.old.desks.quorum.faults (desks_of self.old) incoming.from.0 incoming.note.0 (message_of incoming.message))) (λ _. Failed (S.Storage.holds store.old) (S.Storage.holds store.new) self.old self.new incoming.note.0 (office_hears self.old.desks.quorum.wardens self.old.desks.quorum.faults (desks_of self.old) incoming.from.0 incoming.note.0 (message_of incoming.message))) }
        ensures sent { S.Storage.sent store.new ≡ S.Storage.sent store.old }
        ensures runs { OfficeHears self.old.desks.quorum.wardens self.old.desks.quorum.faults (S.Storage.holds store.old) (S.Storage.holds store.new) self.old self.new incoming.from.0 incoming.note.0 (message_of incoming.message) }
    {
        self.receive(store, incoming)
    }

    fn receive<S: Storage>(
        &mut self,
        store: &mut S,
        incoming: Incoming,
    ) -> Result<OfficeOutcome, Fault>
        ensures did { MatchResult result (λ o. (office_outcome o ≡ (office_hears self.old.desks.quorum.wardens self.old.desks.quorum.faults (desks_of self.old) incoming.from.0 incoming.note.0 (message_of incoming.message)).outcome) × Recorded (S.Storage.holds store.old) (S.Storage.holds store.new) self.old self.new incoming.note.0 (office_hears self.old.desks.quorum.wardens self.old.desks.quorum.faults (desks_of self.old) incoming.from.0 incoming.note.0 (message_of incoming.message))) (λ _. Failed (S.Storage.holds store.old) (S.Storage.holds store.new) self.old self.new incoming.note.0 (office_hears self.old.desks.quorum.wardens self.old.desks.quorum.faults (desks_of self.old) incoming.from.0 incoming.note.0 (message_of incoming.message))) }
        ensures sent { S.Storage.sent store.new ≡ S.Storage.sent store.old }
    {
        if !self.up || !store.condition().synced {
            return Err(Fault::System);
        }
        let step = self.desks.on(incoming);
        let Ok(OfficeDone::Ended) = step.outcome else {
            return Ok(step.outcome);
        };
        let Ok(()) = self.record_ended(store, incoming.note) else {
            self.up = false;
            return Err(Fault::System);
        };
        Ok(step.outcome)
    }

    // That the present edition of a note has ended is on the file, synced. This and the next differ in the record that their contracts name.
    fn record_ended<S: Storage>(&mut self, store: &mut S, number: NoteId) -> Result<(), Fault>
        ensures desks { self.new.desks ≡ self.old.desks }
        ensures up { self.new.up ≡ self.old.up }
        ensures disk { Commits S.Storage.holds store.old store.new (encode (Ended number.0 ((desks_of self.old).desks.at number.0).now.edition)) result }
        ensures sent { S.Storage.sent store.new ≡ S.Storage.sent store.old }
    {
        let edition = self.desks.desk(number).now.edition;
        self.encoded.clear();
        put_ended(&mut self.encoded, number, edition)?;
        commit(store, &self.encoded)
    }

    // That the present edition of a note has begun is on the file, synced.
    fn record_begun<S: Storage>(&mut self, store: &mut S, number: NoteId) -> Result<(), Fault>
        ensures desks { self.new.desks ≡ self.old.desks }
        ensures up { self.new.up ≡ self.old.up }
        ensures disk { Commits S.Storage.holds store.old store.new (encode (Begun number.0 ((desks_of self.old).desks.at number.0).now)) result }
        ensures state { OnOk result (S.Storage.state store.new ≡ settled) }
        ensures sent { S.Storage.sent store.new ≡ S.Storage.sent store.old }
    {
        let note = self.desks.desk(number).now;
        self.encoded.clear();
        put_begun(&mut self.encoded, number, &note)?;
        commit(store, &self.encoded)
    }

    // Writes an edition that began before, if it is the next.
    fn begin_again(&mut self, number: NoteId, edition: Edition, value: Value) -> Result<(), Fault>
        ensures { OnOk result (Replays self.old (Begun number.0 (record { edition = edition.0; value = bytes_of value })) self.new) }
    {
        if self.desks.desk(number).now.edition.next() == Some(edition) {
            self.desks.write(number, value)?;
        }
        Ok(())
    }
}
