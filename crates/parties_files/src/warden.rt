// A warden with its file: what it takes is on the file, synced, before it says so.
ghost use Rattle.std.specs.Prelude.{◌≡◌, ℕ, ◌<◌, false, ◌⊎◌, [], ◌++◌, map, take, vec_len, vec_capacity, MatchResult, OnOk};
ghost use Rattle.register.specs.Note.{none};
ghost use Rattle.protocol.specs.Message.{Take, packets};
ghost use Rattle.parties.specs.Views.{message_of, sends_of, warden_outcome};
ghost use Rattle.protocol_tables.specs.Keep.{empty};
ghost use Rattle.protocol_tables.specs.Warden.{warden_keeps};
ghost use Rattle.frames.specs.Format.{Sent, encode};
ghost use Rattle.frames.specs.declared.role.Role.TheVariants.{Warden as Keeping};
ghost use Rattle.protocol_files.specs.Disk.{append};
ghost use Rattle.journal.specs.Openings.{Unstarted};
ghost use Rattle.storage.specs.Conditions.{settled};
ghost use Rattle.storage.specs.Changes.{Becomes, Stays};
ghost use Rattle.storage.specs.Memories.{parcel_of};
ghost use Rattle.parties_files.specs.Promises.{WardenRuns, WardenHears};
ghost use Rattle.parties_files.specs.Wardens.{kept, outbox_of, Single, Replays, Did, Failed, Flushed, Unflushed, Started};

use crate::outbox::{release, settle};
use frames::encode::put_take;
use frames::frame::Frame;
use frames::role::Role;
use journal::opening::Opening;
use journal::replay::Replay;
use journal::start::start;
use notes::ids::{NoteId, OFFICE};
use notes::note::Note;
use notes::value::Value;
use parties::message::{Incoming, Message, Sends};
use parties::step::{WardenDone, WardenOutcome};
use parties_tables::warden::Warden as Notes;
use std::alloc::Global;
use storage::fault::Fault;
use storage::outgoing::Outgoing;
use storage::storage::Storage;

/// What it has of each note, and what it answers once all of that is synced. While it is not up, nothing comes to it.
#[derive(Drop)]
pub struct Warden {
    pub heap: Global,
    pub notes: Notes,
    pub outbox: Vec<Outgoing>,
    // By the rules a party has a memory also while it is down, so this stands beside it.
    pub up: bool,
    /// The bytes of a record on its way to the file.
    pub encoded: Vec<u8>,
}

impl Warden {
    /// A warden that is to open its file.
    pub fn new(heap: Global) -> Warden
        ensures up { result.up ≡ false }
        ensures kept { kept result ≡ empty none }
        ensures outbox { result.outbox.items ≡ [] }
    {
        Warden {
            heap,
            notes: Notes::new(heap),
            outbox: Vec::new(heap),
            up: false,
            encoded: Vec::new(heap),
        }
    }

    /// Opens its file: what is on it, it has. If the file is not to be trusted, what is sure of it is written anew first.
    pub fn start<S: Storage>(&mut self, store: &mut S) -> Result<Opening, Fault>
        ensures started { MatchResult result (λ o. Started (S.Storage.holds store.old) (S.Storage.holds store.new) self.new (S.Storage.state store.old).trusted o) (λ _. (self.new.up ≡ false) × Unstarted Keeping (S.Storage.holds store.old) (S.Storage.holds store.new)) }
        ensures state { OnOk result (S.Storage.state store.new ≡ settled) }
        ensures sent { S.Storage.sent store.new ≡ S.Storage.sent store.old }
        ensures runs { self.old.up ≡ false → WardenRuns (S.Storage.holds store.old) (S.Storage.holds store.new) self.old self.new (λ i. []) }
    {
        self.replay_file(store)
    }

    fn replay_file<S: Storage>(&mut self, store: &mut S) -> Result<Opening, Fault>
        ensures started { MatchResult result (λ o. Started (S.Storage.holds store.old) (S.Storage.holds store.new) self.new (S.Storage.state store.old).trusted o) (λ _. (self.new.up ≡ false) × Unstarted Keeping (S.Storage.holds store.old) (S.Storage.holds store.new)) }
        ensures state { OnOk result (S.Storage.state store.new ≡ settled) }
        ensures sent { S.Storage.sent store.new ≡ S.Storage.sent store.old }
    {
        let mut fresh = Warden::new(self.heap);
        let mut window = Vec::new(self.heap);
        self.up = false;
        let opening = start(&mut fresh, store, Role::Warden, &mut window)?;
        fresh.up = true;
        *self = fresh;
        Ok(opening)
    }

    /// What it does with a message about a note. What it takes is written, and all that it answers waits for the next sync.
    pub fn on<S: Storage>(
        &mut self,
        store: &mut S,
        incoming: Incoming,
    ) -> Result<WardenOutcome, Fault>
        ensures did { MatchResult result (λ o. Did (S.Storage.holds store.old) (S.Storage.holds store.new) self.old self.new incoming.note.0 (warden_outcome o) (warden_keeps (kept self.old) incoming.from.0 incoming.note.0 (message_of incoming.message))) (λ _. Failed (S.Storage.holds store.old) (S.Storage.holds store.new) self.old self.new) }
        ensures sent { S.Storage.sent store.new ≡ S.Storage.sent store.old }
        ensures runs { WardenHears (S.Storage.holds store.old) (S.Storage.holds store.new) self.old self.new incoming.from.0 incoming.note.0 (message_of incoming.message) }
    {
        self.receive(store, incoming)
    }

    fn receive<S: Storage>(
        &mut self,
        store: &mut S,
        incoming: Incoming,
    ) -> Result<WardenOutcome, Fault>
        ensures did { MatchResult result (λ o. Did (S.Storage.holds store.old) (S.Storage.holds store.new) self.old self.new incoming.note.0 (warden_outcome o) (warden_keeps (kept self.old) incoming.from.0 incoming.note.0 (message_of incoming.message))) (λ _. Failed (S.Storage.holds store.old) (S.Storage.holds store.new) self.old self.new) }
        ensures sent { S.Storage.sent store.new ≡ S.Storage.sent store.old }
    {
        if !self.up {
            return Err(Fault::System);
        }
        self.outbox.reserve(1)?;
        let step = self.notes.on(incoming)?;
        let Ok(WardenDone::Taken) = step.outcome else {
            self.answer(incoming.note, step.sends);
            return Ok(step.outcome);
        };
        let Ok(()) = self.write(store, incoming.note) else {
            self.fall();
            return Err(Fault::Memory);
        };
        self.answer(incoming.note, step.sends);
        Ok(step.outcome)
    }

    /// Syncs all that it wrote, and only then answers.
    pub fn flush<S: Storage>(&mut self, store: &mut S) -> Result<(), Fault>
        ensures flushed { MatchResult result (λ _. Flushed (S.Storage.holds store.old) (S.Storage.holds store.new) self.old self.new) (λ _. Unflushed (S.Storage.holds store.old) (S.Storage.holds store.new) self.old self.new) }
        ensures sent { MatchResult result (λ _. S.Storage.sent store.new ≡ S.Storage.sent store.old ++ map parcel_of self.old.outbox.items) (λ _. (k : ℕ) × (S.Storage.sent store.new ≡ S.Storage.sent store.old ++ map parcel_of (take k self.old.outbox.items))) }
        ensures runs { MatchResult result (λ _. WardenRuns (S.Storage.holds store.old) (S.Storage.holds store.new) self.old self.new (λ i. outbox_of i self.old)) (λ _. WardenRuns (S.Storage.holds store.old) (S.Storage.holds store.new) self.old self.new (λ i. []) ⊎ WardenRuns (S.Storage.holds store.old) (S.Storage.holds store.new) self.old self.new (λ i. outbox_of i self.old)) }
    {
        self.sync_and_answer(store)
    }

    fn sync_and_answer<S: Storage>(&mut self, store: &mut S) -> Result<(), Fault>
        ensures flushed { MatchResult result (λ _. Flushed (S.Storage.holds store.old) (S.Storage.holds store.new) self.old self.new) (λ _. Unflushed (S.Storage.holds store.old) (S.Storage.holds store.new) self.old self.new) }
        ensures sent { MatchResult result (λ _. S.Storage.sent store.new ≡ S.Storage.sent store.old ++ map parcel_of self.old.outbox.items) (λ _. (k : ℕ) × (S.Storage.sent store.new ≡ S.Storage.sent store.old ++ map parcel_of (take k self.old.outbox.items))) }
    {
        if !self.up {
            return Err(Fault::System);
        }
        let Ok(()) = settle(store) else {
            self.fall();
            return Err(Fault::System);
        };
        let released = release(store, &self.outbox);
        self.outbox.clear();
        released
    }

    // Writes what it has of a note to the file.
    fn write<S: Storage>(&mut self, store: &mut S, number: NoteId) -> Result<(), Fault>
        ensures kept { self.new.notes ≡ self.old.notes }
        ensures outbox { self.new.outbox ≡ self.old.outbox }
        ensures up { self.new.up ≡ self.old.up }
        ensures disk { MatchResult result (λ _. Becomes S.Storage.holds store.old store.new (append (encode (Sent number.0 (Take ((kept self.old).at number.0)))))) (λ _. Stays S.Storage.holds store.old store.new) }
        ensures sent { S.Storage.sent store.new ≡ S.Storage.sent store.old }
    {
        let note = self.notes.note(number);
        self.encoded.clear();
        put_take(&mut self.encoded, number, &note)?;
        store.append(&self.encoded)
    }

    // What it sends waits in the outbox, in which there is room.
    fn answer(&mut self, number: NoteId, sends: Sends)
        requires { vec_len self.old.outbox < vec_capacity self.old.outbox }
        ensures kept { self.new.notes ≡ self.old.notes }
        ensures up { self.new.up ≡ self.old.up }
        ensures outbox { (n i : ℕ) → Single (sends_of sends) → outbox_of i self.new ≡ outbox_of i self.old ++ packets n i number.0 (sends_of sends) }
    {
        if let Sends::One(to, message) = sends {
            self.outbox.push_reserved(Outgoing {
                to,
                note: number,
                message,
            });
        }
    }

    // It is down: what it was to answer is forgotten.
    fn fall(&mut self)
        ensures up { self.new.up ≡ false }
        ensures outbox { self.new.outbox.items ≡ [] }
    {
        self.up = false;
        self.outbox.clear();
    }
}

impl Replay for Warden {
    ghost replays = { Replays };

    fn replay(&mut self, frame: Frame<'_>) -> Result<(), Fault> {
        let Frame::Take {
            note,
            edition,
            value,
        } = frame
        else {
            return Ok(());
        };
        let value = Value::new(value).ok_or(Fault::System)?;
        self.notes.on(Incoming {
            from: OFFICE,
            note,
            message: Message::Take(Note { edition, value }),
        })?;
        Ok(())
    }
}
