// A storage over a file in the working folder. Each call prints what came of it; a line that cannot be printed is missed by who
// compares what was printed.
use notes::ids::{Edition, NoteId, OFFICE};
use parties::message::Message;
use std::{fs, io};
use storage::fault::Fault;
use storage::outgoing::Outgoing;
use storage::storage::Storage;
use storage_file::file_storage::FileStorage;

const PATH: &str = "file";

const BESIDE: &str = "file.new";

const DAMAGED: &str = "file.damaged";

#[derive(Drop)]
pub struct Trial {
    rt: HostRuntime,
    store: FileStorage,
}

fn word<'a>(holds: bool, word: &'a str, opposite: &'a str) -> &'a str {
    if holds { word } else { opposite }
}

impl Trial {
    /// Opens the file, as a process does that begins.
    pub fn open(rt: &HostRuntime) -> io::Result<Trial> {
        let store = FileStorage::new(rt, PATH)?;
        let trial = Trial { rt: *rt, store };
        trial.say("open", Ok(()));
        Ok(trial)
    }

    // What came of a call, and what is known of the file after it.
    fn say(&self, call: &str, done: Result<(), Fault>) {
        let condition = self.store.condition();
        let outcome = word(done.is_ok(), "done", "failed");
        let synced = word(condition.synced, "synced", "not synced");
        let placed = word(condition.placed, "placed", "not placed");
        let trusted = word(condition.trusted, "trusted", "not trusted");
        let sure = self.store.sure();
        let _ = println!(self.rt;
            "{call}: {outcome}; {sure} bytes sure, {synced}, {placed}, {trusted}"
        );
    }

    // Makes a call, and says what came of it.
    fn perform<F: FnOnce(&mut FileStorage) -> Result<(), Fault>>(&mut self, name: &str, call: F)
        requires { F.IsAlwaysCallable call }
    {
        let done = call(&mut self.store);
        self.say(name, done);
    }

    pub fn append(&mut self, bytes: &[u8]) {
        self.perform("append", |store| store.append(bytes));
    }

    pub fn sync(&mut self) {
        if !self.store.condition().trusted {
            let _ = println!(self.rt; "sync: not allowed");
            return;
        }
        let done = self.store.sync();
        self.say("sync", done);
    }

    /// Tells the office of an edition, and then sends all that waits.
    pub fn send(&mut self, edition: u64) {
        let condition = self.store.condition();
        if !condition.synced || !condition.placed {
            let _ = println!(self.rt; "send: not allowed");
            return;
        }
        let done = self.store.send(Outgoing {
            to: OFFICE,
            note: NoteId(0),
            message: Message::Took(Edition(edition)),
        });
        let waiting = self.store.outlet.len();
        self.store.outlet.clear();
        let _ = println!(self.rt; "sent: {waiting}");
        self.say("send", done);
    }

    /// Reads a part of the file.
    pub fn read(&mut self, place: u64, most: usize) {
        let mut bytes = Vec::new(self.rt.alloc());
        let done = self.store.read(place, most, &mut bytes);
        let _ = println!(self.rt; "{bytes:?}");
        self.say("read", done);
    }

    pub fn length(&mut self) {
        let _ = match self.store.length() {
            Ok(length) => println!(self.rt; "length: {length}"),
            Err(_) => println!(self.rt; "length: failed"),
        };
    }

    pub fn cut_back(&mut self, kept: u64) {
        self.perform("cut back", |store| store.cut_back(kept));
    }

    pub fn set_aside(&mut self, place: u64) {
        let done = self.store.set_aside(place);
        if let Ok(damaged) = fs::read(&self.rt, DAMAGED) {
            let _ = println!(self.rt; "damaged: {damaged:?}");
        }
        self.say("set aside", done);
    }

    /// Leaves something beside, as a process does that was killed.
    pub fn leave_beside(&mut self) {
        let _ = fs::write(&self.rt, BESIDE, "left");
    }

    pub fn clear_beside(&mut self) {
        let done = self.store.clear_beside();
        let is_gone = matches!(fs::exists(&self.rt, BESIDE), Ok(false));
        let _ = println!(self.rt; "nothing beside: {is_gone}");
        self.say("clear beside", done);
    }

    pub fn write_beside(&mut self, bytes: &[u8]) {
        self.perform("write beside", |store| store.write_beside(bytes));
    }

    pub fn sync_beside(&mut self) {
        self.perform("sync beside", |store| store.sync_beside());
    }

    pub fn rename(&mut self) {
        self.perform("rename", |store| store.rename());
    }

    pub fn sync_folder(&mut self) {
        self.perform("sync folder", |store| store.sync_folder());
    }
}
