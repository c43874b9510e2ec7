// A file of the system, and what waits to be sent: the storage that programs run on.
//
// No contract can say what a real file holds. So `holds` is never so here, and the clauses of the trait about the disk say nothing of
// this end: that it does to the file what the trait says is trusted. `.ci/order-of-calls` compares the calls that it makes with those
// that are expected, `.ci/failing-disk` what it answers where one of them fails. What is known of the file and what was sent is proved.
ghost use Rattle.std.specs.Prelude.{◌≡◌, min, ◌⊎◌, [], map, IfOk, vec_len, MatchResult, OnErr};
ghost use Rattle.storage.specs.Conditions.{opened};
ghost use Rattle.storage.specs.Memories.{parcel_of};
ghost use Rattle.storage.specs.declared.fault.Fault.TheVariants.{System};
ghost use Rattle.std.proofs.Common.{rules};

use std::alloc::{AllocError, Global};
use std::fs::{File, OpenOptions};
use std::io::SeekFrom;
use std::io::prelude::*;
use std::{fs, io, mem};
use storage::condition::Condition;
use storage::fault::Fault;
use storage::outgoing::Outgoing;
use storage::storage::Storage;

/// A file that is read anywhere and written at its end.
#[derive(Drop)]
struct Opened {
    handle: File,
    /// How many of its bytes are synced.
    sure: u64,
}

impl Opened {
    fn length(&self) -> io::Result<u64> {
        Ok(self.handle.metadata()?.len())
    }

    // Adds bytes, and then makes all of it last.
    fn write_and_sync(&mut self, bytes: &[u8]) -> io::Result<()>
        ensures { OnErr result (self.new.sure ≡ self.old.sure) }
    {
        self.handle.write_all(bytes)?;
        self.handle.sync_data()?;
        self.sure = self.length()?;
        Ok(())
    }

    fn sync_all(&mut self) -> io::Result<()>
        ensures { OnErr result (self.new.sure ≡ self.old.sure) }
    {
        self.handle.sync_all()?;
        self.sure = self.length()?;
        Ok(())
    }

    fn read(&mut self, place: u64, most: usize, into: &mut Vec<u8>) -> io::Result<()>
        ensures { self.new.sure ≡ self.old.sure }
    {
        into.clear();
        self.handle.seek(SeekFrom::Start(place))?;
        (&self.handle).take(most as u64).read_to_end(into)?;
        Ok(())
    }

    // To set a length that it has not reached would add zeros.
    fn cut_back(&mut self, kept: u64) -> io::Result<()>
        ensures { (self.new.sure ≡ self.old.sure) ⊎ (self.new.sure ≡ min self.old.sure kept) }
    {
        if kept < self.length()? {
            self.handle.set_len(kept)?;
            self.sure = self.sure.min(kept);
        }
        Ok(())
    }

    // Adds what stands in it from a place on to the file under a path, and makes that last.
    fn copy_from(&mut self, place: u64, rt: &HostRuntime, path: &str) -> io::Result<()>
        ensures { self.new.sure ≡ self.old.sure }
    {
        let mut target = OpenOptions::new().append(true).create(true).open(rt, path)?;
        self.handle.seek(SeekFrom::Start(place))?;
        io::copy(&mut self.handle, &mut target)?;
        target.sync_all()
    }
}

/// What stands beside the file.
#[derive(Drop)]
enum Beside {
    /// What an earlier process or a call that failed has left. It is only to be begun anew: a sync that succeeds after another failed
    /// proves nothing.
    Unknown,
    /// Nothing: an empty file that is made with the first call.
    Blank,
    Begun(Opened),
}

/// The file under a path, and beside it under the same path with an ending: `.new`, the one that is to take its place;
/// `.damaged`, what was set aside.
#[derive(Drop)]
pub struct FileStorage {
    rt: HostRuntime,
    path: String,
    beside_path: String,
    damaged_path: String,
    folder: String,
    file: Opened,
    beside: Beside,
    /// What was added to the file and waits to be written with the next sync.
    unwritten: Vec<u8>,
    /// What waits to be sent. Who has the storage sends it, and clears this.
    pub outlet: Vec<Outgoing>,
    condition: Condition,
}

// The folder that holds the file under a path.
fn folder_of(heap: Global, path: &str) -> Result<String, AllocError> {
    match path.rsplit_once('/') {
        Some((folder, _)) => format!(in heap; "{folder}/"),
        None => String::from_str(heap, "."),
    }
}

impl FileStorage {
    /// Opens the file, or makes it. Nothing of it is known to be synced: it may have been written by a process that was killed.
    /// Nor can it be known that a sync failed in an earlier process, after which the system may show bytes that it does not keep.
    pub fn new(rt: &HostRuntime, path: &str) -> io::Result<FileStorage>
        ensures state { IfOk result (λ s. s.condition ≡ opened) }
        ensures sent { IfOk result (λ s. s.outlet.items ≡ []) }
    {
        let heap = rt.alloc();
        let handle = OpenOptions::new()
            .read(true)
            .append(true)
            .create(true)
            .open(rt, path)?;
        Ok(FileStorage {
            rt: *rt,
            path: String::from_str(heap, path)?,
            beside_path: format!(in heap; "{path}.new")?,
            damaged_path: format!(in heap; "{path}.damaged")?,
            folder: folder_of(heap, path)?,
            file: Opened { handle, sure: 0 },
            beside: Beside::Unknown,
            unwritten: Vec::new(heap),
            outlet: Vec::new(heap),
            condition: Condition::opened(),
        })
    }

    // The system does not have the whole file while bytes wait here.
    fn all_written(&self) -> Result<(), Fault>
        ensures { MatchResult result (λ _. vec_len self.now.unwritten ≡ 0) (λ e. e ≡ System) }
    {
        if self.unwritten.is_empty() {
            Ok(())
        } else {
            Err(Fault::System)
        }
    }
}

// Takes the file beside, to go on with: it is unknown until it is put back. One that is made must not be there yet.
fn begun(beside: &mut Beside, rt: &HostRuntime, path: &str) -> io::Result<Opened>
    ensures { beside.new ≡ Beside.Unknown }
{
    match mem::replace(beside, Beside::Unknown) {
        Beside::Begun(beside) => Ok(beside),
        Beside::Blank => {
            let handle = OpenOptions::new()
                .read(true)
                .append(true)
                .create_new(true)
                .open(rt, path)?;
            Ok(Opened { handle, sure: 0 })
        }
        Beside::Unknown => Err(io::Error::from(io::ErrorKind::AlreadyExists)),
    }
}

// Removes a file, if it is there.
fn remove(rt: &HostRuntime, path: &str) -> io::Result<()> {
    match fs::remove_file(rt, path) {
        Err(error) if error.kind() != io::ErrorKind::NotFound => Err(error),
        _ => Ok(()),
    }
}

fn sync_folder(rt: &HostRuntime, folder: &str) -> io::Result<()> {
    File::open(rt, folder)?.sync_all()
}

impl Storage for FileStorage {
    ghost holds = { λ _ _. ⊥ };

    ghost state = { λ s. s.condition };

    ghost sent = { λ s. map parcel_of s.outlet.items };

    ghost synced = { Prim.search rules };

    ghost placed = { Prim.search rules };

    fn condition(&self) -> Condition {
        self.condition
    }

    fn sure(&self) -> u64 {
        self.file.sure
    }

    fn length(&mut self) -> Result<u64, Fault> {
        self.all_written()?;
        Ok(self.file.length()?)
    }

    fn append(&mut self, bytes: &[u8]) -> Result<(), Fault> {
        self.unwritten.extend_from_slice(bytes)?;
        self.condition.synced = false;
        Ok(())
    }

    // Where it fails the file has some first part of what was added. The rest is gone.
    fn sync(&mut self) -> Result<(), Fault> {
        self.condition.synced = false;
        self.condition.trusted = false;
        let done = self.file.write_and_sync(&self.unwritten);
        self.unwritten.clear();
        done?;
        self.condition.synced = true;
        self.condition.trusted = true;
        Ok(())
    }

    fn send(&mut self, what: Outgoing) -> Result<(), Fault> {
        self.outlet.push(what)?;
        Ok(())
    }

    fn read(&mut self, place: u64, most: usize, into: &mut Vec<u8>) -> Result<(), Fault> {
        self.all_written()?;
        self.file.read(place, most, into)?;
        Ok(())
    }

    fn cut_back(&mut self, kept: u64) -> Result<(), Fault> {
        self.condition.synced = false;
        self.all_written()?;
        self.file.cut_back(kept)?;
        Ok(())
    }

    fn set_aside(&mut self, place: u64) -> Result<(), Fault> {
        self.all_written()?;
        self.file.copy_from(place, &self.rt, &self.damaged_path)?;
        Ok(())
    }

    fn clear_beside(&mut self) -> Result<(), Fault> {
        self.beside = Beside::Unknown;
        remove(&self.rt, &self.beside_path)?;
        self.beside = Beside::Blank;
        Ok(())
    }

    fn write_beside(&mut self, bytes: &[u8]) -> Result<(), Fault> {
        let mut beside = begun(&mut self.beside, &self.rt, &self.beside_path)?;
        beside.handle.write_all(bytes)?;
        self.beside = Beside::Begun(beside);
        Ok(())
    }

    fn sync_beside(&mut self) -> Result<(), Fault> {
        let mut beside = begun(&mut self.beside, &self.rt, &self.beside_path)?;
        beside.sync_all()?;
        self.beside = Beside::Begun(beside);
        Ok(())
    }

    fn rename(&mut self) -> Result<(), Fault> {
        self.condition = Condition {
            synced: false,
            placed: false,
            trusted: false,
        };
        let Beside::Begun(beside) = mem::replace(&mut self.beside, Beside::Unknown) else {
            return Err(Fault::System);
        };
        fs::rename(&self.rt, &self.beside_path, &self.path)?;
        self.file = beside;
        self.beside = Beside::Blank;
        self.unwritten.clear();
        self.condition.trusted = true;
        Ok(())
    }

    fn sync_folder(&mut self) -> Result<(), Fault> {
        sync_folder(&self.rt, &self.folder)?;
        self.condition.placed = true;
        Ok(())
    }
}
