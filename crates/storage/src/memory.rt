// A disk and a line in memory, on which the power can be cut at any place.
ghost use Rattle.std.specs.Prelude.{◌≡◌, [], take, drop};
ghost use Rattle.protocol_files.specs.Disk.{empty_disk, keep, Cut};
ghost use Rattle.storage.specs.Conditions.{opened};
ghost use Rattle.storage.specs.Memories.{disk_of, sent_by, Holds, Reverts};
ghost use Rattle.std.proofs.Common.{rules};

use crate::condition::Condition;
use crate::fall::Fall;
use crate::fault::Fault;
use crate::image::Image;
use crate::outgoing::Outgoing;
use crate::storage::Storage;
use std::alloc::Global;

/// The file, the one beside, those that it took the place of, the last first, and what was sent.
#[derive(Drop)]
pub struct Memory {
    pub heap: Global,
    pub file: Image,
    pub beside: Image,
    pub former: Vec<Image>,
    pub outlet: Vec<Outgoing>,
    /// What was set aside as damage.
    pub aside: Vec<u8>,
    pub condition: Condition,
    /// After so many more calls that touch the disk or the line, all of them fail.
    pub fuse: Option<u64>,
}

impl Memory {
    /// An empty disk, on which no file was opened yet.
    pub fn new(heap: Global) -> Memory
        ensures disk { disk_of result ≡ empty_disk }
        ensures state { result.condition ≡ opened }
        ensures sent { sent_by result ≡ [] }
    {
        Memory {
            heap,
            file: Image::new(heap),
            beside: Image::new(heap),
            former: Vec::new(heap),
            outlet: Vec::new(heap),
            aside: Vec::new(heap),
            condition: Condition::opened(),
            fuse: None,
        }
    }

    /// The party falls. What is known of the file begins anew, and nothing fails any more.
    pub fn fall(&mut self, fall: Fall)
        ensures disk { Cut (disk_of self.old) (disk_of self.new) }
        ensures state { self.new.condition ≡ opened }
        ensures sent { sent_by self.new ≡ sent_by self.old }
    {
        self.condition = Condition::opened();
        self.fuse = None;
        match fall {
            Fall::Killed => {}
            Fall::Cut { kept } => self.cut(kept),
            Fall::Reverted { kept } => {
                self.revert();
                self.cut(kept)
            }
        }
    }

    fn cut(&mut self, kept: usize)
        ensures disk { disk_of self.new ≡ record { file = keep kept (disk_of self.old).file; beside = (disk_of self.old).beside; former = [] } }
        ensures state { self.new.condition ≡ self.old.condition }
        ensures sent { sent_by self.new ≡ sent_by self.old }
    {
        self.file.shorten(kept);
        self.former.clear();
    }

    // A file that the present one took the place of is back, if there is one.
    fn revert(&mut self)
        ensures disk { Reverts (disk_of self.old) (disk_of self.new) }
        ensures state { self.new.condition ≡ self.old.condition }
        ensures sent { sent_by self.new ≡ sent_by self.old }
    {
        if let Some(file) = self.former.pop() {
            self.file = file;
        }
    }

    // One more call, unless the fuse has burnt down.
    fn burn(&mut self) -> Result<(), Fault>
        ensures disk { disk_of self.new ≡ disk_of self.old }
        ensures state { self.new.condition ≡ self.old.condition }
        ensures sent { sent_by self.new ≡ sent_by self.old }
    {
        if let Some(left) = self.fuse {
            self.fuse = Some(left.checked_sub(1).ok_or(Fault::System)?);
        }
        Ok(())
    }
}

// The bytes from a place on.
fn tail(bytes: &[u8], place: usize) -> &[u8]
    ensures { result.now ≡ drop place bytes.now }
{
    bytes.get(place..).unwrap_or_default()
}

// So many bytes at the front, or all.
fn front(bytes: &[u8], most: usize) -> &[u8]
    ensures { result.now ≡ take most bytes.now }
{
    bytes.get(..most).unwrap_or(bytes)
}

impl Storage for Memory {
    ghost holds = { Holds };

    ghost state = { λ m. m.condition };

    ghost sent = { sent_by };

    ghost synced = { Prim.search rules };

    ghost placed = { Prim.search rules };

    fn condition(&self) -> Condition {
        self.condition
    }

    fn sure(&self) -> u64 {
        self.file.synced.len() as u64
    }

    fn length(&mut self) -> Result<u64, Fault> {
        self.burn()?;
        let synced = self.file.synced.len();
        let size = synced
            .checked_add(self.file.pending.len())
            .ok_or(Fault::Memory)?;
        Ok(size as u64)
    }

    fn append(&mut self, bytes: &[u8]) -> Result<(), Fault> {
        self.file.append(bytes)?;
        self.condition.synced = false;
        Ok(())
    }

    fn sync(&mut self) -> Result<(), Fault> {
        self.condition.synced = false;
        self.condition.trusted = false;
        self.burn()?;
        self.file.sync()?;
        self.condition.synced = true;
        self.condition.trusted = true;
        Ok(())
    }

    fn send(&mut self, what: Outgoing) -> Result<(), Fault> {
        self.burn()?;
        self.outlet.push(what)?;
        Ok(())
    }

    fn read(&mut self, place: u64, most: usize, into: &mut Vec<u8>) -> Result<(), Fault> {
        self.burn()?;
        let all = self.file.contents(self.heap)?;
        into.clear();
        into.extend_from_slice(front(tail(&all, place as usize), most))?;
        Ok(())
    }

    fn cut_back(&mut self, kept: u64) -> Result<(), Fault> {
        self.condition.synced = false;
        self.burn()?;
        self.file.cut_back(kept as usize);
        Ok(())
    }

    fn set_aside(&mut self, place: u64) -> Result<(), Fault> {
        self.burn()?;
        let all = self.file.contents(self.heap)?;
        self.aside.extend_from_slice(tail(&all, place as usize))?;
        Ok(())
    }

    fn clear_beside(&mut self) -> Result<(), Fault> {
        self.burn()?;
        self.beside = Image::new(self.heap);
        Ok(())
    }

    fn write_beside(&mut self, bytes: &[u8]) -> Result<(), Fault> {
        self.burn()?;
        self.beside.append(bytes)?;
        Ok(())
    }

    fn sync_beside(&mut self) -> Result<(), Fault> {
        self.burn()?;
        self.beside.sync()?;
        Ok(())
    }

    fn rename(&mut self) -> Result<(), Fault> {
        self.condition = Condition {
            synced: false,
            placed: false,
            trusted: false,
        };
        self.burn()?;
        self.former.insert(0, Image::new(self.heap))?;
        std::mem::swap(&mut self.former[0], &mut self.file);
        std::mem::swap(&mut self.file, &mut self.beside);
        self.condition.trusted = true;
        Ok(())
    }

    fn sync_folder(&mut self) -> Result<(), Fault> {
        self.burn()?;
        self.former.clear();
        self.condition.placed = true;
        Ok(())
    }
}
