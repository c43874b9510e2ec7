// A file in memory.
ghost use Rattle.std.specs.Prelude.{◌≡◌, ◌-◌, [], ◌++◌, length, take, is_ok, IfOk, if◌then◌else◌, MatchResult};
ghost use Rattle.protocol_files.specs.Disk.{blank, contents, keep};
ghost use Rattle.storage.specs.Memories.{file_of};

use std::alloc::{AllocError, Global};

/// What is synced, and what was written after it.
#[derive(Drop)]
pub struct Image {
    pub synced: Vec<u8>,
    pub pending: Vec<u8>,
}

impl Image {
    /// An empty file.
    pub fn new(heap: Global) -> Image
        ensures { file_of result ≡ blank }
    {
        Image {
            synced: Vec::new(heap),
            pending: Vec::new(heap),
        }
    }

    /// Adds bytes, or leaves the file as it is where there is no memory.
    pub fn append(&mut self, more: &[u8]) -> Result<(), AllocError>
        ensures { file_of self.new ≡ record { synced = (file_of self.old).synced; pending = (if is_ok result then (file_of self.old).pending ++ more.now else (file_of self.old).pending) } }
    {
        self.pending.extend_from_slice(more)
    }

    /// Makes all of it last, or leaves it as it is where there is no memory.
    pub fn sync(&mut self) -> Result<(), AllocError>
        ensures { MatchResult result (λ _. file_of self.new ≡ record { synced = contents (file_of self.old); pending = [] }) (λ _. file_of self.new ≡ file_of self.old) }
    {
        self.synced.extend_from_slice(&self.pending)?;
        self.pending.clear();
        Ok(())
    }

    /// Of what is pending, so many bytes are left.
    pub fn shorten(&mut self, kept: usize)
        ensures { file_of self.new ≡ keep kept (file_of self.old) }
    {
        self.pending.truncate(kept);
    }

    /// Cuts off all but the first bytes.
    pub fn cut_back(&mut self, kept: usize)
        ensures { file_of self.new ≡ record { synced = take kept (file_of self.old).synced; pending = take (kept - length (file_of self.old).synced) (file_of self.old).pending } }
    {
        self.pending
            .truncate(kept.saturating_sub(self.synced.len()));
        self.synced.truncate(kept);
    }

    /// All of it.
    pub fn contents(&self, heap: Global) -> Result<Vec<u8>, AllocError>
        ensures { IfOk result (λ v. v.items ≡ contents (file_of self.now)) }
    {
        let mut all = Vec::from_slice(heap, &self.synced)?;
        all.extend_from_slice(&self.pending)?;
        Ok(all)
    }
}
