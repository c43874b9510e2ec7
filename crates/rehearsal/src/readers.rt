// The readers of a rehearsal.
ghost use Rattle.std.specs.Prelude.{◌≡◌, ℕ, ◌<◌, nat_lt};
ghost use Rattle.register.specs.Count.{put};
ghost use Rattle.protocol.specs.Reader.{new_reader};
ghost use Rattle.parties.specs.Readers.{reader_of};
ghost use Rattle.rehearsal.specs.Casts.{numbers_by, readers_of, numbers_of};

use crate::reader_id::ReaderId;
use notes::ids::RoundNumber;
use notes::quorum::Quorum;
use parties::reader::Reader;

/// The number of each reader's first round.
pub const FIRST_ROUND: RoundNumber = RoundNumber(1);

/// All of them are there from the start.
#[derive(Clone, Copy)]
pub struct Readers {
    pub each: [Reader; 4],
}

impl Readers {
    /// None has begun to read.
    pub fn new(quorum: Quorum) -> Readers
        ensures readers { readers_of result ≡ (λ j. new_reader 1) }
        ensures numbers { (j : ℕ) → j < 4 → numbers_of result j ≡ (quorum.wardens, quorum.faults) }
    {
        Readers {
            each: [Reader::new(quorum, FIRST_ROUND); 4],
        }
    }

    pub fn get(&self, id: ReaderId) -> &Reader
        ensures reader { reader_of result.now ≡ readers_of self.now id.index }
        ensures numbers { numbers_by result.now ≡ numbers_of self.now id.index }
    {
        &self.each[id.index as usize]
    }

    pub fn set(&mut self, id: ReaderId, reader: Reader)
        ensures readers { readers_of self.new ≡ put id.index (reader_of reader) (readers_of self.old) }
        ensures numbers { numbers_by reader ≡ numbers_of self.old id.index → numbers_of self.new ≡ numbers_of self.old }
    {
        self.each[id.index as usize] = reader;
    }

    /// Whether the reader has ever begun a round.
    pub fn has_read(&self, reader: ReaderId) -> bool
        ensures { result ≡ nat_lt 1 (readers_of self.now reader.index).next }
    {
        self.get(reader).next > FIRST_ROUND
    }
}
