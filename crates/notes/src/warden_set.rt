// Sets of wardens.
ghost use Rattle.std.specs.Prelude.{◌≡◌, true, false};
ghost use Rattle.register.specs.Count.{put};
ghost use Rattle.notes.specs.Views.{members};

use crate::warden_id::WardenId;

/// Who is in the set, as the bits of one word.
#[derive(Clone, Copy, PartialEq, Eq, Debug)]
pub struct WardenSet {
    pub bits: u64,
}

impl WardenSet {
    pub fn new() -> WardenSet
        ensures { members result ≡ (λ i. false) }
    {
        WardenSet { bits: 0 }
    }

    pub fn contains(self, warden: WardenId) -> bool
        ensures { result ≡ members self warden.index }
    {
        (self.bits >> warden.index) % 2 == 1
    }

    /// The set with one warden more.
    pub fn with(self, warden: WardenId) -> WardenSet
        ensures { members result ≡ put warden.index true (members self) }
    {
        WardenSet {
            bits: self.bits | 1 << warden.index,
        }
    }
}
