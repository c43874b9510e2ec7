// A file and a line, seen through a trait. No contract can say what a real file holds, so the trait says what becomes of the
// disk in terms of what it was: an end in memory is proved to meet that, and the end over a real file is trusted to.
ghost use Rattle.std.specs.Prelude.{◌≡◌, true, false, List, [], ◌∷◌, ◌++◌, length, take, drop, is_ok, IfOk, if◌then◌else◌, MatchResult, OnOk};
ghost use Rattle.parties.specs.Views.{message_of};
ghost use Rattle.protocol_files.specs.Disk.{Disk, blank, contents, append, sync, cut_back, with_beside, write_beside, sync_beside, rename, sync_folder};
ghost use Rattle.storage.specs.Changes.{Parcel, Becomes, BecomesSome, Stays, Shortened, Scribbled, Perhaps};
ghost use Rattle.storage.specs.declared.condition.Condition.{Condition as State};

use crate::condition::Condition;
use crate::fault::Fault;
use crate::outgoing::Outgoing;

pub trait Storage {
    // The disk that it has; what is known of it; what was sent, the oldest first.
    ghost holds: { Self → Disk → Type 0 };

    ghost state: { Self → State };

    ghost sent: { Self → List Parcel };

    fn condition(&self) -> Condition
        ensures { result ≡ state self.now };

    /// How many bytes of the file are synced.
    fn sure(&self) -> u64
        ensures { (d : Disk) → holds self.now d → result ≡ length d.file.synced };

    /// How many bytes the file has.
    fn length(&mut self) -> Result<u64, Fault>
        ensures value { IfOk result (λ size. (d : Disk) → holds self.old d → size ≡ length (contents d.file)) }
        ensures disk { Stays holds self.old self.new }
        ensures state { state self.new ≡ state self.old }
        ensures sent { sent self.new ≡ sent self.old };

    /// Adds bytes to the file. They need not be on it before they are synced.
    fn append(&mut self, bytes: &[u8]) -> Result<(), Fault>
        ensures disk { MatchResult result (λ _. Becomes holds self.old self.new (append bytes.now)) (λ _. Stays holds self.old self.new) }
        ensures state { state self.new ≡ (if is_ok result then (record { synced = false; placed = (state self.old).placed; trusted = (state self.old).trusted }) else state self.old) }
        ensures sent { sent self.new ≡ sent self.old };

    /// Makes all that was added last. Where it fails the file is not to be trusted again.
    fn sync(&mut self) -> Result<(), Fault>
        requires { (state self.old).trusted ≡ true }
        ensures disk { MatchResult result (λ _. Becomes holds self.old self.new sync) (λ _. BecomesSome holds self.old self.new Shortened) }
        ensures state { state self.new ≡ record { synced = is_ok result; placed = (state self.old).placed; trusted = is_ok result } }
        ensures sent { sent self.new ≡ sent self.old };

    /// Sends a message. It speaks of what is on the file, so nothing may be pending.
    fn send(&mut self, what: Outgoing) -> Result<(), Fault>
        requires synced { (state self.old).synced ≡ true }
        requires placed { (state self.old).placed ≡ true }
        ensures disk { Stays holds self.old self.new }
        ensures state { state self.new ≡ state self.old }
        ensures sent { sent self.new ≡ (if is_ok result then sent self.old ++ (record { to = what.to.0; note = what.note.0; message = message_of what.message } ∷ []) else sent self.old) };

    /// Reads up to so many bytes of the file from a place on; fewer only where it ends.
    fn read(&mut self, place: u64, most: usize, into: &mut Vec<u8>) -> Result<(), Fault>
        ensures bytes { OnOk result ((d : Disk) → holds self.old d → into.new.items ≡ take most (drop place (contents d.file))) }
        ensures disk { Stays holds self.old self.new }
        ensures state { state self.new ≡ state self.old }
        ensures sent { sent self.new ≡ sent self.old };

    /// Cuts off all but the first bytes of the file.
    fn cut_back(&mut self, kept: u64) -> Result<(), Fault>
        ensures disk { MatchResult result (λ _. Becomes holds self.old self.new (cut_back kept)) (λ _. BecomesSome holds self.old self.new (Perhaps (cut_back kept))) }
        ensures state { state self.new ≡ record { synced = false; placed = (state self.old).placed; trusted = (state self.old).trusted } }
        ensures sent { sent self.new ≡ sent self.old };

    /// Copies what stands in the file from a place on to where damage is kept.
    fn set_aside(&mut self, place: u64) -> Result<(), Fault>
        ensures disk { Stays holds self.old self.new }
        ensures state { state self.new ≡ state self.old }
        ensures sent { sent self.new ≡ sent self.old };

    /// Begins a file beside, which is empty; what stood there is gone.
    fn clear_beside(&mut self) -> Result<(), Fault>
        ensures disk { MatchResult result (λ _. Becomes holds self.old self.new (with_beside blank)) (λ _. BecomesSome holds self.old self.new Scribbled) }
        ensures state { state self.new ≡ state self.old }
        ensures sent { sent self.new ≡ sent self.old };

    fn write_beside(&mut self, bytes: &[u8]) -> Result<(), Fault>
        ensures disk { MatchResult result (λ _. Becomes holds self.old self.new (write_beside bytes.now)) (λ _. BecomesSome holds self.old self.new Scribbled) }
        ensures state { state self.new ≡ state self.old }
        ensures sent { sent self.new ≡ sent self.old };

    fn sync_beside(&mut self) -> Result<(), Fault>
        ensures disk { MatchResult result (λ _. Becomes holds self.old self.new sync_beside) (λ _. BecomesSome holds self.old self.new Scribbled) }
        ensures state { state self.new ≡ state self.old }
        ensures sent { sent self.new ≡ sent self.old };

    /// The file beside takes the place of the file. The folder is to be synced then.
    fn rename(&mut self) -> Result<(), Fault>
        ensures disk { MatchResult result (λ _. Becomes holds self.old self.new rename) (λ _. BecomesSome holds self.old self.new (Perhaps rename)) }
        ensures state { state self.new ≡ record { synced = false; placed = false; trusted = is_ok result } }
        ensures sent { sent self.new ≡ sent self.old };

    fn sync_folder(&mut self) -> Result<(), Fault>
        ensures disk { MatchResult result (λ _. Becomes holds self.old self.new sync_folder) (λ _. Stays holds self.old self.new) }
        ensures state { state self.new ≡ (if is_ok result then (record { synced = (state self.old).synced; placed = true; trusted = (state self.old).trusted }) else state self.old) }
        ensures sent { sent self.new ≡ sent self.old };

    // What it knows of its disk is so.
    ghost synced: { (s : Self) (d : Disk) → holds s d → (state s).synced ≡ true → d.file.pending ≡ [] };

    ghost placed: { (s : Self) (d : Disk) → holds s d → (state s).placed ≡ true → d.former ≡ [] };
}
