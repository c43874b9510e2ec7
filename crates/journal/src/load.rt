// Reading a file, a window at a time.
ghost use Rattle.std.specs.Prelude.{◌≡◌, IfOk};
ghost use Rattle.storage.specs.Changes.{Stays};
ghost use Rattle.journal.specs.Replays.{ScannedAll, Loads};

use crate::replay::Replay;
use frames::record::first_record;
use frames::role::Role;
use storage::fault::Fault;
use storage::storage::Storage;

/// How many bytes of a file are read at once. No record is longer.
pub const WINDOW: usize = 65536;

/// Replays the whole records at the front of the file, and says how many bytes they take. The window has what follows, or the first of it.
pub fn load<P: Replay, S: Storage>(
    party: &mut P,
    store: &mut S,
    role: Role,
    window: &mut Vec<u8>,
) -> Result<u64, Fault>
    ensures loads { IfOk result (λ n. Loads P.Replay.replays role (S.Storage.holds store.old) n party.old party.new window.new.items) }
    ensures disk { Stays S.Storage.holds store.old store.new }
    ensures state { S.Storage.state store.new ≡ S.Storage.state store.old }
    ensures sent { S.Storage.sent store.new ≡ S.Storage.sent store.old }
{
    let mut place: u64 = 0;
    loop {
        store.read(place, WINDOW, window)?;
        let size = replay_front(party, role, window)?;
        if size == 0 {
            return Ok(place);
        }
        place = place.checked_add(size as u64).ok_or(Fault::System)?;
    }
}

// Replays the whole records at the front, and says how many bytes they take.
fn replay_front<P: Replay>(party: &mut P, role: Role, bytes: &[u8]) -> Result<usize, Fault>
    ensures { IfOk result (λ n. ScannedAll P.Replay.replays role bytes.now n party.old party.new) }
{
    let mut rest = bytes;
    while let Some(front) = first_record(role, rest) {
        party.replay(front.frame)?;
        rest = front.rest;
    }
    Ok(bytes.len() - rest.len())
}
