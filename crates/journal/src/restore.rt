// After a failed write or sync nothing of the file is trusted but what was synced before: that is written anew beside, and takes the place of the file.
ghost use Rattle.std.specs.Prelude.{◌≡◌, MatchResult, OnOk};
ghost use Rattle.storage.specs.Changes.{Becomes, BecomesSome, Scribbled};
ghost use Rattle.storage.specs.Conditions.{settled};
ghost use Rattle.journal.specs.Openings.{Restored, Unrestored, with_copy};

use crate::load::WINDOW;
use crate::open::open;
use crate::opening::Opening;
use crate::replay::Replay;
use frames::role::Role;
use storage::fault::Fault;
use storage::storage::Storage;

/// Writes anew what is sure of the file, and opens that for a party that has nothing yet.
pub fn restore<P: Replay, S: Storage>(
    party: &mut P,
    store: &mut S,
    role: Role,
    window: &mut Vec<u8>,
) -> Result<Opening, Fault>
    ensures restored { MatchResult result (λ _. Restored P.Replay.replays role (S.Storage.holds store.old) (S.Storage.holds store.new) party.old party.new) (λ _. Unrestored role (S.Storage.holds store.old) (S.Storage.holds store.new)) }
    ensures state { OnOk result (S.Storage.state store.new ≡ settled) }
    ensures sent { S.Storage.sent store.new ≡ S.Storage.sent store.old }
{
    copy_sure(store, window)?;
    store.rename()?;
    open(party, store, role, window)
}

// What is sure stands beside, synced.
fn copy_sure<S: Storage>(store: &mut S, window: &mut Vec<u8>) -> Result<(), Fault>
    ensures disk { MatchResult result (λ _. Becomes S.Storage.holds store.old store.new with_copy) (λ _. BecomesSome S.Storage.holds store.old store.new Scribbled) }
    ensures state { S.Storage.state store.new ≡ S.Storage.state store.old }
    ensures sent { S.Storage.sent store.new ≡ S.Storage.sent store.old }
{
    let sure = store.sure();
    store.clear_beside()?;
    let mut place: u64 = 0;
    while place < sure {
        let most = (sure - place).min(WINDOW as u64) as usize;
        store.read(place, most, window)?;
        if window.is_empty() {
            return Err(Fault::System);
        }
        store.write_beside(window)?;
        place = place.saturating_add(window.len() as u64);
    }
    store.sync_beside()
}
