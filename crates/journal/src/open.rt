// Opening a file: what is on it is read, cut back to its last whole record and synced, before anything is answered.
ghost use Rattle.std.specs.Prelude.{◌≡◌, ◌-◌, length, IfOk, MatchBool, MatchResult, OnOk};
ghost use Rattle.frames.specs.Journal.{StrictFront};
ghost use Rattle.protocol_files.specs.Disk.{Disk, contents, cut_back};
ghost use Rattle.storage.specs.Changes.{Becomes, BecomesSome, Stays, Perhaps};
ghost use Rattle.storage.specs.Conditions.{settled};
ghost use Rattle.journal.specs.Openings.{Opened, Unopened};

use crate::load::load;
use crate::opening::Opening;
use crate::replay::Replay;
use frames::record::is_strict_front;
use frames::role::Role;
use storage::fault::Fault;
use storage::storage::Storage;

/// Replays the file of a party that has nothing yet. The file then has the records that were replayed, synced, and nothing else.
pub fn open<P: Replay, S: Storage>(
    party: &mut P,
    store: &mut S,
    role: Role,
    window: &mut Vec<u8>,
) -> Result<Opening, Fault>
    ensures opened { MatchResult result (λ o. Opened P.Replay.replays role (S.Storage.holds store.old) (S.Storage.holds store.new) party.old party.new o) (λ _. Unopened role (S.Storage.holds store.old) (S.Storage.holds store.new)) }
    ensures state { OnOk result (S.Storage.state store.new ≡ settled) }
    ensures sent { S.Storage.sent store.new ≡ S.Storage.sent store.old }
{
    if !store.condition().trusted {
        return Err(Fault::System);
    }
    store.clear_beside()?;
    let whole = load(party, store, role, window)?;
    let opening = cut_off(store, role, whole, window)?;
    store.sync_folder()?;
    store.sync()?;
    Ok(opening)
}

// Cuts off what stands behind the whole records; `rest` is that, or the first of it.
fn cut_off<S: Storage>(store: &mut S, role: Role, whole: u64, rest: &[u8]) -> Result<Opening, Fault>
    ensures cut { IfOk result (λ o. (d : Disk) → S.Storage.holds store.old d → o.cut ≡ length (contents d.file) - whole) }
    ensures damaged { IfOk result (λ o. MatchBool o.damaged (StrictFront role rest.now → ⊥) (StrictFront role rest.now)) }
    ensures disk { MatchResult result (λ _. Becomes S.Storage.holds store.old store.new (cut_back whole)) (λ _. BecomesSome S.Storage.holds store.old store.new (Perhaps (cut_back whole))) }
    ensures state { (S.Storage.state store.new).trusted ≡ (S.Storage.state store.old).trusted }
    ensures sent { S.Storage.sent store.new ≡ S.Storage.sent store.old }
{
    let size = store.length()?;
    let damaged = !is_strict_front(role, rest);
    keep_damage(store, whole, damaged)?;
    store.cut_back(whole)?;
    Ok(Opening {
        cut: size.saturating_sub(whole),
        damaged,
    })
}

// Sets aside what is about to be cut off, if it is damage.
fn keep_damage<S: Storage>(store: &mut S, place: u64, damaged: bool) -> Result<(), Fault>
    ensures disk { Stays S.Storage.holds store.old store.new }
    ensures state { S.Storage.state store.new ≡ S.Storage.state store.old }
    ensures sent { S.Storage.sent store.new ≡ S.Storage.sent store.old }
{
    if damaged {
        store.set_aside(place)
    } else {
        Ok(())
    }
}
