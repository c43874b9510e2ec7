// What waits for a sync. The storage stands beside its party: it stays when the party falls and a new one comes up on it.
ghost use Rattle.std.specs.Prelude.{◌≡◌, ℕ, true, ◌++◌, map, take, MatchResult, OnOk};
ghost use Rattle.protocol_files.specs.Disk.{sync};
ghost use Rattle.storage.specs.Conditions.{settled};
ghost use Rattle.storage.specs.Changes.{Becomes, BecomesSome, Stays, Shortened};
ghost use Rattle.parties.specs.Views.{message_of};
ghost use Rattle.storage.specs.Memories.{parcel_of};
ghost use Rattle.parties_files.specs.Commits.{Commits, each};

use notes::ids::{NoteId, PartyId};
use parties::message::Message;
use storage::fault::Fault;
use storage::outgoing::Outgoing;
use storage::storage::Storage;

/// Syncs what was written, if anything was.
pub fn settle<S: Storage>(store: &mut S) -> Result<(), Fault>
    ensures disk { MatchResult result (λ _. Becomes S.Storage.holds store.old store.new sync) (λ _. BecomesSome S.Storage.holds store.old store.new Shortened) }
    ensures state { OnOk result (S.Storage.state store.new ≡ settled) }
    ensures sent { S.Storage.sent store.new ≡ S.Storage.sent store.old }
{
    let known = store.condition();
    if !known.placed || !known.trusted {
        return Err(Fault::System);
    }
    if known.synced {
        return Ok(());
    }
    store.sync()
}

/// Sends all of it, in order, or as much as goes out.
pub fn release<S: Storage>(store: &mut S, outbox: &[Outgoing]) -> Result<(), Fault>
    requires synced { (S.Storage.state store.old).synced ≡ true }
    requires placed { (S.Storage.state store.old).placed ≡ true }
    ensures disk { Stays S.Storage.holds store.old store.new }
    ensures state { S.Storage.state store.new ≡ S.Storage.state store.old }
    ensures sent { MatchResult result (λ _. S.Storage.sent store.new ≡ S.Storage.sent store.old ++ map parcel_of outbox.now) (λ _. (k : ℕ) × (S.Storage.sent store.new ≡ S.Storage.sent store.old ++ map parcel_of (take k outbox.now))) }
{
    for what in outbox {
        store.send(*what)?;
    }
    Ok(())
}

/// Writes bytes to a file on which all is synced, and syncs them. If that fails, some first part of them may stand on it.
pub fn commit<S: Storage>(store: &mut S, bytes: &[u8]) -> Result<(), Fault>
    ensures disk { Commits S.Storage.holds store.old store.new bytes.now result }
    ensures state { OnOk result (S.Storage.state store.new ≡ settled) }
    ensures sent { S.Storage.sent store.new ≡ S.Storage.sent store.old }
{
    if !store.condition().synced {
        return Err(Fault::System);
    }
    store.append(bytes)?;
    settle(store).map_err(|_| Fault::System)
}

/// Sends a message about a note to each warden, in their order, or to as many as it goes out to.
pub fn send_each<S: Storage>(
    store: &mut S,
    wardens: u8,
    note: NoteId,
    message: Message,
) -> Result<(), Fault>
    requires synced { (S.Storage.state store.old).synced ≡ true }
    requires placed { (S.Storage.state store.old).placed ≡ true }
    ensures disk { Stays S.Storage.holds store.old store.new }
    ensures state { S.Storage.state store.new ≡ S.Storage.state store.old }
    ensures sent { MatchResult result (λ _. S.Storage.sent store.new ≡ S.Storage.sent store.old ++ each wardens note.0 (message_of message)) (λ _. (k : ℕ) × (S.Storage.sent store.new ≡ S.Storage.sent store.old ++ take k (each wardens note.0 (message_of message)))) }
{
    // These are the numbers of parties.
    for to in 0..wardens {
        let to = PartyId(to as u32);
        store.send(Outgoing { to, note, message })?;
    }
    Ok(())
}
