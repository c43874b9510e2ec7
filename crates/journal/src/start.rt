// How a party comes up.
ghost use Rattle.std.specs.Prelude.{◌≡◌, MatchResult, OnOk};
ghost use Rattle.storage.specs.Conditions.{settled};
ghost use Rattle.journal.specs.Openings.{Started, Unstarted};

use crate::open::open;
use crate::opening::Opening;
use crate::replay::Replay;
use crate::restore::restore;
use frames::role::Role;
use storage::fault::Fault;
use storage::storage::Storage;

/// Opens the file of a party that has nothing yet. If the file is not to be trusted, what is sure of it is written anew first.
pub fn start<P: Replay, S: Storage>(
    party: &mut P,
    store: &mut S,
    role: Role,
    window: &mut Vec<u8>,
) -> Result<Opening, Fault>
    ensures started { MatchResult result (λ o. Started P.Replay.replays role (S.Storage.holds store.old) (S.Storage.holds store.new) party.old party.new (S.Storage.state store.old).trusted o) (λ _. Unstarted role (S.Storage.holds store.old) (S.Storage.holds store.new)) }
    ensures state { OnOk result (S.Storage.state store.new ≡ settled) }
    ensures sent { S.Storage.sent store.new ≡ S.Storage.sent store.old }
{
    if store.condition().trusted {
        open(party, store, role, window)
    } else {
        restore(party, store, role, window)
    }
}
