// How many wardens there are, how many of them may be faulty, and how many are enough.
ghost use Rattle.std.specs.Prelude.{◌≡◌, ℕ, ◌*◌, ◌<◌, ◌≤◌, Bool, MatchOption};
ghost use Rattle.register.specs.Count.{count};
ghost use Rattle.register.specs.Rule.{quorum as enough};

use crate::ids::PartyId;
use crate::warden_id::WardenId;
use crate::warden_set::WardenSet;

/// From 5 to 63 wardens; fewer than a fourth of them may lie.
#[derive(Clone, Copy, PartialEq, Eq, Debug)]
pub struct Quorum {
    pub wardens: u8,
    pub faults: u8,
    ghost least: { 5 ≤ wardens },
    ghost most: { wardens ≤ 63 },
    ghost few: { 4 * faults < wardens },
}

impl Quorum {
    ghost use Rattle.notes.specs.Views.{members, Numbers, Tells};

    /// So many wardens and faults, if that can be.
    pub fn new(wardens: u8, faults: u8) -> Option<Quorum>
        ensures { MatchOption result (Numbers wardens faults → ⊥) (λ q. (q.wardens ≡ wardens) × (q.faults ≡ faults)) }
    {
        if wardens < 5 || wardens > 63 {
            return None;
        }
        if 4 * (faults as u16) >= wardens as u16 {
            return None;
        }
        Some(Quorum { wardens, faults })
    }

    /// The warden that a party is, if it is one of ours.
    pub fn warden(&self, party: PartyId) -> Option<WardenId>
        ensures { MatchOption result (self.now.wardens ≤ party.0) (λ w. (party.0 < self.now.wardens) × (w.index ≡ party.0)) }
    {
        if party.0 < self.wardens as u32 {
            Some(WardenId {
                index: party.0 as u8,
            })
        } else {
            None
        }
    }

    /// How many of the wardens pass a test.
    pub(crate) fn count<F: Fn(WardenId) -> bool>(&self, test: F) -> u8
        requires { F.IsAlwaysCallable test }
        ensures value { (p : ℕ → Bool) → Tells (F.post test) p → result ≡ count self.now.wardens p }
        ensures bound { result ≤ self.now.wardens }
    {
        let mut all = 0;
        // These are the wardens themselves: a chain would have to make a `WardenId` of a number that it does not know to be small.
        for index in 0..self.wardens {
            if test(WardenId { index }) {
                all += 1;
            }
        }
        all
    }

    /// Whether all wardens but as many as may be faulty are in the set.
    pub fn is_met(&self, set: WardenSet) -> bool
        ensures { result ≡ enough self.now.wardens self.now.faults (count self.now.wardens (members set)) }
    {
        self.wardens <= self.count(|warden| set.contains(warden)) + self.faults
    }
}
