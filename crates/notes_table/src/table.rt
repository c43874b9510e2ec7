// Tables of things by the numbers of notes.
ghost use Rattle.std.specs.Prelude.{◌≡◌, ◌<◌, ◌≤◌, true, false, is_some, None, MatchBool};
ghost use Rattle.std.specs.Borrow.{sem, follows_so};
ghost use Rattle.std.specs.BTreeMap.{btree_map_len, IsOrdered};
ghost use Rattle.std.specs.Ordering.{nat_cmp};
ghost use Rattle.std.proofs.Props.{props};
ghost use Rattle.std.specs.Option.{ghost_name_of as name_of, option_map};

use crate::unplaced::Unplaced;
use notes::ids::NoteId;
use std::alloc::Global;
use std::collections::BTreeMap;
use std::collections::btree_map::Iter;

/// The most numbers that a table has.
pub const MOST: usize = 4096;

/// What is had of each number.
#[derive(Drop)]
pub struct Table<T> {
    pub notes: BTreeMap<NoteId, T>,
    ghost rising: { IsOrdered (λ m n. nat_cmp m.0 n.0) notes } by { Prim.hlevel props },
    ghost few: { btree_map_len notes ≤ 4096 },
}

impl<T: Copy> Table<T> {
    ghost use Rattle.notes_table.specs.Views.{map_of, many, had, Replaced, Sets, Puts};
    ghost use Rattle.notes_table.specs.contracts.table.Table.{the_row};

    /// A table that has nothing.
    pub fn new(heap: Global) -> Table<T>
        ensures map { map_of result ≡ (λ _. None) }
        ensures many { many result ≡ 0 }
    {
        Table {
            notes: BTreeMap::new(heap),
        }
    }

    /// How many numbers are had.
    pub fn count(&self) -> usize
        ensures { result ≡ many self.now }
    {
        self.notes.len()
    }

    /// What is had, by rising numbers.
    pub fn iter(&self) -> Iter<'_, NoteId, T>
        ensures { result ≡ self.now.notes.entries }
    {
        self.notes.iter()
    }

    /// What is had under a number.
    pub fn get(&self, number: NoteId) -> Option<T>
        ensures { result ≡ map_of self.now number.0 }
    {
        self.notes.get(&number).copied()
    }

    /// What is had under a number, to be written: the table then has what was written, and else what it had.
    pub fn get_mut(&mut self, number: NoteId) -> Option<&mut T>
        ensures* writes_back { sem 𝓛 (follows_so (the_row T.row) T.row self.entry.ghost_name (name_of result) (λ w t. is_some result ≡ true → Replaced number.0 w self.old t) (λ t. t ≡ self.old)) }
        ensures facts { option_map (λ x. x.now) result ≡ map_of self.old number.0 }
    {
        self.notes.get_mut(&number)
    }

    /// Replaces what is had under a number, and says whether there was anything.
    pub fn set(&mut self, number: NoteId, item: T) -> bool
        ensures { Sets number.0 item self.old self.new result }
    {
        match self.get_mut(number) {
            Some(place) => {
                *place = item;
                true
            }
            None => false,
        }
    }

    /// Puts an item under a number, in place of what was had under it. Where there is no place for one more, nothing changes.
    pub fn put(&mut self, number: NoteId, item: T) -> Result<(), Unplaced>
        ensures { Puts number.0 item self.old self.new result }
    {
        if self.is_full_for(number) {
            return Err(Unplaced::Full);
        }
        self.insert(number, item)
    }

    // The same, where there is a place.
    fn insert(&mut self, number: NoteId, item: T) -> Result<(), Unplaced>
        requires { had self.old number.0 ≡ false → many self.old < 4096 }
        ensures { Puts number.0 item self.old self.new result }
    {
        self.notes.insert(number, item)?;
        Ok(())
    }

    // Whether a number is not had, and there is no place for one more.
    fn is_full_for(&self, number: NoteId) -> bool
        ensures { MatchBool result ((had self.now number.0 ≡ false) × (many self.now ≡ 4096)) (had self.now number.0 ≡ false → many self.now < 4096) }
    {
        self.count() == MOST && !self.notes.contains_key(&number)
    }
}
