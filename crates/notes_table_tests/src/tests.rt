// Tables at their edges: the lowest and the highest number, any order, and as many numbers as there can be.
use notes::ids::NoteId;
use notes_table::table::{MOST, Table};
use notes_table::unplaced::Unplaced;
use std::process::Abort;

fn put(rt: &impl Abort, table: &mut Table<u64>, number: u32, item: u64) {
    assert!(rt; table.put(NoteId(number), item).is_ok());
}

fn has(rt: &impl Abort, table: &Table<u64>, number: u32, item: Option<u64>) {
    assert!(rt; table.get(NoteId(number)) == item);
}

#[test]
fn numbers_come_in_any_order(rt: HostRuntime) {
    let mut table = Table::new(rt.alloc());
    for number in [u32::MAX, 9, 8, 0, 5, 7] {
        has(&rt, &table, number, None);
        put(&rt, &mut table, number, number as u64 + 1);
    }
    assert!(rt; table.count() == 6 && table.iter().count() == 6);
    for ((number, _), expected) in table.iter().zip([0, 5, 7, 8, 9, u32::MAX]) {
        assert!(rt; *number == NoteId(expected));
    }
    for number in [0, 5, 7, 8, 9, u32::MAX] {
        has(&rt, &table, number, Some(number as u64 + 1));
    }
    for number in [1, 6, u32::MAX - 1] {
        has(&rt, &table, number, None);
    }
}

#[test]
fn what_is_had_is_replaced(rt: HostRuntime) {
    let mut table = Table::new(rt.alloc());
    put(&rt, &mut table, 5, 1);
    put(&rt, &mut table, 6, 2);
    put(&rt, &mut table, 5, 3);
    has(&rt, &table, 5, Some(3));
    assert!(rt; table.set(NoteId(6), 4) && !table.set(NoteId(7), 5));
    if let Some(item) = table.get_mut(NoteId(5)) {
        *item = 6;
    }
    has(&rt, &table, 5, Some(6));
    has(&rt, &table, 6, Some(4));
    assert!(rt; table.get_mut(NoteId(7)).is_none());
    assert!(rt; table.count() == 2);
}

#[test]
fn a_full_table_takes_no_other_number(rt: HostRuntime) {
    let mut table = Table::new(rt.alloc());
    for number in 0..4096u32 {
        put(&rt, &mut table, 2 * number, 1);
    }
    for number in [1, 4095, 8191, u32::MAX] {
        assert!(rt; table.put(NoteId(number), 2) == Err(Unplaced::Full));
        has(&rt, &table, number, None);
    }
    put(&rt, &mut table, 8190, 3);
    has(&rt, &table, 8190, Some(3));
    assert!(rt; table.count() == MOST);
}
