use frames::encode::put_take;
use journal::opening::Opening;
use notes::ids::{Edition, NoteId, OFFICE, PartyId, RoundNumber};
use notes::note::Note;
use notes::quorum::Quorum;
use notes::value::Value;
use parties::message::{Incoming, Message};
use parties::refusal::Refusal;
use parties::step::{OfficeDone, WardenDone, WardenOutcome};
use parties_files::office::Office;
use parties_files::warden::Warden;
use std::alloc::Global;
use std::process::Abort;
use std::test::Fail;
use storage::fall::Fall;
use storage::fault::Fault;
use storage::memory::Memory;
use storage::storage::Storage;

const ROUTE: NoteId = NoteId(7);

fn note(edition: u64, value: &[u8]) -> Result<Note, Fail> {
    Ok(Note {
        edition: Edition(edition),
        value: Value::new(value).ok_or_else(|| Fail::new("too long"))?,
    })
}

fn five_wardens() -> Result<Quorum, Fail> {
    Quorum::new(5, 1).ok_or_else(|| Fail::new("no such quorum"))
}

// A storage never fails here unless its fuse has burnt down.
fn done<T>(res: Result<T, Fault>) -> Result<T, Fail> {
    res.map_err(|_| Fail::new("a storage failed"))
}

// The file of a warden has a record of this edition.
fn recorded(disk: &mut Memory, edition: u64) -> Result<(), Fail> {
    put_take(&mut disk.file.synced, ROUTE, &note(edition, b"open")?)?;
    Ok(())
}

fn opened(heap: Global, disk: &mut Memory) -> Result<(Warden, Opening), Fail> {
    let mut warden = Warden::new(heap);
    let opening = done(warden.start(disk))?;
    Ok((warden, opening))
}

fn take(warden: &mut Warden, disk: &mut Memory, edition: u64) -> Result<WardenOutcome, Fail> {
    let incoming = Incoming {
        from: OFFICE,
        note: ROUTE,
        message: Message::Take(note(edition, b"open")?),
    };
    done(warden.on(disk, incoming))
}

fn has_edition(rt: &impl Abort, warden: &Warden, edition: u64) {
    assert_eq!(rt; warden.notes.note(ROUTE).edition, Edition(edition));
}

#[test]
fn file_of_no_bytes(rt: HostRuntime) -> Result<(), Fail> {
    let mut disk = Memory::new(rt.alloc());
    let (mut warden, opening) = opened(rt.alloc(), &mut disk)?;
    assert_eq!(rt; opening.cut, 0);
    assert!(rt; !opening.damaged);
    let incoming = Incoming {
        from: PartyId(65),
        note: ROUTE,
        message: Message::Ask(RoundNumber(1)),
    };
    let asked = done(warden.on(&mut disk, incoming))?;
    assert_eq!(rt; asked, Ok(WardenDone::Answered));
    assert_eq!(rt; disk.outlet.len(), 0);
    done(warden.flush(&mut disk))?;
    assert_eq!(rt; disk.outlet.len(), 1);
    Ok(())
}

#[test]
fn torn_record_alone(rt: HostRuntime) -> Result<(), Fail> {
    let mut disk = Memory::new(rt.alloc());
    recorded(&mut disk, 1)?;
    disk.file.synced.truncate(5);
    let (warden, opening) = opened(rt.alloc(), &mut disk)?;
    assert_eq!(rt; opening.cut, 5);
    assert!(rt; !opening.damaged);
    assert_eq!(rt; disk.file.synced.len(), 0);
    has_edition(&rt, &warden, 0);
    Ok(())
}

#[test]
fn garbage_is_set_aside(rt: HostRuntime) -> Result<(), Fail> {
    let mut disk = Memory::new(rt.alloc());
    recorded(&mut disk, 1)?;
    let size = disk.file.synced.len();
    disk.file.synced.extend_from_slice(&[9, 9, 9])?;
    let (warden, opening) = opened(rt.alloc(), &mut disk)?;
    assert_eq!(rt; opening.cut, 3);
    assert!(rt; opening.damaged);
    assert!(rt; disk.aside.as_slice() == [9, 9, 9].as_slice());
    assert_eq!(rt; disk.file.synced.len(), size);
    has_edition(&rt, &warden, 1);
    Ok(())
}

#[test]
fn editions_do_not_fall(rt: HostRuntime) -> Result<(), Fail> {
    let mut disk = Memory::new(rt.alloc());
    recorded(&mut disk, 5)?;
    recorded(&mut disk, 3)?;
    let (warden, _) = opened(rt.alloc(), &mut disk)?;
    has_edition(&rt, &warden, 5);
    Ok(())
}

#[test]
fn a_cut_keeps_whole_records(rt: HostRuntime) -> Result<(), Fail> {
    let mut disk = Memory::new(rt.alloc());
    let (mut warden, _) = opened(rt.alloc(), &mut disk)?;
    let _ = take(&mut warden, &mut disk, 1)?;
    let _ = take(&mut warden, &mut disk, 2)?;
    disk.fall(Fall::Cut { kept: 20 });
    let (warden, opening) = opened(rt.alloc(), &mut disk)?;
    assert_eq!(rt; opening.cut, 2);
    assert!(rt; !opening.damaged);
    has_edition(&rt, &warden, 1);
    Ok(())
}

#[test]
fn killed_and_then_cut(rt: HostRuntime) -> Result<(), Fail> {
    let mut disk = Memory::new(rt.alloc());
    let (mut warden, _) = opened(rt.alloc(), &mut disk)?;
    let _ = take(&mut warden, &mut disk, 1)?;
    disk.fall(Fall::Killed);
    assert_eq!(rt; disk.file.pending.len(), 18);
    let (warden, _) = opened(rt.alloc(), &mut disk)?;
    has_edition(&rt, &warden, 1);
    disk.fall(Fall::Cut { kept: 0 });
    let (warden, _) = opened(rt.alloc(), &mut disk)?;
    has_edition(&rt, &warden, 1);
    Ok(())
}

#[test]
fn a_failed_sync_is_not_trusted(rt: HostRuntime) -> Result<(), Fail> {
    let mut disk = Memory::new(rt.alloc());
    let (mut warden, _) = opened(rt.alloc(), &mut disk)?;
    let _ = take(&mut warden, &mut disk, 1)?;
    disk.fuse = Some(0);
    assert!(rt; warden.flush(&mut disk).is_err());
    assert!(rt; !warden.up);
    assert_eq!(rt; disk.outlet.len(), 0);
    assert!(rt; !disk.condition().trusted);
    assert!(rt; warden.start(&mut disk).is_err());
    disk.fuse = None;
    let _ = done(warden.start(&mut disk))?;
    assert!(rt; disk.condition().trusted);
    has_edition(&rt, &warden, 0);
    Ok(())
}

#[test]
fn the_office_goes_on_with_its_edition(rt: HostRuntime) -> Result<(), Fail> {
    let mut disk = Memory::new(rt.alloc());
    let mut office = Office::new(rt.alloc(), five_wardens()?);
    let _ = done(office.start(&mut disk))?;
    let value = note(1, b"shut")?.value;
    let written = done(office.write(&mut disk, ROUTE, value))?;
    assert_eq!(rt; written, Ok(OfficeDone::Begun));
    assert_eq!(rt; disk.outlet.len(), 5);
    disk.fall(Fall::Cut { kept: 0 });
    let mut office = Office::new(rt.alloc(), five_wardens()?);
    let _ = done(office.start(&mut disk))?;
    let desk = office.desks.desk(ROUTE);
    assert!(rt; desk.busy);
    assert!(rt; desk.now == note(1, b"shut")?);
    let refused = done(office.write(&mut disk, ROUTE, value))?;
    assert_eq!(rt; refused, Err(Refusal::NotNow));
    Ok(())
}

#[test]
fn what_was_not_recorded_is_not_sent(rt: HostRuntime) -> Result<(), Fail> {
    let mut disk = Memory::new(rt.alloc());
    let mut office = Office::new(rt.alloc(), five_wardens()?);
    let _ = done(office.start(&mut disk))?;
    disk.fuse = Some(0);
    let value = note(1, b"shut")?.value;
    assert!(rt; office.write(&mut disk, ROUTE, value).is_err());
    assert!(rt; !office.up);
    assert_eq!(rt; disk.outlet.len(), 0);
    Ok(())
}
