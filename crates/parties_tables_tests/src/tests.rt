// Many notes: the first and the last numbers, a full table, and several writings at once.
use notes::ids::{Edition, NoteId, OFFICE, PartyId, RoundNumber};
use notes::note::Note;
use notes::quorum::Quorum;
use notes::value::Value;
use parties::message::{Incoming, Message, Sends};
use parties::refusal::Refusal;
use parties::step::{OfficeDone, OfficeOutcome, OfficeStep, WardenDone, WardenStep};
use parties_tables::office::{Letter, Office};
use parties_tables::warden::Warden;
use std::process::Abort;
use std::test::Fail;

fn value(byte: u8) -> Result<Value, Fail> {
    Value::new(&[byte]).ok_or_else(|| Fail::new("too long"))
}

fn note(edition: u64, byte: u8) -> Result<Note, Fail> {
    Ok(Note {
        edition: Edition(edition),
        value: value(byte)?,
    })
}

// A message comes from the office; there is memory.
fn take(warden: &mut Warden, number: u32, note: Note) -> Result<WardenStep, Fail> {
    let incoming = Incoming {
        from: OFFICE,
        note: NoteId(number),
        message: Message::Take(note),
    };
    warden.on(incoming).map_err(|_| Fail::new("no memory"))
}

// The number of the refusal, if it is one.
fn refused<D: Copy>(outcome: Result<D, Refusal>) -> Option<u8> {
    outcome.err().map(u8::from)
}

#[test]
fn a_warden_has_notes_apart(rt: HostRuntime) -> Result<(), Fail> {
    let mut warden = Warden::new(rt.alloc());
    let _ = take(&mut warden, 0, note(1, 10)?)?;
    let _ = take(&mut warden, u32::MAX, note(7, 20)?)?;
    assert!(rt; warden.note(NoteId(0)).edition == Edition(1));
    assert!(rt; warden.note(NoteId(u32::MAX)).edition == Edition(7));
    assert!(rt; warden.note(NoteId(1)).edition == Edition(0));
    // What one note has is nothing to another.
    assert!(rt; refused(take(&mut warden, 0, note(1, 11)?)?.outcome) == Some(2));
    assert!(rt; take(&mut warden, 0, note(2, 12)?)?.outcome == Ok(WardenDone::Taken));
    assert!(rt; warden.note(NoteId(u32::MAX)).edition == Edition(7));
    assert!(rt; warden.notes.count() == 2);
    Ok(())
}

#[test]
fn a_warden_tells_nothing_of_what_it_does_not_have(rt: HostRuntime) -> Result<(), Fail> {
    let mut warden = Warden::new(rt.alloc());
    let incoming = Incoming {
        from: PartyId(70),
        note: NoteId(5),
        message: Message::Ask(RoundNumber(3)),
    };
    let step = warden.on(incoming).map_err(|_| Fail::new("no memory"))?;
    assert!(rt; step.outcome == Ok(WardenDone::Answered));
    // It has no more notes for it, and a take of edition 0 brings none.
    assert!(rt; refused(take(&mut warden, 5, note(0, 1)?)?.outcome) == Some(2));
    assert!(rt; warden.notes.count() == 0);
    Ok(())
}

// A warden with as many notes as there may be: the even numbers from 0 on.
fn full_warden(rt: &(impl Abort + AllocGlobal)) -> Result<Warden, Fail> {
    let mut warden = Warden::new(rt.alloc());
    for i in 0..4096u32 {
        assert!(rt; take(&mut warden, 2 * i, note(1, 1)?)?.outcome == Ok(WardenDone::Taken));
    }
    Ok(warden)
}

#[test]
fn the_4097th_note_is_turned_away(rt: HostRuntime) -> Result<(), Fail> {
    let mut warden = full_warden(&rt)?;
    let step = take(&mut warden, 9, note(1, 1)?)?;
    assert!(rt; refused(step.outcome) == Some(6) && step.sends == Sends::Nothing);
    assert!(rt; warden.note(NoteId(9)).edition == Edition(0));
    // Edition 0 is never above: that number is the lower one, and took is said.
    let step = take(&mut warden, 9, note(0, 1)?)?;
    assert!(rt; refused(step.outcome) == Some(2) && step.sends != Sends::Nothing);
    // A note that is had is still taken.
    assert!(rt; take(&mut warden, 8190, note(2, 1)?)?.outcome == Ok(WardenDone::Taken));
    assert!(rt; warden.notes.count() == 4096);
    Ok(())
}

fn office(rt: &HostRuntime) -> Result<Office, Fail> {
    let quorum = Quorum::new(5, 1).ok_or_else(|| Fail::new("no such quorum"))?;
    Ok(Office::new(rt.alloc(), quorum))
}

fn write(office: &mut Office, number: u32, byte: u8) -> Result<OfficeStep, Fail> {
    office
        .write(NoteId(number), value(byte)?)
        .map_err(|_| Fail::new("no memory"))
}

fn letters(office: &Office, rt: &HostRuntime) -> Result<Vec<Letter>, Fail> {
    office.tick(rt.alloc()).map_err(|_| Fail::new("no memory"))
}

fn took(office: &mut Office, warden: u32, number: u32, edition: u64) -> OfficeOutcome {
    office
        .on(Incoming {
            from: PartyId(warden),
            note: NoteId(number),
            message: Message::Took(Edition(edition)),
        })
        .outcome
}

#[test]
fn several_notes_are_written_at_once(rt: HostRuntime) -> Result<(), Fail> {
    let mut office = office(&rt)?;
    assert!(rt; write(&mut office, 9, 1)?.outcome == Ok(OfficeDone::Begun));
    assert!(rt; write(&mut office, 4, 2)?.outcome == Ok(OfficeDone::Begun));
    assert!(rt; refused(write(&mut office, 9, 3)?.outcome) == Some(5));
    // In the order in which they began.
    let both = letters(&office, &rt)?;
    assert!(rt; both.len() == 2);
    assert!(rt; both[0].note == NoteId(9) && both[1].note == NoteId(4));
    // A took of one note counts for that note alone.
    for i in 0..3 {
        assert!(rt; took(&mut office, i, 9, 1) == Ok(OfficeDone::Counted));
    }
    assert!(rt; took(&mut office, 3, 4, 1) == Ok(OfficeDone::Counted));
    assert!(rt; took(&mut office, 3, 9, 1) == Ok(OfficeDone::Ended));
    assert!(rt; refused(took(&mut office, 4, 9, 1)) == Some(4));
    let one = letters(&office, &rt)?;
    assert!(rt; one.len() == 1);
    assert!(rt; one[0].note == NoteId(4));
    Ok(())
}

#[test]
fn a_note_that_was_never_written_awaits_nothing(rt: HostRuntime) -> Result<(), Fail> {
    let mut office = office(&rt)?;
    assert!(rt; refused(took(&mut office, 0, 7, 0)) == Some(4));
    assert!(rt; refused(took(&mut office, 5, 7, 0)) == Some(1));
    assert!(rt; letters(&office, &rt)?.len() == 0);
    Ok(())
}

#[test]
fn the_office_has_4096_notes(rt: HostRuntime) -> Result<(), Fail> {
    let mut office = office(&rt)?;
    for i in 0..4096u32 {
        assert!(rt; write(&mut office, u32::MAX - i, 1)?.outcome == Ok(OfficeDone::Begun));
    }
    let step = write(&mut office, 0, 1)?;
    assert!(rt; refused(step.outcome) == Some(6) && step.sends == Sends::Nothing);
    assert!(rt; refused(write(&mut office, u32::MAX, 1)?.outcome) == Some(5));
    for i in 0..4 {
        let _ = took(&mut office, i, u32::MAX, 1);
    }
    assert!(rt; write(&mut office, u32::MAX, 2)?.outcome == Ok(OfficeDone::Begun));
    Ok(())
}
