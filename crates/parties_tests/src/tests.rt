// One note at its edges: the smallest and the largest numbers, and the mistakes that the rules rule out.
use notes::ids::{Edition, LAST_EDITION, NoteId, OFFICE, PartyId, RoundNumber};
use notes::note::Note;
use notes::quorum::Quorum;
use notes::value::Value;
use parties::desk::Desk;
use parties::message::{Incoming, Message, Sends};
use parties::reader::Reader;
use parties::refusal::Refusal;
use parties::slot::Slot;
use parties::step::{OfficeDone, OfficeOutcome, ReaderDone, ReaderOutcome, WardenDone};
use std::process::Abort;
use std::test::Fail;

fn quorum(wardens: u8, faults: u8) -> Result<Quorum, Fail> {
    Quorum::new(wardens, faults).ok_or_else(|| Fail::new("no such quorum"))
}

fn value(bytes: &[u8]) -> Result<Value, Fail> {
    Value::new(bytes).ok_or_else(|| Fail::new("too long"))
}

fn note(edition: u64, bytes: &[u8]) -> Result<Note, Fail> {
    Ok(Note {
        edition: Edition(edition),
        value: value(bytes)?,
    })
}

fn is_note(note: &Note, edition: u64, bytes: &[u8]) -> bool {
    note.edition == Edition(edition) && note.value.bytes() == bytes
}

// A reader in its first round, number 1, of a reading of note 7.
fn reading(rt: &impl Abort, wardens: u8, faults: u8) -> Result<Reader, Fail> {
    let mut reader = Reader::new(quorum(wardens, faults)?, RoundNumber(1));
    assert!(rt; reader.read(NoteId(7)).outcome == Ok(ReaderDone::Asked));
    Ok(reader)
}

fn tell(reader: &mut Reader, warden: u32, note: Note) -> ReaderOutcome {
    let round = reader.round.number;
    reader
        .on(Incoming {
            from: PartyId(warden),
            note: NoteId(7),
            message: Message::Told(round, note),
        })
        .outcome
}

fn asks(round: u64) -> Sends {
    Sends::Each(Message::Ask(RoundNumber(round)))
}

fn took(edition: u64) -> Sends {
    Sends::One(OFFICE, Message::Took(Edition(edition)))
}

// The number of the refusal, if it is one.
fn refused<D: Copy>(outcome: Result<D, Refusal>) -> Option<u8> {
    outcome.err().map(u8::from)
}

// The note that is read, if one is.
fn is_read(outcome: ReaderOutcome, edition: u64, bytes: &[u8]) -> bool {
    match outcome {
        Ok(ReaderDone::Read(note)) => is_note(&note, edition, bytes),
        _ => false,
    }
}

#[test]
fn fewer_than_a_fourth_may_be_faulty(rt: HostRuntime) {
    assert!(rt; Quorum::new(4, 0).is_none());
    assert!(rt; Quorum::new(5, 0).is_some());
    assert!(rt; Quorum::new(5, 1).is_some());
    assert!(rt; Quorum::new(5, 2).is_none());
    assert!(rt; Quorum::new(8, 2).is_none());
    assert!(rt; Quorum::new(9, 2).is_some());
    assert!(rt; Quorum::new(63, 15).is_some());
    assert!(rt; Quorum::new(63, 16).is_none());
    assert!(rt; Quorum::new(63, 255).is_none());
    assert!(rt; Quorum::new(64, 1).is_none());
}

#[test]
fn a_value_has_up_to_64_bytes(rt: HostRuntime) -> Result<(), Fail> {
    assert!(rt; is_note(&note(1, b"")?, 1, b""));
    assert!(rt; is_note(&note(1, &[7; 64])?, 1, &[7; 64]));
    assert!(rt; Value::new(&[7; 65]).is_none());
    // What stands past the length is no part of the value.
    assert!(rt; note(1, b"a")? == note(1, b"a")?);
    assert!(rt; note(1, b"a")? != note(1, b"a\0")?);
    assert!(rt; note(1, b"a")? != note(2, b"a")?);
    Ok(())
}

#[test]
fn a_warden_takes_what_is_above_alone(rt: HostRuntime) -> Result<(), Fail> {
    let mut warden = Slot::new();
    let step = warden.on(OFFICE, Message::Take(note(0, b"x")?));
    assert!(rt; refused(step.outcome) == Some(2));
    assert!(rt; step.sends == took(0));
    assert!(rt; is_note(&warden.held, 0, b""));
    assert!(rt;
        warden.on(OFFICE, Message::Take(note(2, b"two")?)).outcome == Ok(WardenDone::Taken)
    );
    // The same edition with another value, and an earlier one: neither is kept, and both are said to be taken.
    let step = warden.on(OFFICE, Message::Take(note(2, b"other")?));
    assert!(rt; refused(step.outcome) == Some(2));
    assert!(rt; step.sends == took(2));
    let step = warden.on(OFFICE, Message::Take(note(1, b"one")?));
    assert!(rt; step.sends == took(1));
    assert!(rt; is_note(&warden.held, 2, b"two"));
    assert!(rt;
        warden
            .on(OFFICE, Message::Take(note(u64::MAX, b"")?))
            .outcome
            == Ok(WardenDone::Taken)
    );
    assert!(rt; is_note(&warden.held, u64::MAX, b""));
    Ok(())
}

#[test]
fn a_warden_takes_from_the_office_alone_and_tells_anybody(rt: HostRuntime) -> Result<(), Fail> {
    let mut warden = Slot::new();
    for from in [0, 62, 64, 65, u32::MAX] {
        let step = warden.on(PartyId(from), Message::Take(note(1, b"x")?));
        assert!(rt; refused(step.outcome) == Some(1));
        assert!(rt; step.sends == Sends::Nothing);
        assert!(rt; is_note(&warden.held, 0, b""));
    }
    assert!(rt; warden.on(OFFICE, Message::Take(note(1, b"x")?)).outcome == Ok(WardenDone::Taken));
    for from in [0, 62, 63, 64, 65, u32::MAX] {
        let step = warden.on(PartyId(from), Message::Ask(RoundNumber(u64::MAX)));
        assert!(rt; step.outcome == Ok(WardenDone::Answered));
        let told = Message::Told(RoundNumber(u64::MAX), note(1, b"x")?);
        assert!(rt; step.sends == Sends::One(PartyId(from), told));
    }
    assert!(rt; refused(warden.on(OFFICE, Message::Took(Edition(1))).outcome) == Some(1));
    assert!(rt;
        refused(
            warden
                .on(PartyId(65), Message::Told(RoundNumber(1), note(9, b"")?))
                .outcome,
        ) == Some(1)
    );
    assert!(rt; is_note(&warden.held, 1, b"x"));
    Ok(())
}

// The warden says that it took edition 1, and says it again, which counts for nothing.
fn counts_once(rt: &impl Abort, desk: &mut Desk, quorum: &Quorum, warden: u32) -> OfficeOutcome {
    let took = Message::Took(Edition(1));
    let outcome = desk.on(quorum, PartyId(warden), took).outcome;
    assert!(rt; refused(desk.on(quorum, PartyId(warden), took).outcome) == Some(4));
    outcome
}

// The writing of an edition comes to an end with this warden, and no sooner.
fn ends_with(rt: &impl Abort, wardens: u8, faults: u8, last: u32) -> Result<(), Fail> {
    let quorum = quorum(wardens, faults)?;
    let mut desk = Desk::new();
    assert!(rt; desk.write(value(b"open")?).outcome == Ok(OfficeDone::Begun));
    for i in 0..last {
        assert!(rt; counts_once(rt, &mut desk, &quorum, i) == Ok(OfficeDone::Counted));
        assert!(rt; desk.busy);
    }
    assert!(rt; counts_once(rt, &mut desk, &quorum, last) == Ok(OfficeDone::Ended));
    assert!(rt; !desk.busy);
    Ok(())
}

#[test]
fn a_writing_ends_when_all_but_f_have_it(rt: HostRuntime) -> Result<(), Fail> {
    ends_with(&rt, 5, 1, 3)?;
    ends_with(&rt, 5, 0, 4)?;
    ends_with(&rt, 9, 2, 6)?;
    ends_with(&rt, 63, 15, 47)?;
    ends_with(&rt, 63, 0, 62)
}

// An office that writes edition 1, of five wardens of whom one may lie.
fn writing(rt: &impl Abort) -> Result<Desk, Fail> {
    let mut desk = Desk::new();
    assert!(rt; desk.tick().outcome == Ok(OfficeDone::NoWriting));
    assert!(rt; desk.write(value(b"a")?).outcome == Ok(OfficeDone::Begun));
    Ok(desk)
}

#[test]
fn an_office_counts_the_edition_that_is_being_written(rt: HostRuntime) -> Result<(), Fail> {
    let quorum = quorum(5, 1)?;
    let mut idle = Desk::new();
    assert!(rt;
        refused(
            idle.on(&quorum, PartyId(0), Message::Took(Edition(0)))
                .outcome,
        ) == Some(4)
    );
    let mut desk = writing(&rt)?;
    assert!(rt; refused(desk.write(value(b"b")?).outcome) == Some(5));
    assert!(rt;
        refused(
            desk.on(&quorum, PartyId(5), Message::Took(Edition(1)))
                .outcome,
        ) == Some(1)
    );
    assert!(rt;
        refused(
            desk.on(&quorum, PartyId(0), Message::Ask(RoundNumber(1)))
                .outcome,
        ) == Some(1)
    );
    assert!(rt;
        refused(
            desk.on(&quorum, PartyId(0), Message::Took(Edition(2)))
                .outcome,
        ) == Some(4)
    );
    assert!(rt; is_note(&desk.now, 1, b"a"));
    Ok(())
}

#[test]
fn a_word_on_the_edition_before_does_not_count(rt: HostRuntime) -> Result<(), Fail> {
    let quorum = quorum(5, 1)?;
    let mut desk = writing(&rt)?;
    for i in 0..4 {
        let _ = desk.on(&quorum, PartyId(i), Message::Took(Edition(1)));
    }
    assert!(rt; desk.write(value(b"b")?).outcome == Ok(OfficeDone::Begun));
    assert!(rt;
        refused(
            desk.on(&quorum, PartyId(4), Message::Took(Edition(1)))
                .outcome,
        ) == Some(4)
    );
    assert!(rt;
        desk.on(&quorum, PartyId(0), Message::Took(Edition(2)))
            .outcome
            == Ok(OfficeDone::Counted)
    );
    assert!(rt; desk.tick().sends == Sends::Each(Message::Take(note(2, b"b")?)));
    Ok(())
}

#[test]
fn editions_are_used_up(rt: HostRuntime) -> Result<(), Fail> {
    let quorum = quorum(5, 1)?;
    let mut desk = Desk::new();
    desk.now.edition = Edition(LAST_EDITION - 1);
    let value = value(b"last")?;
    assert!(rt; desk.write(value).outcome == Ok(OfficeDone::Begun));
    assert!(rt; is_note(&desk.now, LAST_EDITION, b"last"));
    for i in 0..4 {
        let _ = desk.on(&quorum, PartyId(i), Message::Took(Edition(LAST_EDITION)));
    }
    assert!(rt; !desk.busy);
    assert!(rt; refused(desk.write(value).outcome) == Some(5));
    assert!(rt; is_note(&desk.now, LAST_EDITION, b"last"));
    Ok(())
}

// The number by which a reader of note 7, in its round 1, refuses a message.
fn refuses(reader: &mut Reader, from: u32, about: u32, message: Message) -> Option<u8> {
    let incoming = Incoming {
        from: PartyId(from),
        note: NoteId(about),
        message,
    };
    refused(reader.on(incoming).outcome)
}

#[test]
fn a_reader_passes_over_what_it_does_not_await(rt: HostRuntime) -> Result<(), Fail> {
    let mut reader = reading(&rt, 5, 1)?;
    let x = note(1, b"x")?;
    let told = Message::Told(RoundNumber(1), x);
    assert!(rt; refuses(&mut reader, 5, 7, told) == Some(1));
    assert!(rt; refuses(&mut reader, 63, 7, told) == Some(1));
    assert!(rt; refuses(&mut reader, 0, 7, Message::Take(x)) == Some(1));
    assert!(rt; refuses(&mut reader, 0, 8, told) == Some(3));
    assert!(rt; refuses(&mut reader, 0, 7, Message::Told(RoundNumber(0), x)) == Some(3));
    assert!(rt; refuses(&mut reader, 0, 7, Message::Told(RoundNumber(2), x)) == Some(3));
    assert!(rt; tell(&mut reader, 0, x) == Ok(ReaderDone::Heard));
    assert!(rt; refuses(&mut reader, 0, 7, told) == Some(3));
    Ok(())
}

#[test]
fn a_new_reading_gives_the_old_one_up(rt: HostRuntime) -> Result<(), Fail> {
    let mut reader = Reader::new(quorum(5, 1)?, RoundNumber(1));
    let x = note(1, b"x")?;
    assert!(rt; reader.tick().outcome == Ok(ReaderDone::NoReading));
    assert!(rt; refuses(&mut reader, 0, 0, Message::Told(RoundNumber(0), x)) == Some(3));
    assert!(rt; reader.read(NoteId(7)).sends == asks(1));
    assert!(rt; reader.read(NoteId(u32::MAX)).sends == asks(2));
    assert!(rt; refuses(&mut reader, 1, 7, Message::Told(RoundNumber(1), x)) == Some(3));
    assert!(rt; refuses(&mut reader, 1, u32::MAX, Message::Told(RoundNumber(1), x)) == Some(3));
    assert!(rt; refuses(&mut reader, 1, u32::MAX, Message::Told(RoundNumber(2), x)) == None);
    Ok(())
}

#[test]
fn what_most_say_is_not_enough(rt: HostRuntime) -> Result<(), Fail> {
    let old = note(1, b"old")?;
    let new = note(2, b"new")?;
    // Two against two: the older is as good by count, and is not read.
    let mut reader = reading(&rt, 5, 1)?;
    let _ = tell(&mut reader, 0, old);
    let _ = tell(&mut reader, 1, old);
    let _ = tell(&mut reader, 2, new);
    assert!(rt; is_read(tell(&mut reader, 3, new), 2, b"new"));
    assert!(rt; !reader.busy);
    // What no more than f told alike is not read; a made-up edition counts as later alone.
    let mut reader = reading(&rt, 9, 2)?;
    for i in 0..3 {
        assert!(rt; tell(&mut reader, i, old) == Ok(ReaderDone::Heard));
    }
    for i in 3..5 {
        assert!(rt; tell(&mut reader, i, note(u64::MAX, b"forged")?) == Ok(ReaderDone::Heard));
    }
    assert!(rt; tell(&mut reader, 5, Note::none()) == Ok(ReaderDone::Heard));
    assert!(rt; is_read(tell(&mut reader, 6, Note::none()), 1, b"old"));
    Ok(())
}

// Of 63 wardens, of whom 15 may lie, 48 tell: so many this note, so many a later one, the rest nothing.
fn told_by_many(rt: &impl Abort, votes: u32, later: u32) -> Result<ReaderOutcome, Fail> {
    let mut reader = reading(rt, 63, 15)?;
    let x = note(3, &[9; 64])?;
    let mut outcome = Ok(ReaderDone::NoReading);
    for i in 0..48u32 {
        let what = if i < votes {
            x
        } else if i - votes < later {
            note(4 + i as u64, b"")?
        } else {
            Note::none()
        };
        outcome = tell(&mut reader, i, what);
    }
    Ok(outcome)
}

#[test]
fn more_than_f_and_no_more_than_f(rt: HostRuntime) -> Result<(), Fail> {
    assert!(rt; is_read(told_by_many(&rt, 16, 15)?, 3, &[9; 64]));
    assert!(rt; told_by_many(&rt, 15, 15)? == Ok(ReaderDone::Undecided));
    assert!(rt; told_by_many(&rt, 16, 16)? == Ok(ReaderDone::Undecided));
    assert!(rt; is_read(told_by_many(&rt, 33, 15)?, 3, &[9; 64]));
    assert!(rt; told_by_many(&rt, 32, 16)? == Ok(ReaderDone::Undecided));
    Ok(())
}

#[test]
fn after_20_rounds_it_is_unsure(rt: HostRuntime) -> Result<(), Fail> {
    let mut reader = Reader::new(quorum(5, 1)?, RoundNumber(100));
    assert!(rt; reader.read(NoteId(7)).outcome == Ok(ReaderDone::Asked));
    for round in 0..20u64 {
        assert!(rt; reader.round.number == RoundNumber(100 + round));
        assert!(rt; reader.tick().outcome == Ok(ReaderDone::AskedAgain));
        for i in 0..3u32 {
            assert!(rt; tell(&mut reader, i, note(1 + i as u64, b"x")?) == Ok(ReaderDone::Heard));
        }
        let decided = tell(&mut reader, 3, note(4, b"x")?);
        if round < 19 {
            assert!(rt; decided == Ok(ReaderDone::Undecided));
            // The round is decided: one more word changes nothing.
            assert!(rt; refused(tell(&mut reader, 4, note(4, b"x")?)) == Some(3));
            assert!(rt; reader.tick().outcome == Ok(ReaderDone::Retried));
        } else {
            assert!(rt; decided == Ok(ReaderDone::Unsure));
        }
    }
    assert!(rt; reader.tick().outcome == Ok(ReaderDone::NoReading));
    assert!(rt; reader.read(NoteId(0)).sends == asks(120));
    Ok(())
}

#[test]
fn round_numbers_are_used_up(rt: HostRuntime) -> Result<(), Fail> {
    let mut reader = Reader::new(quorum(5, 1)?, RoundNumber(u64::MAX));
    assert!(rt; refused(reader.read(NoteId(7)).outcome) == Some(5));
    assert!(rt; !reader.busy);
    let mut reader = Reader::new(quorum(5, 1)?, RoundNumber(u64::MAX - 1));
    assert!(rt; reader.read(NoteId(7)).outcome == Ok(ReaderDone::Asked));
    for i in 0..4u32 {
        let _ = tell(&mut reader, i, note(1 + i as u64, b"x")?);
    }
    assert!(rt; refused(reader.tick().outcome) == Some(5));
    Ok(())
}

#[test]
fn refusals_have_their_numbers(rt: HostRuntime) {
    let all = [
        Refusal::Malformed,
        Refusal::NotAbove,
        Refusal::NotAwaited,
        Refusal::NotCounted,
        Refusal::NotNow,
        Refusal::NoRoom,
    ];
    for (refusal, expected) in all.into_iter().zip([1, 2, 3, 4, 5, 6]) {
        assert!(rt; u8::from(refusal) == expected);
    }
}
