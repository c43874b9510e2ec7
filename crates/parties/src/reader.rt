// A reader: it reads one note at a time, in rounds.
ghost use Rattle.std.specs.Prelude.{◌≡◌};
ghost use Rattle.notes.specs.Views.{note_of};
ghost use Rattle.protocol.specs.Reader.{new_reader, read_on, reader_tick, reader_on, told_on, begin_round, decided, settle_round};
ghost use Rattle.protocol.specs.Runs.{ReaderHears, ReaderActs};
ghost use Rattle.parties.specs.Views.{message_of, sends_of, reader_done, reader_outcome, made, Did};
ghost use Rattle.parties.specs.Readers.{reader_of};

use crate::message::{Incoming, Message, Sends};
use crate::refusal::Refusal;
use crate::step::{ReaderDone, ReaderStep, Step};
use notes::ids::{NoteId, RoundNumber};
use notes::note::Note;
use notes::quorum::Quorum;
use notes::round::Round;
use notes::warden_id::WardenId;

/// A reading has the first round, and so many more.
pub const MORE_ROUNDS: u8 = 19;

/// Whether it is reading, which note, how many more rounds of this reading it may begin, the number of the next round, and the present round.
// The last note and round stay once it no longer reads, so they stand beside `busy`.
#[derive(Clone, Copy)]
pub struct Reader {
    pub quorum: Quorum,
    pub busy: bool,
    pub note: NoteId,
    pub left: u8,
    pub next: RoundNumber,
    pub round: Round,
}

impl Reader {
    /// A reader whose first round will have this number.
    pub fn new(quorum: Quorum, first: RoundNumber) -> Reader
        ensures quorum { result.quorum ≡ quorum }
        ensures reader { reader_of result ≡ new_reader first.0 }
    {
        Reader {
            quorum,
            busy: false,
            note: NoteId(0),
            left: 0,
            next: first,
            round: Round::new(RoundNumber(0)),
        }
    }

    // A round of a reading begins.
    fn begin(&mut self, note: NoteId, left: u8, done: ReaderDone) -> ReaderStep
        ensures quorum { self.new.quorum ≡ self.old.quorum }
        ensures did { Did (reader_of self.new) (sends_of result.sends) (reader_outcome result.outcome) (begin_round note.0 left (reader_done done) (reader_of self.old)) }
    {
        let Some(next) = self.next.next() else {
            return Step::refused(Refusal::NotNow);
        };
        let number = self.next;
        self.busy = true;
        self.note = note;
        self.left = left;
        self.next = next;
        self.round = Round::new(number);
        Step {
            outcome: Ok(done),
            sends: Sends::Each(Message::Ask(number)),
        }
    }

    /// Begins to read a note. A reading that was under way is given up.
    pub fn read(&mut self, note: NoteId) -> ReaderStep
        ensures quorum { self.new.quorum ≡ self.old.quorum }
        ensures did { Did (reader_of self.new) (sends_of result.sends) (reader_outcome result.outcome) (read_on (reader_of self.old) note.0) }
        ensures runs { ReaderActs self.old.quorum.wardens self.old.quorum.faults (reader_of self.old) (made (reader_of self.new) (sends_of result.sends) (reader_outcome result.outcome)) }
    {
        self.begin(note, MORE_ROUNDS, ReaderDone::Asked)
    }

    /// It is time to ask again, or to begin the next round.
    pub fn tick(&mut self) -> ReaderStep
        ensures quorum { self.new.quorum ≡ self.old.quorum }
        ensures did { Did (reader_of self.new) (sends_of result.sends) (reader_outcome result.outcome) (reader_tick self.old.quorum.wardens self.old.quorum.faults (reader_of self.old)) }
        ensures runs { ReaderActs self.old.quorum.wardens self.old.quorum.faults (reader_of self.old) (made (reader_of self.new) (sends_of result.sends) (reader_outcome result.outcome)) }
    {
        self.ask_on()
    }

    fn ask_on(&mut self) -> ReaderStep
        ensures quorum { self.new.quorum ≡ self.old.quorum }
        ensures did { Did (reader_of self.new) (sends_of result.sends) (reader_outcome result.outcome) (reader_tick self.old.quorum.wardens self.old.quorum.faults (reader_of self.old)) }
    {
        if !self.busy {
            return Step::done(ReaderDone::NoReading);
        }
        if self.is_decided() {
            return self.begin(self.note, self.left.saturating_sub(1), ReaderDone::Retried);
        }
        Step {
            outcome: Ok(ReaderDone::AskedAgain),
            sends: Sends::Each(Message::Ask(self.round.number)),
        }
    }

    /// What it does with a message.
    pub fn on(&mut self, incoming: Incoming) -> ReaderStep
        ensures quorum { self.new.quorum ≡ self.old.quorum }
        ensures did { Did (reader_of self.new) (sends_of result.sends) (reader_outcome result.outcome) (reader_on self.old.quorum.wardens self.old.quorum.faults (reader_of self.old) incoming.from.0 incoming.note.0 (message_of incoming.message)) }
        ensures runs { ReaderHears self.old.quorum.wardens self.old.quorum.faults (reader_of self.old) incoming.from.0 incoming.note.0 (message_of incoming.message) (made (reader_of self.new) (sends_of result.sends) (reader_outcome result.outcome)) }
    {
        self.receive(incoming)
    }

    fn receive(&mut self, incoming: Incoming) -> ReaderStep
        ensures quorum { self.new.quorum ≡ self.old.quorum }
        ensures did { Did (reader_of self.new) (sends_of result.sends) (reader_outcome result.outcome) (reader_on self.old.quorum.wardens self.old.quorum.faults (reader_of self.old) incoming.from.0 incoming.note.0 (message_of incoming.message)) }
    {
        let Message::Told(round, what) = incoming.message else {
            return Step::refused(Refusal::Malformed);
        };
        let Some(warden) = self.quorum.warden(incoming.from) else {
            return Step::refused(Refusal::Malformed);
        };
        self.told(warden, incoming.note, round, what)
    }

    // So many wardens have told in the present round that it is decided.
    fn is_decided(&self) -> bool
        ensures { result ≡ decided self.now.quorum.wardens self.now.quorum.faults (reader_of self.now) }
    {
        self.quorum.is_met(self.round.heard)
    }

    // A warden tells what it has.
    fn told(&mut self, warden: WardenId, note: NoteId, round: RoundNumber, what: Note) -> ReaderStep
        ensures quorum { self.new.quorum ≡ self.old.quorum }
        ensures did { Did (reader_of self.new) (sends_of result.sends) (reader_outcome result.outcome) (told_on self.old.quorum.wardens self.old.quorum.faults (reader_of self.old) warden.index note.0 round.0 (note_of what)) }
    {
        if !self.busy
            || note != self.note
            || round != self.round.number
            || self.round.heard.contains(warden)
            || self.is_decided()
        {
            return Step::refused(Refusal::NotAwaited);
        }
        self.round = self.round.hear(warden, what);
        self.settle()
    }

    // What the round comes to, if it is decided.
    fn settle(&mut self) -> ReaderStep
        ensures quorum { self.new.quorum ≡ self.old.quorum }
        ensures did { Did (reader_of self.new) (sends_of result.sends) (reader_outcome result.outcome) (settle_round self.old.quorum.wardens self.old.quorum.faults (reader_of self.old)) }
    {
        if !self.is_decided() {
            return Step::done(ReaderDone::Heard);
        }
        if let Some(note) = self.round.read(&self.quorum) {
            let note = *note;
            self.busy = false;
            return Step::done(ReaderDone::Read(note));
        }
        if self.left > 0 {
            return Step::done(ReaderDone::Undecided);
        }
        self.busy = false;
        Step::done(ReaderDone::Unsure)
    }
}
