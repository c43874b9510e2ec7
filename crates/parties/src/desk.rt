// The office's place for one note.
ghost use Rattle.std.specs.Prelude.{◌≡◌};
ghost use Rattle.notes.specs.Views.{bytes_of};
ghost use Rattle.protocol.specs.Office.{empty_desk, write_on, office_tick, office_on, took_on};
ghost use Rattle.protocol.specs.Runs.{OfficeHears, OfficeActs};
ghost use Rattle.parties.specs.Views.{message_of, sends_of, office_outcome, made, Did, ForQuorums};
ghost use Rattle.parties.specs.Desks.{desk_of};

use crate::message::{Message, Sends};
use crate::refusal::Refusal;
use crate::step::{OfficeDone, OfficeStep, Step};
use notes::ids::{Edition, PartyId};
use notes::note::Note;
use notes::quorum::Quorum;
use notes::value::Value;
use notes::warden_id::WardenId;
use notes::warden_set::WardenSet;

/// The note of the last edition begun, whether its writing is under way, and who has said that it took it.
// Who has taken it stays once the writing has ended, so `acks` stands beside `busy`.
#[derive(Clone, Copy, PartialEq, Eq, Debug)]
pub struct Desk {
    pub now: Note,
    pub busy: bool,
    pub acks: WardenSet,
}

impl Desk {
    /// Nothing was written yet.
    pub fn new() -> Desk
        ensures { desk_of result ≡ empty_desk }
    {
        Desk {
            now: Note::none(),
            busy: false,
            acks: WardenSet::new(),
        }
    }

    /// The next edition is to have this value.
    pub fn write(&mut self, value: Value) -> OfficeStep
        ensures did { Did (desk_of self.exit.now) (sends_of result.sends) (office_outcome result.outcome) (write_on (desk_of self.entry.now) (bytes_of value)) }
        ensures runs { ForQuorums (λ n f. OfficeActs n f (desk_of self.entry.now) (made (desk_of self.exit.now) (sends_of result.sends) (office_outcome result.outcome))) }
    {
        self.begin(value)
    }

    fn begin(&mut self, value: Value) -> OfficeStep
        ensures { Did (desk_of self.exit.now) (sends_of result.sends) (office_outcome result.outcome) (write_on (desk_of self.entry.now) (bytes_of value)) }
    {
        if self.busy {
            return Step::refused(Refusal::NotNow);
        }
        let Some(edition) = self.now.edition.next() else {
            return Step::refused(Refusal::NotNow);
        };
        let note = Note { edition, value };
        self.now = note;
        self.busy = true;
        self.acks = WardenSet::new();
        Step {
            outcome: Ok(OfficeDone::Begun),
            sends: Sends::Each(Message::Take(note)),
        }
    }

    /// It is time to send again.
    pub fn tick(&self) -> OfficeStep
        ensures did { Did (desk_of self.entry.now) (sends_of result.sends) (office_outcome result.outcome) (office_tick (desk_of self.entry.now)) }
        ensures runs { ForQuorums (λ n f. OfficeActs n f (desk_of self.entry.now) (made (desk_of self.entry.now) (sends_of result.sends) (office_outcome result.outcome))) }
    {
        self.resend()
    }

    fn resend(&self) -> OfficeStep
        ensures { Did (desk_of self.entry.now) (sends_of result.sends) (office_outcome result.outcome) (office_tick (desk_of self.entry.now)) }
    {
        if self.busy {
            Step {
                outcome: Ok(OfficeDone::Resent),
                sends: Sends::Each(Message::Take(self.now)),
            }
        } else {
            Step::done(OfficeDone::NoWriting)
        }
    }

    /// What it does with a message from a party.
    pub fn on(&mut self, quorum: &Quorum, from: PartyId, message: Message) -> OfficeStep
        ensures did { Did (desk_of self.exit.now) (sends_of result.sends) (office_outcome result.outcome) (office_on quorum.now.wardens quorum.now.faults (desk_of self.entry.now) from.0 (message_of message)) }
        ensures runs { OfficeHears quorum.now.wardens quorum.now.faults (desk_of self.entry.now) from.0 (message_of message) (made (desk_of self.exit.now) (sends_of result.sends) (office_outcome result.outcome)) }
    {
        self.receive(quorum, from, message)
    }

    fn receive(&mut self, quorum: &Quorum, from: PartyId, message: Message) -> OfficeStep
        ensures { Did (desk_of self.exit.now) (sends_of result.sends) (office_outcome result.outcome) (office_on quorum.now.wardens quorum.now.faults (desk_of self.entry.now) from.0 (message_of message)) }
    {
        let Message::Took(edition) = message else {
            return Step::refused(Refusal::Malformed);
        };
        let Some(warden) = quorum.warden(from) else {
            return Step::refused(Refusal::Malformed);
        };
        self.took(quorum, warden, edition)
    }

    // A warden says that it took an edition.
    fn took(&mut self, quorum: &Quorum, warden: WardenId, edition: Edition) -> OfficeStep
        ensures { Did (desk_of self.exit.now) (sends_of result.sends) (office_outcome result.outcome) (took_on quorum.now.wardens quorum.now.faults (desk_of self.entry.now) warden.index edition.0) }
    {
        if !self.busy || edition != self.now.edition || self.acks.contains(warden) {
            return Step::refused(Refusal::NotCounted);
        }
        self.acks = self.acks.with(warden);
        if quorum.is_met(self.acks) {
            self.busy = false;
            return Step::done(OfficeDone::Ended);
        }
        Step::done(OfficeDone::Counted)
    }
}
