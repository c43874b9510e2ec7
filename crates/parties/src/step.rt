// What a party came to when something came to it.
ghost use Rattle.std.specs.Prelude.{◌≡◌, Ok, Err};
ghost use Rattle.parties.specs.declared.message.Sends.TheVariants.{Nothing};

use crate::message::Sends;
use crate::refusal::Refusal;
use notes::note::Note;

#[derive(Clone, Copy, PartialEq, Eq, Debug)]
pub enum WardenDone {
    /// It took a later edition.
    Taken,
    /// It told what it has.
    Answered,
}

#[derive(Clone, Copy, PartialEq, Eq, Debug)]
pub enum OfficeDone {
    /// It began to write an edition.
    Begun,
    /// It sent the edition that is being written again.
    Resent,
    /// Nothing is being written.
    NoWriting,
    /// It counted a warden that took the edition.
    Counted,
    /// With this warden the writing has come to an end.
    Ended,
}

#[derive(Clone, Copy, PartialEq, Eq, Debug)]
pub enum ReaderDone {
    /// It began to read a note.
    Asked,
    /// It asked again in the same round.
    AskedAgain,
    /// It began the next round of its reading.
    Retried,
    /// It is not reading.
    NoReading,
    /// It counted a warden.
    Heard,
    /// With this warden the round was decided, and nothing is read; another may begin.
    Undecided,
    /// With this warden the round was decided, and this note is read.
    Read(Note),
    /// With this warden the last round was decided, and nothing is read.
    Unsure,
}

/// What was done, or why nothing was.
pub type WardenOutcome = Result<WardenDone, Refusal>;

pub type OfficeOutcome = Result<OfficeDone, Refusal>;

pub type ReaderOutcome = Result<ReaderDone, Refusal>;

/// What a party came to, and what it sends at once. It may send something also where it refuses.
#[derive(Clone, Copy, PartialEq, Eq, Debug)]
pub struct Step<D> {
    pub outcome: Result<D, Refusal>,
    pub sends: Sends,
}

impl<D> Step<D> {
    /// It is done, and nothing is sent.
    pub fn done(done: D) -> Step<D>
        ensures { result ≡ record { outcome = Ok done; sends = Nothing } }
    {
        Step {
            outcome: Ok(done),
            sends: Sends::Nothing,
        }
    }

    /// It is turned away or passed over, and nothing is sent.
    pub fn refused(refusal: Refusal) -> Step<D>
        ensures { result ≡ record { outcome = Err refusal; sends = Nothing } }
    {
        Step {
            outcome: Err(refusal),
            sends: Sends::Nothing,
        }
    }
}

pub type WardenStep = Step<WardenDone>;

pub type OfficeStep = Step<OfficeDone>;

pub type ReaderStep = Step<ReaderDone>;
