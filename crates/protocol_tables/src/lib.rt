// The rules for parties with many notes in bounded tables, as definitions, and the promise for all of them together.
#![tactic(auto)]

ghost use Rattle.protocol_tables.specs.System.{Refines, Holds};
ghost use Rattle.protocol_tables.specs.Progress.{NeverFull, WritingEnds, RoundEnds, ReadingEnds, ReadingAnswers};
ghost use Rattle.protocol_tables.specs.Readers.{Readers};

/// Every run with tables is a run without bounds, with the same log.
pub fn tables_refine() -> u8
    ensures { Refines }
{
    0
}

/// Whatever happens, the log of what came to pass meets the promise.
pub fn promise_holds() -> u8
    ensures { Holds }
{
    0
}

/// A reader is the same party with tables as without.
pub fn readers_run() -> u8
    ensures { Readers }
{
    0
}

/// An honest warden never turns a note away for want of room.
pub fn wardens_have_room() -> u8
    ensures { NeverFull }
{
    0
}

/// In every run, the honest alone bring the writing of any note to its end, while others are being written.
pub fn writing_ends() -> u8
    ensures { WritingEnds }
{
    0
}

/// In every run, the honest alone bring the present round of a reader to a decision.
pub fn round_ends() -> u8
    ensures { RoundEnds }
{
    0
}

/// If the note is not being written, they bring the reading to a note.
pub fn reading_ends() -> u8
    ensures { ReadingEnds }
{
    0
}

/// A reading that begins while the note is not being written reads, by the honest alone, what was written last.
pub fn reading_answers() -> u8
    ensures { ReadingAnswers }
{
    0
}
