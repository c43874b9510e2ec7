// The rules for parties with files, which fall anywhere and come up again, as definitions, the promise for all of them together, and progress.
#![tactic(auto)]

ghost use Rattle.protocol_files.specs.System.{Refines, Holds};
ghost use Rattle.protocol_files.specs.Durable.{Durable};
ghost use Rattle.protocol_files.specs.Cases.{Worked};
ghost use Rattle.protocol_files.specs.Progress.{ComesUp, WritingEnds, RoundEnds, ReadingAnswers};

/// Every run with files is a run without them, with the same log.
pub fn files_refine() -> u8
    ensures { Refines }
{
    0
}

/// Whatever happens, the log of what came to pass meets the promise.
pub fn promise_holds() -> u8
    ensures { Holds }
{
    0
}

/// What a warden has said is on its file, wherever it falls; and the office never sends two values under one edition.
pub fn files_keep() -> u8
    ensures { Durable }
{
    0
}

/// The worked cases come to what they should, with a fall too.
pub fn cases_work() -> u8
    ensures { Worked }
{
    0
}

/// Whoever fell, the office and every honest warden come up by the honest alone.
pub fn all_come_up() -> u8
    ensures { ComesUp }
{
    0
}

/// A writing that is under way comes to its end by the honest alone, whoever fell before.
pub fn writing_ends() -> u8
    ensures { WritingEnds }
{
    0
}

/// The present round of a reader comes to be told by all but f, and is decided, by the honest alone, whoever fell before.
pub fn round_ends() -> u8
    ensures { RoundEnds }
{
    0
}

/// A reading that begins while all are at work, and the note is not being written, reads what was written last, by the honest alone.
pub fn reading_answers() -> u8
    ensures { ReadingAnswers }
{
    0
}
