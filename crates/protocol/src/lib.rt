// The rules that the office, the wardens and the readers follow, as definitions, and what is promised of all of them together.
#![tactic(auto)]

ghost use Rattle.protocol.specs.System.{Holds};
ghost use Rattle.protocol.specs.Laws.{GoodLogs};
ghost use Rattle.protocol.specs.Progress.{WritingEnds, RoundEnds, ReadingEnds, ReadingAnswers, Measured};
ghost use Rattle.protocol.specs.Cases.{Worked};
ghost use Rattle.protocol.specs.Samples.{Sample, BadLogs};

/// Whatever happens, the log of what came to pass meets the promise.
pub fn promise_holds() -> u8
    ensures { Holds }
{
    0
}

/// A log that meets the promise has no two values under one edition, and no reading that is older than it may be.
pub fn good_logs_mean() -> u8
    ensures { GoodLogs }
{
    0
}

/// In every run, the honest alone bring a writing that is under way to its end.
pub fn writing_ends() -> u8
    ensures { WritingEnds }
{
    0
}

/// In every run, the honest alone bring the present round of a reader to a decision.
pub fn round_ends() -> u8
    ensures { RoundEnds }
{
    0
}

/// If the note is not being written, they bring the reading to a note.
pub fn reading_ends() -> u8
    ensures { ReadingEnds }
{
    0
}

/// A reading that begins while the note is not being written reads, by the honest alone, what was written last.
pub fn reading_answers() -> u8
    ensures { ReadingAnswers }
{
    0
}

/// Of the honest, no more are missing after any move, and fewer when one is first heard.
pub fn missing_falls() -> u8
    ensures { Measured }
{
    0
}

/// The worked cases come to what they should.
pub fn cases_work() -> u8
    ensures { Worked }
{
    0
}

/// There is a run that ends in a reading of which the promise's hypothesis holds.
pub fn readings_exist() -> u8
    ensures { Sample }
{
    0
}

/// Logs with a stale or a made-up reading, with unsure while nothing is written, with two values under one edition, or with an answer that nobody asked for are not good.
pub fn bad_logs_fail() -> u8
    ensures { BadLogs }
{
    0
}
