// What follows for whoever reads bytes and files.
ghost use Rattle.frames.specs.Format.{Unique};
ghost use Rattle.frames.specs.Journal.{Laws};

/// Bytes begin with one frame at most: a frame is known from its bytes, and no strict front of one is another.
pub fn frames_are_unique() -> u8
    ensures { Unique }
{
    0
}

/// A file splits into records in one way only; and of records that are cut off anywhere some first ones are left, and then nothing or a strict front of the next.
pub fn files_split() -> u8
    ensures { Laws }
{
    0
}
