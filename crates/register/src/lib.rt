// One note that is kept by many wardens, some of whom may lie, is read as it was written: the model, and its theorems.
#![tactic(auto)]

ghost use Rattle.register.specs.Promise.{Overlap, Stand, Read, Picked};
ghost use Rattle.register.specs.Progress.{Moving, Finishes};

/// The counting lemma.
pub fn quorums_overlap() -> u8
    ensures { Overlap }
{
    0
}

/// What a round comes to, for any numbers of wardens, of those heard, of faults, and of liars reckoned with.
pub fn rounds_stand() -> u8
    ensures { Stand }
{
    0
}

/// With fewer faults than a fourth of the wardens, what a full round reads is written, unique and fresh, and it does read where nothing is being written.
pub fn full_rounds_read() -> u8
    ensures { Read }
{
    0
}

/// The rule as it is computed is the rule.
pub fn rule_is_computed() -> u8
    ensures { Picked }
{
    0
}

/// No step takes back what was heard, and what the honest say is enough.
pub fn rounds_move() -> u8
    ensures { Moving }
{
    0
}

/// A writing and a round can come to an end by the honest alone.
pub fn rounds_finish() -> u8
    ensures { Finishes }
{
    0
}
