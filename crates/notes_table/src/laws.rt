// What follows for whoever has tables.
ghost use Rattle.notes_table.specs.Laws.{Laws};

/// What is put under one number leaves what is had under the others; what is had can always be replaced; a full table takes no other number; and a table counts the numbers that have something.
#[tactic(auto, using(crate::proofs::Lawful::laws))]
pub fn table_laws<T>() -> u8
    ensures { Laws T }
{
    0
}
