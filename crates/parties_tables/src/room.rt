// What comes of a step whose outcome may find no place.
ghost use Rattle.parties_tables.specs.Keeps.{Placed};

use notes_table::unplaced::Unplaced;
use parties::refusal::Refusal;
use parties::step::Step;
use std::alloc::AllocError;

/// The step, if what it leaves was placed. Where there is no room for that it is refused, and where there is no memory it counts as lost.
pub(crate) fn if_placed<D: Copy>(
    placed: Result<(), Unplaced>,
    step: Step<D>,
) -> Result<Step<D>, AllocError>
    ensures { Placed step placed result }
{
    match placed {
        Ok(()) => Ok(step),
        Err(Unplaced::Full) => Ok(Step::refused(Refusal::NoRoom)),
        Err(Unplaced::Memory) => Err(AllocError),
    }
}
