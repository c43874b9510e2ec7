// Records: the frames that may stand on a file.
ghost use Rattle.std.specs.Prelude.{◌≡◌, Decides, MatchOption};
ghost use Rattle.frames.specs.Journal.{NoRecord, StrictFront};
ghost use Rattle.frames.specs.Fronts.{BeginsRecord, ends_early_lem};

use crate::decode::{Front, Parcel, first, split_kind};
use crate::kind::Kind;
use crate::role::Role;
use notes::value::LONGEST;

// The bytes of the two numbers that stand behind a kind.
const NUMBERS: usize = 12;

/// The record at the front, if a whole one that may stand on such a file stands there, and what follows.
pub fn first_record(role: Role, bytes: &[u8]) -> Option<Front<'_>>
    ensures { MatchOption result (NoRecord role bytes.now) (BeginsRecord role bytes.now) }
{
    first(bytes).filter(|front| role.may_hold(front.frame.kind()))
}

// Whether what stands behind the kind of a record ends before the record does.
fn ends_early(kind: Kind, body: &[u8]) -> bool
    ensures { result ≡ ends_early_lem kind body.now }
{
    if kind == Kind::Ended {
        return body.len() < NUMBERS;
    }
    let Some(size) = body.get(NUMBERS) else {
        return true;
    };
    let size = usize::from(*size);
    size <= LONGEST && body.len() - NUMBERS <= size
}

/// Whether these are the first bytes of a record, and not all of them. This tells a record that was cut off from damage.
pub fn is_strict_front(role: Role, bytes: &[u8]) -> bool
    ensures { Decides result (StrictFront role bytes.now) }
{
    if bytes.is_empty() {
        return true;
    }
    match split_kind(bytes) {
        Some(Parcel { kind, body }) => role.may_hold(kind) && ends_early(kind, body),
        None => false,
    }
}
