// Whose file it is.
ghost use Rattle.std.specs.Prelude.{◌≡◌};
ghost use Rattle.frames.specs.Views.{holds};

use crate::kind::Kind;

/// Whose file it is.
#[derive(Clone, Copy, Debug, PartialEq, Eq)]
pub enum Role {
    Warden,
    Office,
}

impl Role {
    /// Whether records of this kind may stand on its file.
    pub fn may_hold(self, kind: Kind) -> bool
        ensures { result ≡ holds self kind }
    {
        matches!(
            (self, kind),
            (Role::Warden, Kind::Take) | (Role::Office, Kind::Begun | Kind::Ended)
        )
    }
}
