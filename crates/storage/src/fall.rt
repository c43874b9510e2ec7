// How a party falls.

#[derive(Clone, Copy, Debug, PartialEq, Eq)]
pub enum Fall {
    /// The process is killed: all that it wrote is there, still pending.
    Killed,
    /// The power is cut: of what was pending so many bytes are left.
    Cut { kept: usize },
    /// The same before the folder was synced: the file is back that the present one took the place of.
    Reverted { kept: usize },
}
