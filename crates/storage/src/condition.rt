// What is known of a file without looking.
ghost use Rattle.std.specs.Prelude.{◌≡◌};
ghost use Rattle.storage.specs.Conditions.{opened};

/// It is all true when a party may speak of what is on its file.
#[derive(Clone, Copy, Debug, PartialEq, Eq)]
pub struct Condition {
    /// All that was written to the file is synced.
    pub synced: bool,
    /// The folder was synced since the file was made or renamed.
    pub placed: bool,
    /// No writing and no sync of the file has failed: one that reports success after another failed proves nothing.
    pub trusted: bool,
}

impl Condition {
    /// Of a file that was just opened: none of it need be synced, and nothing has failed yet.
    pub fn opened() -> Condition
        ensures { result ≡ opened }
    {
        Condition {
            synced: false,
            placed: false,
            trusted: true,
        }
    }
}
