// What was found behind the last whole record of a file.

#[derive(Clone, Copy, Debug, PartialEq, Eq)]
pub struct Opening {
    /// How many bytes were cut off.
    pub cut: u64,
    // Both are told of each opening, so this stands beside the number.
    /// They are not the first part of a record, as a power cut leaves it: the file was damaged. They were set aside.
    pub damaged: bool,
}
