// Why a line of a script is turned away.
use thiserror::Error;

#[derive(Clone, Copy, Debug, PartialEq, Eq, Error)]
pub enum ScriptError {
    #[error("longer than 4096 bytes")]
    TooLong,
    #[error("not text")]
    NotText,
    #[error("unknown command")]
    UnknownCommand,
    #[error("another word is expected")]
    WordMissing,
    #[error("too many words")]
    TooManyWords,
    #[error("a number is expected")]
    NumberExpected,
    #[error("bytes are expected, two hexadecimal digits each")]
    BytesExpected,
    #[error("a value has up to 64 bytes")]
    ValueTooLong,
    #[error("a party is expected: office, or a number")]
    PartyExpected,
    #[error("no such party")]
    NoSuchParty,
    #[error("no such warden")]
    NoSuchWarden,
    #[error("readers are 65 to 68")]
    NoSuchReader,
    #[error("a note is a number below 2^32")]
    NoSuchNote,
    #[error("a warden does nothing by time")]
    NoClock,
    #[error("take, took, ask or told is expected")]
    MessageExpected,
    #[error("N is 5 to 9 and 4F below N")]
    WrongNumbers,
    #[error("begin with wardens N F")]
    NotBegun,
    #[error("no such message on its way")]
    NotOnItsWay,
    #[error("only a liar can say anything")]
    NotALiar,
}
