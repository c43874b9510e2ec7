// A rehearsal: a script says what happens, the steps of `parties` and `parties_tables` say what comes of it, and a transcript tells it.
#![tactic(auto)]

pub mod cast;
pub mod command;
pub mod failure;
pub mod liar;
pub mod party;
pub mod play;
pub mod reader_id;
pub mod readers;
pub mod rehearsal;
pub mod script_error;
pub mod stage;
pub mod transcript;
pub mod way;
pub mod words;
