// Frames: messages and records as bytes; and files of records.
#![tactic(auto)]

pub mod decode;
pub mod encode;
pub mod frame;
pub mod kind;
pub mod laws;
pub mod record;
pub mod role;
