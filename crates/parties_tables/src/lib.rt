// The warden and the office, with their tables of notes.
#![tactic(auto)]

pub mod office;
mod room;
pub mod warden;
