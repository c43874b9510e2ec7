// Tables of things by the numbers of notes.
#![tactic(auto)]

pub mod laws;
pub mod table;
pub mod unplaced;
