// What the office and a warden do about one note, and a reader, each as a step when something comes to it.
//
// A public call says what was done and what every run makes of that. The second follows from the first: so a private call does it, and
// the public one says both.
#![tactic(auto)]

pub mod desk;
pub mod message;
pub mod reader;
pub mod refusal;
pub mod slot;
pub mod step;
pub mod text;
