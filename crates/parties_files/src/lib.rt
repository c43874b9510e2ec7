// The warden and the office with their files.
#![tactic(auto)]

pub mod office;
mod outbox;
pub mod warden;
