// Notes, the numbers that go with them, and what a reader has heard of them in one round.
#![tactic(auto)]

pub mod ids;
pub mod note;
pub mod quorum;
pub mod round;
pub mod text;
pub mod value;
pub mod warden_id;
pub mod warden_set;
