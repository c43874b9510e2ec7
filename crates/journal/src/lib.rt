// A file of records: how it is read when a party opens it, and how it is written anew.
#![tactic(auto)]

pub mod load;
pub mod open;
pub mod opening;
pub mod replay;
pub mod restore;
pub mod start;
