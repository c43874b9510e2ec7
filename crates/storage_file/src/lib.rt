// A storage over a file of the system.
#![tactic(auto)]

pub mod file_storage;
