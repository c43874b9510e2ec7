// What a party does its work on: its file, and the line on which it sends.
#![tactic(auto)]

pub mod condition;
pub mod fall;
pub mod fault;
pub mod image;
pub mod memory;
pub mod outgoing;
pub mod storage;
