// The warden and the office with many notes, at their edges.
#![tactic(auto)]

#[cfg(test)]
mod tests;
