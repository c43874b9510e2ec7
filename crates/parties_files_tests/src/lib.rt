// Tests of the parties with files at their edges.
#![tactic(auto)]

#[cfg(test)]
mod tests;
