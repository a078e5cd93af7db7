// Tests of the whole program, by its public calls.
#![tactic(auto)]

#[cfg(test)]
mod program;
