// Tests of checkpoints, which are the texts of whole machines, of counts, and of counted runs; by their public calls.
#![tactic(auto)]

#[cfg(test)]
mod checkpoints;
#[cfg(test)]
mod counts;
#[cfg(test)]
mod loading;
#[cfg(test)]
mod runs;
