// Tests of nodes that are kept apart, by the public calls of their crates: a link, a member, a round of all nodes, nodes behind locks,
// threads that work at them, the merge of what they log, and a whole run on host threads.
#![tactic(auto)]

#[cfg(test)]
mod images;
#[cfg(test)]
mod links;
#[cfg(test)]
mod locks;
#[cfg(test)]
mod members;
#[cfg(test)]
mod merges;
#[cfg(test)]
mod rounds;
#[cfg(test)]
mod runs;
#[cfg(test)]
mod turns;
#[cfg(test)]
mod workers;
