// Tests of nodes, of all cores and all directories together, of the machine that they make, with what chooses, keeps and replays its
// events, and of the machine with one bus, by their public calls.
#![tactic(auto)]

#[cfg(test)]
mod bus;
#[cfg(test)]
mod choosers;
#[cfg(test)]
mod commits;
#[cfg(test)]
mod core_banks;
#[cfg(test)]
mod cores;
#[cfg(test)]
mod dir_banks;
#[cfg(test)]
mod directories;
#[cfg(test)]
mod events;
#[cfg(test)]
mod loading;
#[cfg(test)]
mod outcomes;
#[cfg(test)]
mod phases;
#[cfg(test)]
mod replays;
#[cfg(test)]
mod restored_cores;
#[cfg(test)]
mod sound_parts;
#[cfg(test)]
mod systems;
#[cfg(test)]
mod waiting;
