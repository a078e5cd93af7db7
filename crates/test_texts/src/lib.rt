// Tests of what is read and written, which are files and outputs, reports, rows, schedules, lists of orders and their pieces, workloads,
// and why messages wait; and of what the command's words ask for; by their public calls.
#![tactic(auto)]

#[cfg(test)]
mod files;
#[cfg(test)]
mod loading;
#[cfg(test)]
mod orders;
#[cfg(test)]
mod outputs;
#[cfg(test)]
mod pieces;
#[cfg(test)]
mod reports;
#[cfg(test)]
mod rows;
#[cfg(test)]
mod schedules;
#[cfg(test)]
mod settings;
#[cfg(test)]
mod waiting;
#[cfg(test)]
mod workloads;
