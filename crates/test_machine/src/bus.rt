// The machine with one bus, its runs by a seed, and its reports.
mod loading;
mod machines;
mod reports;
