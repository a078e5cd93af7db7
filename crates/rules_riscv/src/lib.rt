// The protocol's machine as RISC-V programs begin on it: definitions alone, of its start and of what a run from there leads to.
#![tactic(auto)]
