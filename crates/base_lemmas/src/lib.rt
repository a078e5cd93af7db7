// Lemmas that several crates cite: booleans, numbers, lists, the words of lines, and nodes.
#![tactic(auto)]
