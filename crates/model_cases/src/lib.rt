// Computed examples of what is proved of the rules: each meets the conditions of a statement, worked out call by call. They are apart
// from `model` so that it stays quick to check.
#![tactic(auto)]
