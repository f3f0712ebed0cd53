// The rules on single numbers as functions: settings and codes as a host passes them, spans, buckets, seconds and windows, for every
// argument; then the words needed, where each part of the words starts and the units that a place costs, for settings in bounds. No sum
// or product wraps.
#![tactic(auto)]

pub mod bounds;
pub mod capped;
pub mod codes;
pub mod layout;
pub mod spans;
pub mod starts;
pub mod units;
