// One register in its own part of the lent words: a heading of 24 words (six kept settings, swept, the published sweep, whether
// there is a floor, the floor, whether it is pending, 13 spare words), then a ring of generations for each class. `RegisterWords` is a
// fact in contracts and no type: a type that is lent to be written would have to say it before and after each change, and one for the
// functions that read would be a second form.
#![tactic(auto)]

mod extents;
mod forgetting;
pub mod heading;
mod judging;
mod peeking;
mod rings;
mod sweeping;

pub use forgetting::{fail, forget_floor};
pub use generation::Entry;
pub use judging::{Ask, ahead_for, judge, judge_batch};
pub use peeking::{Seen, judge_after, room_after, see};
pub use rings::{bucket_at, contains_hash, room, strike};
pub use sweeping::sweep;
