// A register's own words: the sweep, the floor and whether it is pending. A contract says first what becomes of any words, and
// then what that is of the words of a well-formed register.
ghost use Rattle.std.specs.Prelude.{◌≡◌, ◌≤◌, length};
ghost use Rattle.runs.specs.Turns.{silent};
ghost use Rattle.model.specs.declared.Usable.{Usable};
ghost use Rattle.model.specs.Numbers.{under};
ghost use Rattle.model.specs.Register.{raised, swept_to, published, begin as begun};
ghost use Rattle.model.specs.RegisterWords.{read_heading};
ghost use Rattle.register.specs.Heading.{published_in, swept_in, sweep_stored, floor_raised, floor_raised_by, begun_in, begin_told};
ghost use Rattle.register.specs.Rules.{raised_with, begin_says, swept_answer};
ghost use Rattle.register.specs.Words.{RegisterReads, RegisterTurns};

use model::{Bucket, Judged, Usable};
use numbers::{layout, spans};

// How far a register is swept.
#[derive(Clone, Copy, Debug, PartialEq, Eq)]
pub struct SweptTo {
    pub bucket: Bucket,
    // The same in milliseconds, as the share book reads it.
    pub published: Judged,
}

// Whether the register waits for the host's number.
pub fn is_pending(part: &[u64]) -> bool
    requires { 24 ≤ length part.now }
    ensures value { result ≡ (read_heading part.now).pending }
    ensures register_reads { (u : Usable) → RegisterReads u (λ reg. reg.pending) part.now result }
{
    part[layout::PENDING] == 1
}

// The newest stamp that it may have forgotten, if any.
pub fn floor(part: &[u64]) -> Option<u64>
    requires { 24 ≤ length part.now }
    ensures value { result ≡ (read_heading part.now).floor }
    ensures register_reads { (u : Usable) → RegisterReads u (λ reg. reg.floor) part.now result }
{
    (part[layout::HAS_FLOOR] == 1).then_some(part[layout::FLOOR])
}

// The bucket up to which it is swept, and that in milliseconds.
pub fn swept(part: &[u64]) -> SweptTo
    requires { 24 ≤ length part.now }
    ensures value { result ≡ swept_in part.now }
    ensures register_reads { (u : Usable) → RegisterReads u (swept_answer u) part.now result }
{
    SweptTo {
        bucket: Bucket(part[layout::SWEPT]),
        published: Judged(part[layout::PUBLISHED]),
    }
}

// The sweep that it publishes to the share book, in milliseconds.
pub fn published_sweep(part: &[u64]) -> Judged
    requires { 24 ≤ length part.now }
    ensures result_value { result.0 ≡ published_in part.now }
    ensures register_reads { (u : Usable) → RegisterReads u (λ reg. published u reg.swept) part.now result.0 }
{
    Judged(part[layout::PUBLISHED])
}

// Whether a stamp is at or below a floor.
pub(crate) fn is_under(floor: Option<u64>, stamp: u64) -> bool
    ensures { result ≡ under stamp floor }
{
    floor.is_some_and(|floor| stamp <= floor)
}

// Raises the floor: it never falls, and one that is absent becomes the stamp.
pub fn raise_floor(part: &mut [u64], stamp: u64)
    requires { 24 ≤ length part.old }
    ensures part_after { part.new ≡ floor_raised stamp part.old }
    ensures register_turns { (u : Usable) → RegisterTurns u (raised stamp) silent part.old part.new (tt {0}) }
{
    if !is_under(floor(part), stamp) {
        part[layout::HAS_FLOOR] = 1;
        part[layout::FLOOR] = stamp;
    }
}

// The same by a stamp that there may be: what a drop forgot, or another floor.
pub fn raise_by(part: &mut [u64], went: Option<u64>)
    requires { 24 ≤ length part.old }
    ensures part_after { part.new ≡ floor_raised_by went part.old }
    ensures register_turns { (u : Usable) → RegisterTurns u (raised_with went) silent part.old part.new (tt {0}) }
{
    if let Some(stamp) = went {
        raise_floor(part, stamp);
    }
}

// Sets the bucket up to which it is swept, with what that publishes.
pub(crate) fn set_swept(part: &mut [u64], u: Usable, swept: Bucket)
    requires { 24 ≤ length part.old }
    ensures part_after { part.new ≡ sweep_stored u swept.0 part.old }
    ensures register_turns { RegisterTurns u (swept_to swept.0) silent part.old part.new (tt {0}) }
{
    let published = spans::published(u, swept);
    part[layout::SWEPT] = swept.0;
    part[layout::PUBLISHED] = published.0;
}

// Begins: a pending register's floor is raised to the host's number, and it is pending no longer. Says whether it was pending.
pub fn begin(part: &mut [u64], number: u64) -> bool
    requires { 24 ≤ length part.old }
    ensures part_after { (part.new ≡ begun_in number part.old) × (result ≡ begin_told part.old) }
    ensures register_turns { (u : Usable) → RegisterTurns u (begun number) begin_says part.old part.new result }
{
    let pending = is_pending(part);
    if pending {
        raise_floor(part, number);
        part[layout::PENDING] = 0;
    }
    pending
}
