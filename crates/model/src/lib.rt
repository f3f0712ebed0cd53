// The types that every crate of the register shares.
// The rules stand in specs/, one file for each section of the scope paper, and what is proved of them in proofs/.
#![tactic(auto)]

ghost use Rattle.std.specs.Prelude.{◌<◌};

mod codes;

// A class of deliverers: each has places, limits and rings of its own.
#[derive(Clone, Copy, Debug, PartialEq, Eq)]
pub enum Class {
    Feeders,
    Peers,
    Own,
}

impl Class {
    // All classes, in the order of their words and of a dump.
    pub const ALL: [Class; 3] = [Class::Feeders, Class::Peers, Class::Own];
}

// Who delivers a ticket. A restored deliverer carries the class that it is restored into.
#[derive(Clone, Copy, Debug, PartialEq, Eq)]
pub enum Deliverer {
    Feeder(u64),
    Peer(u64),
    Relay,
    Restored(Class),
}

// A deliverer as a host names it: by numbers and no enum, as they lie in the lent words too. The number is an id, or of a restored one the number of its class; that of a relay is not read.
#[derive(Clone, Copy, Debug, PartialEq, Eq)]
pub struct DelivererCode {
    pub kind: u64,
    pub number: u64,
}

// The kinds of deliverers.
impl DelivererCode {
    pub const FEEDER: u64 = 0;

    pub const PEER: u64 = 1;

    pub const RELAY: u64 = 2;

    pub const RESTORED: u64 = 3;
}

// What a ticket is.
#[derive(Clone, Copy, Debug, PartialEq, Eq)]
pub enum Verdict {
    New,
    Duplicate,
    Late,
    Ahead,
    Full,
    Unjudged,
}

// How a ticket is asked about: judged only, or taken too, each also for a batch.
#[derive(Clone, Copy, Debug, PartialEq, Eq)]
pub enum Manner {
    Judged,
    JudgedBatch,
    Taken,
    TakenBatch,
}

// How a register starts: with no floor, waiting for the host's number, or at a floor. The enum and its names are the Rust's.
#[derive(Clone, Copy, Debug, PartialEq, Eq)]
pub enum Start {
    Empty,
    Fallback,
    At(u64),
}

// Where probing for a fingerprint ends: at the slot that holds it, at an empty slot, or nowhere.
#[derive(Clone, Copy)]
pub enum Probe {
    Held(usize),
    Free(usize),
    Nowhere,
}

// The room found for a fingerprint: a position, or one of two refusals. An enum of its own, and no Result: a rule of the project names
// this form, and take and restore take it apart by `let .. else`.
#[derive(Clone, Copy)]
pub enum Room {
    At(usize),
    Collides,
    Full,
}

// What a share book says to a draw: granted, or the first rule that stands against it. An enum of its own, and no Result: `Granted` is one
// of the eight outcomes that the rules give and the theorems name, and a Result would wrap each of the others once more.
#[derive(Clone, Copy)]
pub enum Draw {
    Granted,
    Closed,
    OwnShare,
    ClassLimit,
    EqualPart,
    TwiceLimit,
    Places,
    Pairs,
}

// The rule that gives a take's verdict, in the order in which the rules are tried; `Accepted` where none stands against the ticket.
// `Accepted` is one of the sixteen rules that include/strikes.h numbers, so this is no Option of the others.
#[derive(Clone, Copy, Debug, PartialEq, Eq)]
pub enum Reason {
    Accepted,
    Pending,
    Flag,
    // The lowest class that holds the ticket.
    Held(Class),
    Floor,
    Behind,
    Ahead,
    Closed,
    OwnShare,
    ClassLimit,
    EqualPart,
    TwiceLimit,
    Places,
    Pairs,
    Position,
    Slots,
}

// Why a call is refused. A refusal alters nothing.
#[derive(Clone, Copy, Debug, PartialEq, Eq)]
pub enum Refusal {
    // Settings, limits or starts of another length, a setting or a limit out of bounds, or a code that is not listed.
    Unfit,
    // Fewer words are lent than the settings need.
    TooFewWords,
    // The words were not opened with these settings, or are damaged.
    UnsoundWords,
    // The register number is not below the number of registers.
    NoSuchRegister,
    // A dump's output is too short for it.
    OutputTooShort,
    // A dump of a register that is pending.
    Pending,
    // A dump that is restored is cut short.
    CutShort,
    // A view's output is too short for it.
    ViewTooShort,
}

// A fingerprint as it is read: never 0, since a slot of 0 is empty.
#[derive(Clone, Copy, Debug, PartialEq, Eq)]
pub struct Fingerprint {
    pub word: u64,
    pub ghost some: { 0 < word },
}

// Clock milliseconds.
#[derive(Clone, Copy, Debug, PartialEq, Eq)]
pub struct Judged(pub u64);

// A second of the share book, a number of at most 32 bits. A rule of the project names a tuple struct, which has no ghost field to say so.
#[derive(Clone, Copy)]
pub struct Second(pub u64);

impl Second {
    // The last second.
    pub const LAST: u64 = u32::MAX as u64;
}

// A bucket number.
#[derive(Clone, Copy, Debug, PartialEq, Eq)]
pub struct Bucket(pub u64);

// How far behind and ahead of a reading a stamp may lie, in milliseconds.
#[derive(Clone, Copy, Debug, PartialEq, Eq, Default)]
pub struct Window {
    pub behind: u64,
    pub ahead: u64,
}

// One register's settings.
#[derive(Clone, Copy, Debug, PartialEq, Eq, Default)]
pub struct Usable {
    // The window for Feeders.
    pub origin: Window,
    // The window for all others.
    pub copy: Window,
    // The width of a bucket in milliseconds.
    pub bucket: u64,
    // The most slots of a generation.
    pub slots: u64,
}

// The share book's settings.
#[derive(Clone, Copy, Debug, PartialEq, Eq)]
pub struct Shares {
    // The most places of a class.
    pub places: u64,
    // The most pairs of a place.
    pub pairs: u64,
    // The units that a Feeder's place costs.
    pub feeder: u64,
    // The units that a Peer's or a restored deliverer's place costs.
    pub peer: u64,
}

// The five entry limits.
#[derive(Clone, Copy, Debug, PartialEq, Eq)]
pub struct Limits {
    pub feeder: u64,
    pub feeders: u64,
    pub peer: u64,
    pub peers: u64,
    pub relay: u64,
}

// All settings. Those of registers not below `registers` are not read: there are four registers at most, and nothing is taken from a heap,
// so they are an array beside its number.
#[derive(Clone, Copy)]
pub struct Settings {
    pub registers: u64,
    pub shares: Shares,
    pub usable: [Usable; 4],
}
