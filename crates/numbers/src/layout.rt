// Where each word of a part lies, by its name: the table of words in docs/ARCHITECTURE.md. What lies in a place's cells is for
// the crate `pairs` to say, and which words lead a generation for the crate `generation`.

// ---- the front: kept settings of the book, the five limits, whether it is closed, and nine spare words
pub const FRONT: usize = 20;

pub const REGISTERS: usize = 0;

pub const PLACES: usize = 1;

pub const PAIRS: usize = 2;

pub const FEEDER_UNITS: usize = 3;

pub const PEER_UNITS: usize = 4;

pub const FEEDER_LIMIT: usize = 5;

pub const FEEDERS_LIMIT: usize = 6;

pub const PEER_LIMIT: usize = 7;

pub const PEERS_LIMIT: usize = 8;

pub const RELAY_LIMIT: usize = 9;

pub const CLOSED: usize = 10;

// ---- a class of the book: its totals, and then P places
pub const CLASS_HEAD: usize = 4;

pub const CLASS_ENTRIES: usize = 0;

pub const CLASS_HOLDERS: usize = 1;

pub const CLASS_UNITS: usize = 2;

pub const CLASS_EXPIRED: usize = 3;

// ---- a place: its deliverer, its entries and how many pairs it has, and then the cells of its pairs
pub const PLACE_HEAD: usize = 4;

pub const PLACE_KIND: usize = 0;

pub const PLACE_NUMBER: usize = 1;

pub const PLACE_ENTRIES: usize = 2;

pub const PLACE_PAIRS: usize = 3;

// ---- a register's heading: six kept settings, how far it is swept, that in milliseconds, whether there is a floor, the floor,
// whether it is pending, and thirteen spare words; then a ring for each class
pub const HEADING: usize = 24;

pub const ORIGIN_BEHIND: usize = 0;

pub const ORIGIN_AHEAD: usize = 1;

pub const COPY_BEHIND: usize = 2;

pub const COPY_AHEAD: usize = 3;

pub const BUCKET: usize = 4;

pub const SLOTS: usize = 5;

pub const SWEPT: usize = 6;

pub const PUBLISHED: usize = 7;

pub const HAS_FLOOR: usize = 8;

pub const FLOOR: usize = 9;

pub const PENDING: usize = 10;

// ---- a generation: the words that lead it, and then S slots
pub const GENERATION_HEAD: usize = 5;
