// A register's dump: its bytes as words, the walk over what a dump holds, and the writing of one.
#![tactic(auto)]

mod held;
mod octets;
mod of_register;
mod output;
mod reader;
mod walk;
mod write;

pub use held::{Generations, Rings, Shown};
pub use octets::{put_word, word_at};
pub use of_register::{dump, dump_length};
pub use output::{Element, Output};
pub use reader::Reader;
pub use walk::{Dump, Found, read_lengths};
