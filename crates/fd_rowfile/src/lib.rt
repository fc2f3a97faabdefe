//! The text of a block of a certificate of version 3, whose proof is derived rows (`fd_derived`).
//!
//! A block is written as its lines, one record each (`write_block`), and the next block is read of bytes in one pass, or
//! the bytes are named from the first line on that the grammar refuses (`read_block`). The bytes may come from anyone: no
//! room is made for lines or pairs that are not there. That what is written is read as exactly that and as nothing else,
//! and that a refused line is the first with which no block begins, are laws of the definitions. Nothing is judged beyond
//! the grammar. A number of a row that needs more than 64 bits is held as the greatest of its sign.
//!
//! - `data`: what a block has, as numbers
//! - `stop`: why no block was read
//! - `block`: a block as it is held
//! - `lines`: the lines of a block, each read of bytes
//! - `pairs`: pairs of a row
//! - `rows`: rows
//! - `texts`: the texts of lines
//! - `write`: the lines of a block
//! - `laws`: laws of the grammar
#![tactic(auto)]

mod block;
mod data;
mod laws;
mod lines;
mod pairs;
mod rows;
mod stop;
mod texts;
mod write;

pub use block::{HeldBlock, read_block};
pub use data::{Act, Bound, Head, Part};
pub use laws::{block_cases, block_law, row_cases, text_law};
pub use rows::HeldRow;
pub use stop::Stop;
pub use write::write_block;

// Handed on from the crates below.
pub use fd_derived::{Claim, Entry, Row};
pub use fd_lines::Record;
