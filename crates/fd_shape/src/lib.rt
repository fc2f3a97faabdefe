//! The numbers of a load shape's file: the first field of each record of a text of comma-separated values.
//!
//! In `specs/`, `Column` has what the numbers of a file are, and which record is named where one has none, and `Text`
//! how a script writes numbers. `read_column` and `values_text` answer exactly that, and want of memory is their only
//! free answer.
//!
//! - `blanks`: a field without the blanks and tabs round it
//! - `column`: `read_column`, the numbers of a file
//! - `fault`: `ShapeFault`, why a file isn't read
//! - `laws`: the text of numbers reads as these numbers
//! - `text`: `values_text`, the numbers as a script writes them
#![tactic(auto)]

mod blanks;
mod column;
mod fault;
mod laws;
mod text;

pub use column::read_column;
pub use fault::ShapeFault;
pub use laws::text_law;
pub use text::values_text;

// Handed on from the crates below.
pub use fd_decimal::{fixed_text, micro_text, nano_text, size_text};
