//! Lines of a word and numbers, each behind one blank: what number a field spells, and the texts of lines.
//!
//! A number has exactly one text: no plus sign, no leading zero, a minus directly before the digits of what isn't 0, and
//! less than 2^127 in size. Fields are read from bytes without memory, one after another, in one pass; the bytes may come
//! from anyone. A line is written as its word and its numbers, and ends with a line feed.
//!
//! - `cutting`: bytes cut at one of them
//! - `number`: the number that a field spells
//! - `short`: numbers of few digits
//! - `field`: the fields of a line
//! - `line`: a line by its word and its fields
//! - `texts`: the texts of lines
//! - `laws`: laws of numbers
#![tactic(auto)]

mod cutting;
mod field;
mod laws;
mod line;
mod number;
mod short;
mod texts;

pub use cutting::cut;
pub use field::{Fields, are_numbers, first, four, one, pair, parted, three};
pub use laws::number_law;
pub use line::{Line, fields_by, next_line, read_line};
pub use short::short_pair;
pub use texts::{
    line_record, push_count, push_field, push_number, push_numbers, push_pair, text_record,
};

// Handed on from the crates below.
pub use fd_outside::{Bytes, Found, LibFault, Library, Record, Sink, SinkFault, emit};
