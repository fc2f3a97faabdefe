//! The words of a command line: which form they are, and its values.
//!
//! The forms are a table, `ROWS`: a row is a first word and the kinds of the words behind it. Whether words are a form
//! is decided by this table alone and before anything is allocated. Words that are one are then taken apart by a
//! command of `clap`, with a subcommand for each row and in it one positional with as many values as the row has kinds.
//! It refuses no form but for want of memory, and its values are those words. A new form is a row here, a row in
//! `specs/Words`, and an arm in `lines` that makes its value.
//!
//! In `specs/`, `Words` has the table and what it makes of words, `Numbers` the numbers among the words, `Shorts` the
//! kinds of short circuits, and `Lines` the command and what its matches come to. `form_of` answers exactly the form;
//! memory runs out only where there is one.
//!
//! - `table`: the rows
//! - `words`: the forms, and `form_of`
//! - `usage`: whether words are a form
//! - `numbers`: the numbers among the words
//! - `shorts`: the kinds of short circuits among the words
//! - `lines`: the command, and its matches as a form
#![tactic(auto)]

mod lines;
mod numbers;
mod shorts;
mod table;
mod usage;
mod words;

pub use shorts::Short;
pub use words::{Form, form_of};
