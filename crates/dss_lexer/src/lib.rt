//! The words and pairs of an OpenDSS script, and the numbers, expressions, arrays and matrices that its values hold.
//!
//! Each call is one total function of its text, and answers each fault exactly where that function does.
//! Want of memory is the only free answer.
//!
//! - `text`: `Text`, which contracts see as its characters, and `characters_of`, those of a string
//! - `fault`: `LineFault` and `NumberFault`, why a line isn't cut and why a text gives no number, and `LexError`, which
//!   a call answers: such a fault, or want of memory
//! - `pair`: `Pair` and `PairList`
//! - `numbers`: `number`, in units of 10^-9
//! - `arrays`: `cells` and `matrix`, words and rows of numbers
//! - `expressions`: `postfix`, the value of a postfix expression
#![tactic(auto)]

mod arrays;
mod expressions;
mod fault;
mod numbers;
mod pair;
mod text;

pub use arrays::{Row, cells, matrix};
pub use expressions::postfix;
pub use fault::{LexError, LineError, LineFault, NumberError, NumberFault};
pub use numbers::number;
pub use pair::{Pair, PairList};
pub use text::{Text, characters_of};
