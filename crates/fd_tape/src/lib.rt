//! A list that only proofs read. It takes no memory, and its methods do nothing at run time.
//!
//! What the system answers stands in no contract, so a value that has asked it has nothing to be told by. A tape is noted on
//! beside each call of the system, by the function that makes the call, and clauses then speak of what the system answered.
//!
//! Its two functions have empty bodies and are proved by hand, as nothing else in this repository is: a proof by hand may
//! set what only proofs read, so here that is to be looked at.
//!
//! - `list`: the tape
#![tactic(auto)]

mod list;

pub use list::Tape;
