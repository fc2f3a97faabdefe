//! The command line `upgrade CERTIFICATE`: the name is asked, and the lines of the certificate in version 2 are written,
//! one each, where its bytes are in the grammar of their version; else it is refused, as absent at line 0 or as grammar
//! at the first line outside. No size, no number and no claim is judged.
//!
//! In `specs/`, `Upgrading` has its history and `Answering` what is made of what was found.
#![tactic(auto)]

mod upgrading;

pub use upgrading::upgrade;
