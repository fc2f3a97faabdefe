// The forms of a command line as a table.
use Kind::{Bus, File, Number, Sections, Short};

/// What a word behind the first may be.
#[derive(Clone, Copy, Drop)]
pub enum Kind {
    /// A file's name: not empty, and not of a first dash.
    File,
    /// The number of a feeder.
    Number,
    /// A number of sections.
    Sections,
    /// A bus: not empty, and not of a first dash.
    Bus,
    /// A kind of short circuit.
    Short,
}

/// A form: its first word, and the kinds of the words behind it.
pub(crate) type Row = (&'static str, &'static [Kind]);

pub(crate) const ROWS: [Row; 8] = [
    ("solve", &[File]),
    ("cert", &[File]),
    ("check", &[File, File]),
    ("gen", &[Number, Sections]),
    ("bench", &[Number, Sections]),
    ("upgrade", &[File]),
    ("fault", &[File, Bus, Short]),
    ("ladder", &[File]),
];
