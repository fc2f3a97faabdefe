// What a script asks for, and where it says so.
use crate::ModelFault;
use dss_lexer::{PairList, Text};

/// A file as it was read, and a line of it, from 1.
#[derive(Drop, Clone)]
pub struct Place {
    pub file: Text,
    pub line: u32,
}

/// What a command does. Classes and names of elements are as they are written.
#[derive(Drop)]
pub enum Verb {
    /// Makes an element with its defaults, then sets the pairs.
    New {
        class: Text,
        name: Text,
        pairs: PairList,
    },
    /// Sets the pairs of an element.
    Edit {
        class: Text,
        name: Text,
        pairs: PairList,
    },
    /// Sets options.
    Set {
        pairs: PairList,
    },
    /// Sets options and solves.
    Solve {
        pairs: PairList,
    },
    /// Goes back to no circuit and the default options.
    Clear,
    /// Gives each bus its voltage base.
    Bases,
}

/// One command of a script.
#[derive(Drop)]
pub struct Command {
    pub place: Place,
    pub verb: Verb,
}

/// A refusal that is found only at Solve, and the place of the element that is to blame.
#[derive(Drop)]
pub struct Blame {
    pub place: Place,
    pub cause: ModelFault,
}
