//! The commands of a script, one at a time, with the places where they stand.
//!
//! What a script says is one function of files: its commands in order, the names that it
//! asks for, absent ones among them, and then the end of MASTER or one cause with its place. A command that names files
//! of a load shape has their numbers in place of the names. A call of `next` gives
//! exactly what comes next there, over all files that agree with what the library answered. Want of memory is free, and
//! at a failed read the library's last answer is one.
//!
//! - `bounds`: how many commands a session gives, as a law
//! - `cutting`: `pairs`, a line's words and pairs
//! - `fault`: the causes for which a script is refused, and why a session gives no command
//! - `meaning`: what the words and pairs of a line ask for
//! - `laws`: a script as a list of events
//! - `path`: names of files, joined to MASTER's folder
//! - `reading`: a file that is being read, line by line
//! - `said_room`: how much room the commands take that a script says, as a law
//! - `session`: `Session`, which reads on from file to file
//! - `shape_file`: the file that a pair of a load shape names
//! - `shapes`: the files of load shapes, whose numbers stand in place of their names
#![tactic(auto)]

mod bounds;
mod cutting;
mod fault;
mod laws;
mod meaning;
mod path;
mod reading;
mod said_room;
mod session;
mod shape_file;
mod shapes;

pub use bounds::commands_are_few;
pub use cutting::pairs;
pub use fault::{ScriptCause, SessionFault};
pub use laws::said_law;
pub use said_room::said_room_law;
pub use session::Session;

// Handed on from the crates below.
pub use dss_model::{
    Command, ElementName, Interval, LineError, LineFault, LoadModel, Micro, ModelError, ModelFault,
    NodeAt, NumberError, NumberFault, Pair, PairList, Place, Row, TapPair, Term, Text, Verb, cells,
    matrix, number, postfix,
};
pub use fd_outside::{
    Bytes, FileEntry, FolderLibrary, Found, LibFault, MemLibrary, MemSink, NeverFails, Record,
    SinkFault, StdSink, SystemTape, emit, read_opened,
};
pub use fd_shape::{ShapeFault, fixed_text, micro_text, nano_text, read_column, size_text};
