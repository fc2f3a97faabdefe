//! The picture of a report: one SVG page, as text.
//!
//! In `specs/`, `Reading` has which report bytes are, or which line is the first that is no record of one; `Pages`, over
//! `Strips`, `Panels`, `Marks`, `Scales` and `Units`, has the page of a report. `read_report` and `draw` answer exactly
//! that, and want of memory is their only free answer. `marks_law` says that each node has exactly one mark, and
//! `frame_law` that it stands inside its strip's frame and each strip inside the page.
//!
//! - `drafts`: what a record makes of a report that is read
//! - `fault`: `ReportFault`, why a file isn't drawn
//! - `fields`: the fields of a line
//! - `laws`: a panel has one mark for each of its nodes, and where marks and panels stand
//! - `lines`: the lines of a report
//! - `marks`: the mark of a node
//! - `numbers`: numbers and names as fields have them
//! - `page`: `draw`, the page of a report
//! - `panel`: the nodes of one round over the axis of the page
//! - `reading`: `read_report`, the report that bytes are
//! - `report`: a report as data
//! - `scale`: the axis of a page, and the place of a voltage on it
//! - `strips`: panels in rows of nodes that fit on a page
//! - `text`: pieces of text
//! - `units`: voltages per unit of their bases, or in volts
#![tactic(auto)]

mod drafts;
mod fault;
mod fields;
mod laws;
mod lines;
mod marks;
mod numbers;
mod page;
mod panel;
mod reading;
mod report;
mod scale;
mod strips;
mod text;
mod units;

pub use fault::{Cause, ReportFault};
pub use laws::{frame_law, marks_law};
pub use page::draw;
pub use reading::read_report;
pub use report::{Base, Entry, Kind, Node, Nodes, Panel, Report};

// Handed on from the crates below.
pub use fd_outside::{FolderLibrary, Found, LibFault, Library, Sink, StdSink};
