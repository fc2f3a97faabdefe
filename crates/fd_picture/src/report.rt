// A report as data.
use fd_outside::{Bytes, Items};
use std::marker::Model;

/// A node of a round: the name of its bus, its number there, and its low and high in microvolts.
#[derive(Drop)]
pub struct Node {
    pub bus: Bytes,
    pub number: u64,
    pub low: u64,
    pub high: u64,
}

/// Nodes in the order of the report.
pub type Nodes = Items<Node>;

/// The last round of a settle: the number of the settle, its hour, the round, and its nodes.
#[derive(Drop)]
pub struct Panel {
    pub settle: u64,
    pub hour: u64,
    pub round: u64,
    pub nodes: Nodes,
}

/// Which record a row of the table is.
#[derive(Clone, Copy, Debug, PartialEq, Eq)]
pub enum Kind {
    Act,
    Tap,
    Bank,
}

/// A row of the table, of the settle and the hour that it belongs to. Its fields are those of the record; those that
/// the record hasn't are empty.
#[derive(Drop)]
pub struct Entry {
    pub settle: u64,
    pub hour: u64,
    pub kind: Kind,
    pub time: Bytes,
    pub element: Bytes,
    pub steps: Bytes,
    pub position: Bytes,
}

/// The voltage base of a bus, between phases, in units of 10^-6 kV.
#[derive(Drop)]
pub struct Base {
    pub bus: Bytes,
    pub micro_kilovolts: u64,
}

/// A report: the last round of each settle, the acts, taps and banks in order, the voltage bases in order, and the line
/// of the fault that ends it, if one does.
#[derive(Drop)]
pub struct Report {
    pub(crate) panels: Vec<Panel>,
    pub(crate) entries: Vec<Entry>,
    pub(crate) bases: Vec<Base>,
    pub(crate) fault: Option<Bytes>,
}

impl Model for Report {
    ghost use Rattle.fd_picture.specs.Drafts.{ReportView};

    ghost Value = { ReportView };

    ghost view = { λ r. record { panels = r.panels.items; entries = r.entries.items; bases = r.bases.items; fault = r.fault } };
}

/// A report that is still read: its last panel may yet be replaced by that of the next round.
#[derive(Drop)]
pub(crate) struct Draft {
    pub(crate) done: Vec<Panel>,
    pub(crate) current: Option<Panel>,
    pub(crate) entries: Vec<Entry>,
    pub(crate) bases: Vec<Base>,
    pub(crate) fault: Option<Bytes>,
}

impl Model for Draft {
    ghost use Rattle.fd_picture.specs.Drafts.{DraftView};

    ghost Value = { DraftView };

    ghost view = { λ d. record { done = d.done.items; current = d.current; entries = d.entries.items; bases = d.bases.items; fault = d.fault } };
}
