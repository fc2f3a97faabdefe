// What a sampling of the controls comes to.

/// What a sampling comes to.
#[derive(Drop)]
pub(crate) enum Progress {
    /// The nearest entries of the queue acted.
    Moved,
    /// No entry is due.
    Settled,
    /// An entry is due after as many acts as are allowed.
    Limited {
        acts: u32,
    },
    /// The sample of this control is undecided.
    Undecided {
        control: u32,
        low: i128,
        high: i128,
        edge: i128,
    },
}
