// The time of a settle.

/// The time at which a settle stands, and the last opening time of each bank in the script's order, none where it was
/// not opened; in milliseconds.
#[derive(Drop)]
pub struct Clock {
    pub now: u64,
    pub opened: Vec<Option<u64>>,
}
