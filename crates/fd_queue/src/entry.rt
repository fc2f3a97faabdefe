// An entry of the queue.

/// A control's entry: when it acts, in milliseconds; its sequence number; the control's number in the script's order;
/// and whether it goes up (more taps, or a closed bank) or down.
#[derive(Clone, Copy, PartialEq, Eq, Debug)]
pub struct Entry {
    pub time: u64,
    pub seq: u64,
    pub control: u32,
    pub up: bool,
}
