// How sweeps end.
use crate::branch::Numbers;

/// How the sweeps end.
#[derive(Drop, Debug)]
pub enum Swept {
    /// After so many sweeps no node moves: the parts of all unknowns in order, in whole microvolts and microamperes.
    Settled { x: Numbers, sweeps: u32 },
    /// After so many sweeps some node still moves.
    NotConverged { sweeps: u32 },
    /// In this sweep the part at this place is past 2^40 in size; the start is sweep 0.
    OutOfRange { place: u32, sweep: u32 },
}
