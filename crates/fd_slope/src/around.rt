// A centre and a box around it.

/// A terminal voltage p + j q and a magnitude m in whole microvolts, and the half-widths of a box around them.
#[derive(Clone, Copy)]
pub struct Around {
    pub p: i128,
    pub q: i128,
    pub m: i128,
    pub rp: u128,
    pub rq: u128,
    pub rm: u128,
}
