// The rules of certificates.

/// The rules that a certificate is judged by, in their order.
#[derive(Clone, Copy, PartialEq, Eq, Debug, Drop)]
pub enum Rule {
    /// There is a certificate.
    Absent,
    /// Each line is in the grammar.
    Grammar,
    /// A block has the number, the hour, the round and the size that are due.
    Size,
    /// Centres and radii are at most 2^40 in size, radii at least 0, and entries of the inverse at most 2^56 in size.
    Range,
    /// Each mismatch is at least the state's own and at most 1,000.
    Mismatch,
    /// The bound of each row is below one.
    Bound,
    /// Each radius is at least what mismatches and bound give.
    Radius,
    /// No sample is undecided.
    Undecided,
    /// The acts are those of the controls.
    Acts,
    /// The settle ends before its controls reach their limit.
    ControlLimit,
    /// No block is missing, and none is left.
    Count,
}

/// A rule that a claim breaks, and the row or the unknown at which it breaks it, counted from 0; of `Size` it is 0.
#[derive(Clone, Copy, Debug, Drop)]
pub struct Broken {
    pub rule: Rule,
    pub place: u32,
}
