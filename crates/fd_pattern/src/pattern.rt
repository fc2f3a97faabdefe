// The places of row and column that any setting reaches.
ghost use Rattle.std.specs.Prelude.{◌≡◌, true, false, ℕ, ◌+◌, ◌<◌, ◌≤◌, ◌^◌, IfNone, IfOk, IfSome, length, All};
ghost use Rattle.std.specs.List.{Contains};
ghost use Rattle.fd_pattern.specs.Patterns.{AreStarts, IsAfterAll, IsInside, IsKept, IsPattern, IsSlot, IsSorted, IsStart, pattern_of, key, IsRising, IsNotAfter};

use std::alloc::{AllocError, Global};
use std::marker::Model;

/// Places of row and column, by row and then by column, each once.
#[derive(Drop)]
pub struct Pattern {
    size: u32,
    places: Vec<(u32, u32)>,
    // for each row its first place, and behind them the number of places
    starts: Vec<usize>,
}

impl Model for Pattern {
    ghost use Rattle.fd_pattern.specs.Patterns.{AreStarts, IsPattern, PatternView, pattern_of};

    ghost Value = { PatternView };

    ghost view = { λ p. pattern_of p.size p.places.items };

    ghost invariant = { λ p. IsPattern (pattern_of p.size p.places.items) × AreStarts p.size p.places.items p.starts.items };
}

impl Pattern {
    /// The pattern of these places, given in any order and any number of times.
    ///
    /// # Errors
    /// `AllocError` where the memory is refused.
    pub fn of(alloc: Global, size: u32, mut places: Vec<(u32, u32)>) -> Result<Pattern, AllocError>
        requires small { size ≤ 2 ^ 11 }
        requires inside { All (IsInside size) places.items }
        ensures size { IfOk result (λ p. p.size ≡ size) }
        ensures has_all { IfOk result (λ p. All (Contains p.places) places.items) }
        ensures only { IfOk result (λ p. All (Contains places.items) p.places) }
    {
        places.sort()?;
        let kept = without_repeats(alloc, &places)?;
        let starts = starts_of(alloc, size, &kept)?;
        Ok(Pattern {
            size,
            places: kept,
            starts,
        })
    }

    /// How many rows it has, and how many columns.
    pub fn size(&self) -> u32
        ensures size { result ≡ self.now.size }
        ensures small { result ≤ 2 ^ 11 }
    {
        self.size
    }

    /// The places in order.
    pub fn places(&self) -> &[(u32, u32)]
        ensures value { result.now ≡ self.now.places }
        ensures sound { IsPattern self.now }
    {
        self.places.as_slice()
    }

    /// Where a place stands in the order.
    pub fn find(&self, row: u32, col: u32) -> Option<usize>
        ensures some { IfSome result (λ k. IsSlot self.now.places row col k) }
        ensures only { IfSome result (λ k. (j : ℕ) → IsSlot self.now.places row col j → j ≡ k) }
        ensures none { IfNone result (¬ (Contains self.now.places (row, col))) }
    {
        match self.places.binary_search(&(row, col)) {
            Ok(k) => Some(k),
            Err(_) => None,
        }
    }

    /// Where the first place of a row stands in the order, or of a later row where it has none; for the row behind the last the
    /// number of places.
    pub fn start(&self, row: u32) -> usize
        requires { row ≤ self.now.size }
        ensures { IsStart self.now.places row result }
    {
        self.starts[row as usize]
    }
}

// Each of the places once.
fn without_repeats(alloc: Global, places: &[(u32, u32)]) -> Result<Vec<(u32, u32)>, AllocError>
    requires { IsSorted places.now }
    ensures { IfOk result (λ kept. IsKept places.now kept.items) }
{
    let mut kept: Vec<(u32, u32)> = Vec::new(alloc);
    for place in places {
        if is_new(&kept, place) {
            kept.push(*place)?;
        }
    }
    Ok(kept)
}

// Whether a place isn't the last one.
fn is_new(kept: &[(u32, u32)], place: &(u32, u32)) -> bool
    requires rising { IsRising kept.now }
    requires order { (k : ℕ) → k < length kept.now → IsNotAfter (key kept.now k) place.now }
    ensures yes { result ≡ true → IsAfterAll kept.now place.now }
    ensures no { result ≡ false → Contains kept.now place.now }
{
    match kept.last() {
        None => true,
        Some(last) => last.0 != place.0 || last.1 != place.1,
    }
}

// Where each row starts.
fn starts_of(alloc: Global, size: u32, places: &[(u32, u32)]) -> Result<Vec<usize>, AllocError>
    requires small { size ≤ 2 ^ 11 }
    requires sorted { IsSorted places.now }
    ensures { IfOk result (λ starts. AreStarts size places.now starts.items) }
{
    let mut starts = Vec::new(alloc);
    for row in 0..size + 1 {
        starts.push(start_of(places, row))?;
    }
    Ok(starts)
}

// Where a row starts.
fn start_of(places: &[(u32, u32)], row: u32) -> usize
    requires { IsSorted places.now }
    ensures { IsStart places.now row result }
{
    places.partition_point(|place| place.0 < row)
}
