// The numbers of an unknown as texts.
ghost use Rattle.std.specs.Prelude.{◌≡◌, ◌+◌, ◌*◌, ◌<◌, ◌≤◌, IfOk};
ghost use Rattle.fd_report.specs.Records.{interval_fields, mismatch_fields, part_fields, value_fields};
ghost use Rattle.fd_report.specs.Solutions.{IsOfSize};
ghost use Rattle.fd_report.specs.Texts.{intervals_in, mismatches_in, parts_in, values_in};

use crate::sizes::{greatest_size, least_size};
use crate::solution::Solution;
use dss_script::{micro_text, size_text};
use std::alloc::{AllocError, Global};

/// The parts of a complex unknown and the mismatches of its rows.
#[derive(Drop)]
pub(crate) struct ComplexTexts {
    pub re: Vec<u8>,
    pub im: Vec<u8>,
    pub mismatch_re: Vec<u8>,
    pub mismatch_im: Vec<u8>,
}

/// The radius and the half-width of the box of its parts, and its least and its greatest size within the radii.
#[derive(Drop)]
pub(crate) struct IntervalTexts {
    pub radius: Vec<u8>,
    pub half_width: Vec<u8>,
    pub low: Vec<u8>,
    pub high: Vec<u8>,
}

/// A real unknown, its radius, the half-width of its box, and the mismatch of its row.
#[derive(Drop)]
pub(crate) struct ValueTexts {
    pub value: Vec<u8>,
    pub radius: Vec<u8>,
    pub half_width: Vec<u8>,
    pub mismatch: Vec<u8>,
}

/// Those of complex unknown k of a solution of size n.
pub(crate) fn complex_texts(
    alloc: Global,
    s: &Solution,
    n: usize,
    k: usize,
) -> Result<ComplexTexts, AllocError>
    requires solution { IsOfSize n s.now }
    requires place { 2 * k + 2 ≤ n }
    ensures parts { IfOk result (λ t. parts_in t ≡ part_fields s.now k) }
    ensures mismatches { IfOk result (λ t. mismatches_in t ≡ mismatch_fields s.now k) }
{
    Ok(ComplexTexts {
        re: micro_text(alloc, s.centre()[2 * k])?,
        im: micro_text(alloc, s.centre()[2 * k + 1])?,
        mismatch_re: size_text(alloc, s.mismatches()[2 * k])?,
        mismatch_im: size_text(alloc, s.mismatches()[2 * k + 1])?,
    })
}

/// Those of complex unknown k of a solution of size n.
pub(crate) fn interval_texts(
    alloc: Global,
    s: &Solution,
    n: usize,
    k: usize,
) -> Result<IntervalTexts, AllocError>
    requires solution { IsOfSize n s.now }
    requires place { 2 * k + 2 ≤ n }
    ensures { IfOk result (λ t. intervals_in t ≡ interval_fields s.now k) }
{
    Ok(IntervalTexts {
        radius: size_text(alloc, s.radii()[2 * k])?,
        half_width: size_text(alloc, s.boxes()[2 * k])?,
        low: size_text(alloc, least_size(s, n, k))?,
        high: size_text(alloc, greatest_size(s, n, k))?,
    })
}

/// Those of the real unknown at this place of a solution of size n.
pub(crate) fn value_texts(
    alloc: Global,
    s: &Solution,
    n: usize,
    place: usize,
) -> Result<ValueTexts, AllocError>
    requires solution { IsOfSize n s.now }
    requires place { place < n }
    ensures { IfOk result (λ t. values_in t ≡ value_fields s.now place) }
{
    Ok(ValueTexts {
        value: micro_text(alloc, s.centre()[place])?,
        radius: size_text(alloc, s.radii()[place])?,
        half_width: size_text(alloc, s.boxes()[place])?,
        mismatch: size_text(alloc, s.mismatches()[place])?,
    })
}
