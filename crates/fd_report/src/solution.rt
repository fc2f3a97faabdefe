// The numbers of a solution.
ghost use Rattle.std.specs.Prelude.{◌≡◌};
ghost use Rattle.fd_report.specs.Solutions.{solution_of};

use std::marker::Model;

/// The numbers of a solution, by place, in whole microvolts and microamperes: a state, the radius within which others
/// lie of it, the half-width of the box of which these speak, and the mismatch of each row.
#[derive(Drop)]
pub struct Solution<'a> {
    centre: &'a [i128],
    radii: &'a [u128],
    boxes: &'a [u128],
    mismatches: &'a [u128],
}

impl<'a> Model for Solution<'a> {
    ghost use Rattle.fd_report.specs.Solutions.{SolutionView, solution_of};

    ghost Value = { SolutionView };

    ghost view = { λ s. solution_of s.centre.now s.radii.now s.boxes.now s.mismatches.now };
}

impl<'a> Solution<'a> {
    /// The solution of these numbers.
    pub fn new(
        centre: &'a [i128],
        radii: &'a [u128],
        boxes: &'a [u128],
        mismatches: &'a [u128],
    ) -> Solution<'a>
        ensures { result ≡ solution_of centre.now radii.now boxes.now mismatches.now }
    {
        Solution {
            centre,
            radii,
            boxes,
            mismatches,
        }
    }

    pub(crate) fn centre(&self) -> &'a [i128]
        ensures { result.now ≡ self.now.centre }
    {
        self.centre
    }

    pub(crate) fn radii(&self) -> &'a [u128]
        ensures { result.now ≡ self.now.radii }
    {
        self.radii
    }

    pub(crate) fn boxes(&self) -> &'a [u128]
        ensures { result.now ≡ self.now.boxes }
    {
        self.boxes
    }

    pub(crate) fn mismatches(&self) -> &'a [u128]
        ensures { result.now ≡ self.now.mismatches }
    {
        self.mismatches
    }
}
