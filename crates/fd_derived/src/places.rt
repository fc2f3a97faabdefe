// The places of a row's entries: that they exist, and that none is named twice.
ghost use Rattle.std.specs.Prelude.{◌≡◌, ℕ, ◌+◌, ◌<◌, ◌≤◌, length, IfOk};
ghost use Rattle.fd_derived.specs.Refusals.{has_places as has_new_places, is_placed as row_is_placed};
ghost use Rattle.fd_derived.specs.Rows.{derived_row, entries_of, number_at};
ghost use Rattle.fd_derived.specs.Marks.{AreBelow, AreMarks};

use crate::entries::{Entry, Row};
use std::alloc::{AllocError, Global};

// Whether the entries of a row have places of a list of marks, and none twice. A place that is named is marked; the mark
// is above all that stand there.
fn has_places(row: &[Entry], marks: &mut [usize], mark: usize) -> bool
    requires fresh { AreBelow marks.old mark }
    ensures long { length marks.new ≡ length marks.old }
    ensures marked { AreBelow marks.new (mark + 1) }
    ensures places { result ≡ has_new_places (length marks.old) (entries_of row.now) }
{
    for entry in row {
        if entry.place >= marks.len() || marks[entry.place] == mark {
            return false;
        }
        marks[entry.place] = mark;
    }
    true
}

// For each equation, row and unknown a mark of the row that named it last.
#[derive(Drop)]
pub struct Marks {
    pub equations: Vec<usize>,
    pub rows: Vec<usize>,
    pub unknowns: Vec<usize>,
}

impl Marks {
    // Marks of no row.
    pub fn none(alloc: Global, equations: usize, rows: usize) -> Result<Marks, AllocError>
        ensures marks { IfOk result (λ m. AreMarks equations rows 1 m) }
    {
        Ok(Marks {
            equations: vec![in alloc; 0; equations]?,
            rows: vec![in alloc; 0; rows]?,
            unknowns: vec![in alloc; 0; equations]?,
        })
    }

    // Whether what a row names exists, and is named once.
    pub fn is_placed(&mut self, row: &Row, mark: usize) -> bool
        requires { AreMarks (length self.old.equations.items) (length self.old.rows.items) mark self.old }
        ensures marks { AreMarks (length self.old.equations.items) (length self.old.rows.items) (mark + 1) self.new }
        ensures placed { result ≡ row_is_placed (length self.old.equations.items) (length self.old.rows.items) (derived_row row.now) }
    {
        has_places(&row.equations, &mut self.equations, mark)
            && has_places(&row.others, &mut self.rows, mark)
            && has_places(&row.left, &mut self.unknowns, mark)
    }
}
