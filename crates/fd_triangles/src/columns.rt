// The rows that had an entry in a column once.
ghost use Rattle.std.specs.Prelude.{◌≡◌, ◌<◌, ◌∷◌, ◌++◌, [], length, set, IfOk};
ghost use Rattle.fd_triangles.specs.Columns.{IsNoted};

use std::alloc::{AllocError, Global};
use std::mem;

/// The rows that had an entry in a column once, by their places.
#[derive(Debug, Drop)]
pub struct Column {
    pub rows: Vec<usize>,
}

// Notes a row in a column.
pub fn note(columns: &mut [Column], place: usize, index: usize) -> Result<(), AllocError>
    requires { place < length columns.old }
    ensures { IfOk result (λ _. IsNoted columns.old columns.new place index) }
{
    columns[place].rows.push(index)?;
    Ok(())
}

// Takes the rows out of a column.
pub fn take_rows(alloc: Global, column: &mut Column) -> Vec<usize>
    ensures taken { result.items ≡ column.old.rows.items }
    ensures none { column.new.rows.items ≡ [] }
{
    mem::replace(&mut column.rows, Vec::new(alloc))
}
