// The constants of the rows.
ghost use Rattle.std.specs.Prelude.{◌≡◌, ℕ, pos, ◌<◌, ◌^◌, IfOk, length, All};
ghost use Rattle.fd_mat.specs.fd_exact.States.{part};
ghost use Rattle.fd_pattern.specs.Conditions.{AreKnown, IsKnown};
ghost use Rattle.fd_equations.specs.Rounded.{constant_added, constant_sum, list_of};

use fd_pattern::Constant;
use std::alloc::{AllocError, Global};

/// The sum of the constants of each row.
pub fn constant_sums(
    alloc: Global,
    size: u32,
    constants: &[Constant],
) -> Result<Vec<i128>, AllocError>
    requires known { All (IsKnown size) constants.now }
    requires few { length constants.now < 2 ^ 24 }
    ensures { IfOk result (λ rows. rows.items ≡ list_of size (constant_sum constants.now)) }
{
    let mut rows = vec![in alloc; 0; size as usize]?;
    add_all(&mut rows, constants);
    Ok(rows)
}

// Adds each constant to the sum of its row.
fn add_all(rows: &mut [i128], constants: &[Constant])
    requires known { All (IsKnown (length rows.old)) constants.now }
    requires few { length constants.now < 2 ^ 24 }
    requires zero { (row : ℕ) → part rows.old row ≡ pos 0 }
    ensures { rows.new ≡ list_of (length rows.old) (constant_sum constants.now) }
{
    for constant in constants {
        add_to(rows, constant);
    }
}

// Adds a constant to the sum of its row.
fn add_to(rows: &mut [i128], constant: &Constant)
    requires known { IsKnown (length rows.old) constant.now }
    requires room { AreKnown rows.old }
    ensures { rows.new ≡ constant_added rows.old constant.now }
{
    rows[constant.row as usize] += constant.value;
}
