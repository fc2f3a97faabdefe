// A matrix by the entries that aren't 0.
ghost use Rattle.std.specs.Prelude.{◌≡◌, ◌≢◌, ℕ, pos, ◌+◌, ◌*◌, ◌%◌, ◌<◌, ◌≤◌, ◌↔◌, nat_abs, IsTrue, IfOk, IfErr, IfNone, OnOk, OnErr, length};
ghost use Rattle.fd_exact.specs.States.{entry, table};
ghost use Rattle.fd_mat.specs.Rows.{with_entry, EntriesWithin, first_column_past as column_past};
ghost use Rattle.fd_mat.specs.Sparse.{IsAt, IsGap, IsHeld, IsRising};

use std::alloc::{AllocError, Global};
use std::marker::Model;

/// An entry that isn't 0, and its place, counted row by row: its row times the number of rows, and its column.
#[derive(Clone, Copy, Debug, PartialEq, Eq)]
pub struct Held {
    pub place: usize,
    pub value: i128,
}

/// A square matrix of whole numbers that keeps the entries that aren't 0, seen as a list of rows, as `Dense` is.
///
/// The numbers carry no unit of their own: the caller says what one unit is.
#[derive(Debug, Drop)]
pub struct SparseRows {
    size: u32,
    // in rising places
    entries: Vec<Held>,
}

impl Model for SparseRows {
    ghost use Rattle.std.specs.Prelude.{ℤ, List};
    ghost use Rattle.fd_mat.specs.Sparse.{AreHeld, rows_held};

    ghost Value = { List (List ℤ) };

    ghost view = { λ m. rows_held m.size m.entries.items };

    ghost invariant = { λ m. AreHeld m.size m.entries.items };
}

impl SparseRows {
    /// The matrix of `n` rows and `n` columns whose entries are all 0. It takes no memory.
    pub fn zero(alloc: Global, n: u32) -> SparseRows
        ensures { result ≡ table n n (λ _ _. pos 0) }
    {
        SparseRows {
            size: n,
            entries: Vec::new(alloc),
        }
    }

    /// How many rows it has, and how many columns.
    pub fn size(&self) -> u32
        ensures { result ≡ length self.now }
    {
        self.size
    }

    /// The entries that aren't 0, in rising places.
    pub fn held(&self) -> &[Held]
        ensures { IsHeld self.now result.now }
    {
        self.entries.as_slice()
    }

    /// The entry in a row and a column, both counted from 0.
    pub fn get(&self, row: u32, col: u32) -> i128
        requires row_in { row < length self.now }
        requires col_in { col < length self.now }
        ensures { result ≡ entry self.now row col }
    {
        match find(&self.entries, self.place(row, col)) {
            Ok(at) => self.entries[at].value,
            Err(_) => 0,
        }
    }

    /// Writes the entry in a row and a column, both counted from 0. Each other entry stays. Only an entry that was 0 and
    /// becomes another takes memory, and the entries behind it are moved by one.
    ///
    /// # Errors
    /// `AllocError` where the memory for the entry is refused; then the matrix is as before.
    pub fn set(&mut self, row: u32, col: u32, value: i128) -> Result<(), AllocError>
        requires row_in { row < length self.old }
        requires col_in { col < length self.old }
        ensures set { OnOk result (self.new ≡ with_entry self.old row col value) }
        ensures as_before { OnErr result (self.new ≡ self.old) }
        ensures refused { IfErr result (λ _. (value ≢ pos 0) × (entry self.old row col ≡ pos 0)) }
    {
        let place = self.place(row, col);
        match find(&self.entries, place) {
            Ok(at) if value == 0 => {
                self.entries.remove(at);
            }
            Ok(at) => self.entries[at] = Held { place, value },
            Err(_) if value == 0 => {}
            Err(at) => self.entries.insert(at, Held { place, value })?,
        }
        Ok(())
    }

    /// The first column that has an entry greater than `limit` in size, if there is one.
    pub fn first_column_past(&self, limit: u128) -> Option<u32>
        ensures first { result ≡ column_past limit self.now }
        ensures none { IfNone result (EntriesWithin self.now limit) }
    {
        let size = self.size as usize;
        let mut least = size;
        for held in &self.entries {
            least = earlier(least, held, size, limit);
        }
        if least < size {
            Some(least as u32)
        } else {
            None
        }
    }

    /// Whether it is the same matrix.
    pub fn same(&self, other: &SparseRows) -> bool
        ensures { IsTrue result ↔ (self.now ≡ other.now) }
    {
        self.size == other.size && self.entries.as_slice() == other.entries.as_slice()
    }

    // Where an entry stands among rows that lie one after another.
    fn place(&self, row: u32, col: u32) -> usize
        ensures { result ≡ row * length self.now + col }
    {
        row as usize * self.size as usize + col as usize
    }
}

// The column of an entry where it is before this column and the entry is greater than `limit` in size, else this column.
fn earlier(column: usize, held: &Held, size: usize, limit: u128) -> usize
    requires { 0 < size }
    ensures past { limit < nat_abs held.now.value → held.now.place % size < column → result ≡ held.now.place % size }
    ensures other { (held.now.place % size < column → nat_abs held.now.value ≤ limit) → result ≡ column }
{
    let here = held.place % size;
    if here < column && held.value.unsigned_abs() > limit {
        here
    } else {
        column
    }
}

// Where the entry of a place stands among these, or else where it would stand.
fn find(entries: &[Held], place: usize) -> Result<usize, usize>
    requires { IsRising entries.now }
    ensures found { IfOk result (IsAt entries.now place) }
    ensures gap { IfErr result (IsGap entries.now place) }
{
    entries.binary_search_by_key(&place, |held| held.place)
}
