// Sums of the columns of a matrix by non-zeros, each row times a factor.
ghost use Rattle.std.specs.Prelude.{◌≡◌, ℕ, ◌<◌, ◌≤◌, ◌^◌, ℤ, pos, nat_abs, IfNone, IfOk, IfSome, length, Some, None};
ghost use Rattle.fd_enclosure.specs.fd_exact.States.{part};
ghost use Rattle.fd_enclosure.specs.fd_arith.Wide.{wide_product};
ghost use Rattle.fd_cert.specs.Columns.{AreColumns, AreUnits, HasEntries, IsMade, IsRow, IsRowOfInverse, column_sum, sum_more as more};
ghost use Rattle.fd_cert.specs.Entries.{IsFlatOf};

use crate::flat::{Entry, add_entries, entries_of};
use fd_enclosure::{Cell, Matrix, Wide};
use std::alloc::{AllocError, Global};

// The greatest size of a number of which two have a product of 64 bits each, 2^59.
const SHORT: u128 = 0x800_0000_0000_0000;

// The product of two short numbers: one multiplication of 64 bits.
fn short_product(factor: i128, entry: i128) -> i128
    requires factor { nat_abs factor ≤ 2 ^ 59 }
    requires entry { nat_abs entry ≤ 2 ^ 59 }
    ensures { Some result ≡ wide_product (Some factor) (Some entry) }
{
    (factor as i64) as i128 * (entry as i64) as i128
}

// The product, where it is at most 2^120 in size.
fn product(factor: i128, entry: i128) -> Option<i128>
    ensures { result ≡ wide_product (Some factor) (Some entry) }
{
    if factor.unsigned_abs() <= SHORT && entry.unsigned_abs() <= SHORT {
        return Some(short_product(factor, entry));
    }
    match factor.checked_mul(entry) {
        Some(product) => Wide::of(product).value(),
        None => None,
    }
}

// The sum with the product of a factor and an entry more, where both are at most 2^120 in size.
fn sum_more(sum: i128, factor: i128, entry: i128) -> Option<i128>
    requires { nat_abs sum ≤ 2 ^ 120 }
    ensures sum { result ≡ more sum factor entry }
    ensures small { IfSome result (λ s. nat_abs s ≤ 2 ^ 120) }
{
    match product(factor, entry) {
        Some(product) => Wide::of(sum + product).value(),
        None => None,
    }
}

// Adds the products of a factor with the entries of a row to the sums of the columns. Gives a column at which a product or a sum passes
// 2^120, if there is one.
fn add_products(sums: &mut [i128], cells: &[Cell], factor: i128) -> Option<u32>
    requires columns { AreColumns (length sums.old) cells.now }
    requires units { AreUnits sums.old }
    ensures long { length sums.new ≡ length sums.old }
    ensures units { AreUnits sums.new }
    ensures sums { (at : ℕ → ℤ) → IsRow cells.now at →
        IfNone result ((j : ℕ) → more (part sums.old j) factor (at j) ≡ Some (part sums.new j)) }
    ensures past { (at : ℕ → ℤ) → IsRow cells.now at →
        IfSome result (λ j. (j < length sums.old) × (more (part sums.old j) factor (at j) ≡ None)) }
{
    for cell in cells {
        let col = cell.col as usize;
        match sum_more(sums[col], factor, cell.units) {
            Some(sum) => sums[col] = sum,
            None => return Some(cell.col),
        }
    }
    None
}

// Writes into `sums` for each column the sum over the rows of the factor of the row times the entry. Gives a column at which a product or
// a sum passes 2^120, if there is one.
fn column_sums(sums: &mut [i128], matrix: &Matrix, factors: &[i64]) -> Option<u32>
    requires made { IsMade matrix.now }
    requires factors { length factors.now ≡ matrix.now.size }
    requires sums { length sums.old ≡ matrix.now.size }
    requires zero { (j : ℕ) → part sums.old j ≡ pos 0 }
    ensures long { length sums.new ≡ length sums.old }
    ensures units { AreUnits sums.new }
    ensures sums { (J : ℕ → ℕ → ℤ) → HasEntries matrix.now J →
        IfNone result ((j : ℕ) → column_sum (part factors.now) J j matrix.now.size ≡ Some (part sums.new j)) }
    ensures past { (J : ℕ → ℕ → ℤ) → HasEntries matrix.now J →
        IfSome result (λ j. (j < matrix.now.size) × (column_sum (part factors.now) J j matrix.now.size ≡ None)) }
{
    for row in 0..matrix.size() {
        let past = add_products(sums, matrix.row(row), factors[row as usize] as i128);
        if past.is_some() {
            return past;
        }
    }
    None
}

// A matrix, and its entries in a list if all are short.
#[derive(Drop)]
pub struct Walk<'a> {
    matrix: &'a Matrix<'a>,
    pub entries: Option<Vec<Entry>>,
}

impl<'a> Walk<'a> {
    pub fn of(alloc: Global, matrix: &'a Matrix<'a>) -> Result<Walk<'a>, AllocError>
        requires { IsMade matrix.now }
        ensures matrix { IfOk result (λ w. w.matrix.now ≡ matrix.now) }
        ensures flat { IfOk result (λ w. IfSome w.entries (λ es. IsFlatOf w.matrix.now es.items)) }
    {
        let entries = entries_of(alloc, matrix)?;
        Ok(Walk { matrix, entries })
    }

    // How many rows it has, and how many columns.
    pub fn size(&self) -> u32
        ensures size { result ≡ self.now.matrix.now.size }
        ensures small { result ≤ 2 ^ 11 }
    {
        self.matrix.size()
    }

    // The same as `column_sums`, without tests where all entries are short.
    pub fn sums(&self, sums: &mut [i128], factors: &[i64]) -> Option<u32>
        requires made { IsMade self.now.matrix.now }
        requires flat { IfSome self.now.entries (λ es. IsFlatOf self.now.matrix.now es.items) }
        requires factors { IsRowOfInverse self.now.matrix.now.size factors.now }
        requires sums { length sums.old ≡ self.now.matrix.now.size }
        requires zero { (j : ℕ) → part sums.old j ≡ pos 0 }
        ensures long { length sums.new ≡ length sums.old }
        ensures units { AreUnits sums.new }
        ensures sums { (J : ℕ → ℕ → ℤ) → HasEntries self.now.matrix.now J →
            IfNone result ((j : ℕ) → j < self.now.matrix.now.size → column_sum (part factors.now) J j self.now.matrix.now.size ≡ Some (part sums.new j)) }
        ensures past { (J : ℕ → ℕ → ℤ) → HasEntries self.now.matrix.now J →
            IfSome result (λ j. (j < self.now.matrix.now.size) × (column_sum (part factors.now) J j self.now.matrix.now.size ≡ None)) }
    {
        match &self.entries {
            Some(entries) => {
                let _size = self.size();
                add_entries(sums, entries, factors);
                None
            }
            None => column_sums(sums, self.matrix, factors),
        }
    }
}

// Writes 0 at each place.
pub fn clear(sums: &mut [i128])
    ensures long { length sums.new ≡ length sums.old }
    ensures zero { (j : ℕ) → part sums.new j ≡ pos 0 }
{
    for sum in sums {
        *sum = 0;
    }
}
