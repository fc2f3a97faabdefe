// Numbers in 64 bits each, and beside them those that need more.
ghost use Rattle.std.specs.Prelude.{◌≡◌, ◌++◌, ◌∷◌, [], ◌<◌, ◌^◌, nat_abs, IfOk, OnOk};
ghost use Rattle.std.specs.List.{fold};
ghost use Rattle.fd_certfile.specs.Cells.{AreNear, with_long};

use std::alloc::{AllocError, Global};
use std::marker::Model;

// What stands in the place of a number that needs more than 64 bits: no entry of an inverse is so large.
const OUT_OF_RANGE: i64 = 0x7fff_ffff_ffff_ffff;

/// A number that needs more than 64 bits, and its place.
#[derive(Clone, Copy, Debug, Drop)]
pub(crate) struct Long {
    pub place: usize,
    pub value: i128,
}

/// Numbers in order, seen as a list of them. A number of 64 bits takes no more.
#[derive(Debug, Drop)]
pub(crate) struct Cells {
    shorts: Vec<i64>,
    longs: Vec<Long>,
}

impl Model for Cells {
    ghost use Rattle.std.specs.Prelude.{ℤ, List};
    ghost use Rattle.fd_certfile.specs.Cells.{AreLong, with_longs};

    ghost Value = { List ℤ };

    ghost view = { λ c. with_longs c.shorts.items c.longs.items };

    ghost invariant = { λ c. AreLong c.shorts.items c.longs.items };
}

impl Cells {
    /// No number. It takes no memory.
    pub(crate) fn new(alloc: Global) -> Cells
        ensures { result ≡ [] }
    {
        Cells {
            shorts: Vec::new(alloc),
            longs: Vec::new(alloc),
        }
    }

    /// No number, and room for so many of 64 bits.
    pub(crate) fn with_capacity(alloc: Global, room: usize) -> Result<Cells, AllocError>
        ensures { IfOk result (λ cells. cells ≡ []) }
    {
        let shorts = Vec::with_capacity(alloc, room)?;
        Ok(Cells {
            shorts,
            longs: Vec::new(alloc),
        })
    }

    /// Adds a number behind the others.
    pub(crate) fn push(&mut self, number: i128) -> Result<(), AllocError>
        ensures { OnOk result (self.new ≡ self.old ++ number ∷ []) }
    {
        match i64::try_from(number) {
            Ok(short) => self.push_short(short),
            Err(_) => self.push_long(number),
        }
    }

    /// Adds a number of 64 bits behind the others.
    #[inline(always)]
    pub(crate) fn push_short(&mut self, number: i64) -> Result<(), AllocError>
        ensures { OnOk result (self.new ≡ self.old ++ number ∷ []) }
    {
        self.shorts.push(number)?;
        Ok(())
    }

    // Adds a number that needs more behind the others.
    fn push_long(&mut self, number: i128) -> Result<(), AllocError>
        requires { 2 ^ 56 < nat_abs number }
        ensures { OnOk result (self.new ≡ self.old ++ number ∷ []) }
    {
        let place = self.shorts.len();
        self.shorts.push(OUT_OF_RANGE)?;
        self.longs.push(Long {
            place,
            value: number,
        })?;
        Ok(())
    }

    /// The numbers, each in 128 bits.
    pub(crate) fn to_numbers(&self, alloc: Global) -> Result<Vec<i128>, AllocError>
        ensures { IfOk result (λ numbers. numbers.items ≡ self.now) }
    {
        let mut numbers = widened(alloc, &self.shorts)?;
        write(&mut numbers, &self.longs);
        Ok(numbers)
    }

    /// The numbers in 64 bits each, without those that need more: in the place of such a one is another that is out of
    /// the range of an inverse too.
    pub(crate) fn into_shorts(self) -> Vec<i64>
        ensures { AreNear self result.items }
    {
        self.shorts
    }
}

// The same numbers in 128 bits.
fn widened(alloc: Global, shorts: &[i64]) -> Result<Vec<i128>, AllocError>
    ensures { IfOk result (λ numbers. numbers.items ≡ shorts.now) }
{
    let mut numbers = Vec::with_capacity(alloc, shorts.len())?;
    for short in shorts {
        numbers.push(i128::from(*short))?;
    }
    Ok(numbers)
}

// Writes each number at its place.
fn write(numbers: &mut [i128], longs: &[Long])
    ensures { numbers.new ≡ fold with_long numbers.old longs.now }
{
    for long in longs {
        if long.place < numbers.len() {
            numbers[long.place] = long.value;
        }
    }
}
