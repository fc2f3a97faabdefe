// Start matrices that were inverted before, and the procedure with them.
ghost use Rattle.std.specs.Prelude.{◌≡◌, ◌<◌, ◌≤◌, ◌^◌, ℕ, [], length, IfOk, IfErr, IfNone, IfSome, OnOk, OnErr, Ok, Err};
ghost use Rattle.fd_equations.specs.fd_mat.Rows.{EntriesWithin};
ghost use Rattle.fd_equations.specs.fd_pattern.Conditions.{IsPoint};
ghost use Rattle.fd_equations.specs.Rounded.{start_matrix_of};
ghost use Rattle.fd_inject.specs.Faults.{IsInside, UnlessMemory};
ghost use Rattle.fd_inject.specs.Kept.{IsKept, IsKeptAt, IsStored, with_latest};
ghost use Rattle.fd_inject.specs.declared.fault.SolveFault.TheVariants.{NoMemory};
ghost use Rattle.fd_inject.specs.Procedure.{IsLimits, solution_of};

use crate::fault::SolveFault;
use crate::limits::Limits;
use crate::procedure::solve_from;
use crate::ranges::inverse;
use fd_equations::{Dense, Network, Point, SparseRows};
use std::alloc::{AllocError, Global};
use std::marker::Model;

// The matrices of the network's size that an elimination has in use at a time: its cells, which are two, and the inverse.
const MATRICES: usize = 3;

// How many pairs are kept.
const MOST_PAIRS: usize = 4;

/// A start matrix and its inverse, in units of 2^-40.
#[derive(Drop)]
pub struct KeptPair {
    pub matrix: SparseRows,
    pub inverse: Dense,
}

/// The start matrices of the last points that were reached, with their inverses, the oldest first: at most four.
#[derive(Drop)]
pub struct Kept {
    pairs: Vec<KeptPair>,
}

impl Model for Kept {
    ghost use Rattle.std.specs.Prelude.{◌≤◌, List, All, length};
    ghost use Rattle.fd_inject.specs.declared.kept.KeptPair.{KeptPair};
    ghost use Rattle.fd_inject.specs.Kept.{IsInverted};

    ghost Value = { List KeptPair };

    ghost view = { λ k. k.pairs.items };

    ghost invariant = { λ k. (length k.pairs.items ≤ 4) × All IsInverted k.pairs.items };
}

impl Kept {
    /// No pair. It takes no memory.
    pub fn empty(alloc: Global) -> Kept
        ensures { result ≡ [] }
    {
        Kept {
            pairs: Vec::new(alloc),
        }
    }

    // Where a matrix stands.
    fn find(&self, matrix: &SparseRows) -> Option<usize>
        ensures found { IfSome result (IsKeptAt matrix.now self.now) }
        ensures none { IfNone result (¬ (IsKept matrix.now self.now)) }
    {
        for place in 0..self.pairs.len() {
            if self.pairs[place].matrix.same(matrix) {
                return Some(place);
            }
        }
        None
    }
}

/// The point of a network: a state that nearly meets the rows, and the inverse of the rounded Jacobian with which it was reached.
///
/// Iterates are numbered from 0. Iterate 0 is the inverse of the start matrix times the constants, its sign turned, with each
/// magnitude at its load's nominal voltage. A step subtracts the inverse times the rounded residual, each row's sum over 2^40 to the
/// nearest. The steps end where each part of a node and each magnitude moved by at most the tolerance times its weight at the new
/// iterate. Then the inverse is taken anew, of the rounded Jacobian there, and two steps are made with it. The rule is this profile's.
///
/// # Errors
/// The first fault in the order of the steps. `NoInverse`: the start matrix, or the rounded Jacobian of the last iterate, has no
/// inverse, or has an entry past 2^62 in size in the column (`Range`). `OutOfRange`: a part of an iterate is past 2^40 in size, or one
/// of its residual past 2^58 when it is needed; for the start also a row's constants. `NotConverged`: after `max_iterations` steps a
/// part of a node or a magnitude still moves by more. `NoMemory` where memory is refused. Each column and each place that is named is one
/// of the network's.
pub fn solve(alloc: Global, net: &Network, limits: &Limits) -> Result<Point, SolveFault>
    requires { IsLimits limits.now }
    ensures point { IfOk result (λ p. solution_of net.now limits.now ≡ Ok (p.x.items, p.inverse)) }
    ensures fault { IfErr result (λ f. UnlessMemory f (solution_of net.now limits.now ≡ Err f)) }
    ensures within { IfErr result (λ f. IsInside net.now.size f) }
    ensures parts { IfOk result (λ p. IsPoint net.now p.x.items) }
    ensures size { IfOk result (λ p. length p.inverse ≡ net.now.size) }
    ensures entries { IfOk result (λ p. EntriesWithin p.inverse (2 ^ 56)) }
{
    solve_kept(alloc, net, limits, &mut Kept::empty(alloc))
}

/// The same, whatever is kept: where the network's start matrix is kept, its inverse isn't made again. Where it isn't, it is kept with
/// its inverse once a point is reached, and of more than four pairs the oldest is dropped.
///
/// # Errors
/// Those of `solve`, where `solve` has them.
pub fn solve_kept(
    alloc: Global,
    net: &Network,
    limits: &Limits,
    kept: &mut Kept,
) -> Result<Point, SolveFault>
    requires { IsLimits limits.now }
    ensures point { IfOk result (λ p. solution_of net.now limits.now ≡ Ok (p.x.items, p.inverse)) }
    ensures fault { IfErr result (λ f. UnlessMemory f (solution_of net.now limits.now ≡ Err f)) }
    ensures within { IfErr result (λ f. IsInside net.now.size f) }
    ensures parts { IfOk result (λ p. IsPoint net.now p.x.items) }
    ensures size { IfOk result (λ p. length p.inverse ≡ net.now.size) }
    ensures entries { IfOk result (λ p. EntriesWithin p.inverse (2 ^ 56)) }
    ensures found { IsKept (start_matrix_of net.now) kept.old → kept.new ≡ kept.old }
    ensures stored { OnOk result (¬ (IsKept (start_matrix_of net.now) kept.old) → IsStored (start_matrix_of net.now) kept.old kept.new) }
    ensures as_before { OnErr result (kept.new ≡ kept.old) }
{
    keep_memory(alloc, net.size());
    let matrix = net.sparse_start(alloc)?;
    match kept.find(&matrix) {
        Some(place) => solve_at(alloc, net, limits, kept, place),
        None => solve_anew(alloc, net, limits, kept, matrix),
    }
}

// Takes memory for the matrices that an elimination has in use at a time, if it is there, and gives it back. For a block larger than
// each that was freed so far, the C library's heap asks the system anew, which clears its pages; after this the heap
// keeps a matrix's memory for the next one.
fn keep_memory(alloc: Global, size: u32)
    requires { size ≤ 2 ^ 11 }
{
    let width = size as usize;
    let room: Result<Vec<i64>, AllocError> = Vec::with_capacity(alloc, MATRICES * (width * width));
    drop(room);
}

// The same where the start matrix is kept at this place.
fn solve_at(
    alloc: Global,
    net: &Network,
    limits: &Limits,
    kept: &Kept,
    place: usize,
) -> Result<Point, SolveFault>
    requires limits { IsLimits limits.now }
    requires kept { IsKeptAt (start_matrix_of net.now) kept.now place }
    ensures point { IfOk result (λ p. solution_of net.now limits.now ≡ Ok (p.x.items, p.inverse)) }
    ensures fault { IfErr result (λ f. UnlessMemory f (solution_of net.now limits.now ≡ Err f)) }
    ensures within { IfErr result (λ f. IsInside net.now.size f) }
    ensures parts { IfOk result (λ p. IsPoint net.now p.x.items) }
    ensures size { IfOk result (λ p. length p.inverse ≡ net.now.size) }
    ensures entries { IfOk result (λ p. EntriesWithin p.inverse (2 ^ 56)) }
{
    solve_from(alloc, net, limits, &kept.pairs[place].inverse)
}

// The same of a start matrix that isn't kept.
fn solve_anew(
    alloc: Global,
    net: &Network,
    limits: &Limits,
    kept: &mut Kept,
    matrix: SparseRows,
) -> Result<Point, SolveFault>
    requires limits { IsLimits limits.now }
    requires start { matrix ≡ start_matrix_of net.now }
    ensures point { IfOk result (λ p. solution_of net.now limits.now ≡ Ok (p.x.items, p.inverse)) }
    ensures fault { IfErr result (λ f. UnlessMemory f (solution_of net.now limits.now ≡ Err f)) }
    ensures within { IfErr result (λ f. IsInside net.now.size f) }
    ensures parts { IfOk result (λ p. IsPoint net.now p.x.items) }
    ensures size { IfOk result (λ p. length p.inverse ≡ net.now.size) }
    ensures entries { IfOk result (λ p. EntriesWithin p.inverse (2 ^ 56)) }
    ensures stored { OnOk result (IsStored (start_matrix_of net.now) kept.old kept.new) }
    ensures as_before { OnErr result (kept.new ≡ kept.old) }
{
    // now, so that no point is lost for want of room
    kept.pairs.reserve(1)?;
    // read for its bound alone
    let _size = net.size();
    let first = inverse(alloc, &matrix)?;
    let point = solve_from(alloc, net, limits, &first)?;
    let pair = KeptPair {
        matrix,
        inverse: first,
    };
    put_latest(&mut kept.pairs, pair)?;
    Ok(point)
}

// Puts a pair behind the others, of which the oldest goes where there are too many.
fn put_latest(pairs: &mut Vec<KeptPair>, pair: KeptPair) -> Result<(), SolveFault>
    requires { length pairs.old.items ≤ 4 }
    ensures put { OnOk result (pairs.new.items ≡ with_latest pair pairs.old.items) }
    ensures as_before { OnErr result (pairs.new.items ≡ pairs.old.items) }
    ensures memory { IfErr result (λ f. f ≡ NoMemory) }
{
    pairs.push(pair)?;
    if pairs.len() <= MOST_PAIRS {
        return Ok(());
    }
    drop(pairs.remove(0));
    Ok(())
}
