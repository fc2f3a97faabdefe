// Stamps, what elements add to the rows, and contributions of complex numbers, which are added in room that a list has.
ghost use Rattle.std.specs.Prelude.{◌≡◌, ◌-◌, ◌+◌, ◌*◌, ◌<◌, ◌≤◌, ◌++◌, ℤ, pos, ◌≤ℤ◌, neg_ℤ, ◌^◌, [], IfOk, length, vec_capacity};
ghost use Rattle.fd_arith.specs.fd_exact.Ranges.{Within};
ghost use Rattle.fd_arith.specs.declared.terms.NodeAt.TheVariants.{Node};
ghost use Rattle.fd_system.specs.Contributions.{one, shunt_list, complex_terms, IsSmall};
ghost use Rattle.fd_system.specs.Stamps.{HasRoom, IsRoomSame, stamp_of};
ghost use Rattle.fd_system.specs.System.{beside, joined};

use crate::terminals::NodePair;
use crate::{Constant, LoadAt};
use fd_arith::{NodeAt, Term};
use std::alloc::{AllocError, Global};

/// What an element or a whole circuit adds to the rows of a network: constants, contributions and part loads, in order,
/// and what it draws at nominal voltage, in whole microamperes. Part loads of constant impedance stand in the
/// contributions too.
#[derive(Drop)]
pub struct Stamp {
    pub constants: Vec<Constant>,
    pub terms: Vec<Term>,
    pub loads: Vec<LoadAt>,
    pub draw: u128,
}

impl Stamp {
    /// What no element adds.
    pub fn empty(alloc: Global) -> Self
        ensures { stamp_of result ≡ joined [] }
    {
        Stamp {
            constants: Vec::new(alloc),
            terms: Vec::new(alloc),
            loads: Vec::new(alloc),
            draw: 0,
        }
    }

    /// What no element adds, with room for so many contributions, part loads and constants.
    ///
    /// # Errors
    /// `AllocError` where the memory is refused.
    pub fn with_room(
        alloc: Global,
        terms: usize,
        loads: usize,
        constants: usize,
    ) -> Result<Self, AllocError>
        ensures stamp { IfOk result (λ s. stamp_of s ≡ joined []) }
        ensures room { IfOk result (λ s. HasRoom s terms loads constants) }
    {
        Ok(Stamp {
            constants: Vec::with_capacity(alloc, constants)?,
            terms: Vec::with_capacity(alloc, terms)?,
            loads: Vec::with_capacity(alloc, loads)?,
            draw: 0,
        })
    }

    /// Takes out what was added. The lists keep their room.
    pub fn clear(&mut self)
        ensures stamp { stamp_of self.new ≡ joined [] }
        ensures room { IsRoomSame self.old self.new }
    {
        self.constants.clear();
        self.terms.clear();
        self.loads.clear();
        self.draw = 0;
    }

    /// Adds what further elements add, for which the lists have room. Takes no memory.
    pub fn append_reserved(&mut self, more: &Stamp)
        requires draw { self.old.draw + more.now.draw < 2 ^ 128 }
        requires terms { length self.old.terms.items + length more.now.terms.items ≤ vec_capacity self.old.terms }
        requires loads { length self.old.loads.items + length more.now.loads.items ≤ vec_capacity self.old.loads }
        requires constants { length self.old.constants.items + length more.now.constants.items
            ≤ vec_capacity self.old.constants }
        ensures stamp { stamp_of self.new ≡ beside (stamp_of self.old) (stamp_of more.now) }
        ensures room { IsRoomSame self.old self.new }
    {
        extend_reserved(&mut self.constants, &more.constants);
        extend_reserved(&mut self.terms, &more.terms);
        extend_reserved(&mut self.loads, &more.loads);
        self.draw += more.draw;
    }
}

// Adds these items, for which the list has room.
fn extend_reserved<T: Copy>(list: &mut Vec<T>, more: &[T])
    requires room { length list.old.items + length more.now ≤ vec_capacity list.old }
    ensures items { list.new.items ≡ list.old.items ++ more.now }
    ensures capacity { vec_capacity list.new ≡ vec_capacity list.old }
{
    for item in more {
        list.push_reserved(*item);
    }
}

/// Adds the contribution num / den at a real row and column, unless it is 0. Takes no memory.
pub fn add_one(terms: &mut Vec<Term>, row: u32, col: u32, num: i128, den: i128)
    requires room { length terms.old.items + 1 ≤ vec_capacity terms.old }
    ensures items { terms.new.items ≡ terms.old.items ++ one row col num den }
    ensures capacity { vec_capacity terms.new ≡ vec_capacity terms.old }
    ensures few { length terms.new.items ≤ length terms.old.items + 1 }
{
    if num != 0 {
        terms.push_reserved(Term { row, col, num, den });
    }
}

/// Adds the complex number (re + j im) / den at a complex row and column: four contributions, less those that are 0, and
/// nothing at ground. Takes no memory.
pub fn add_complex(terms: &mut Vec<Term>, row: NodeAt, col: NodeAt, re: i128, im: i128, den: i128)
    requires row_small { IsSmall row }
    requires col_small { IsSmall col }
    requires im_fits { neg_ℤ (pos (2 ^ 126)) ≤ℤ im }
    requires room { length terms.old.items + 4 ≤ vec_capacity terms.old }
    ensures items { terms.new.items ≡ terms.old.items ++ complex_terms row col re im den }
    ensures capacity { vec_capacity terms.new ≡ vec_capacity terms.old }
    ensures few { length terms.new.items ≤ length terms.old.items + 4 }
{
    if let NodeAt::Node(r) = row {
        if let NodeAt::Node(c) = col {
            add_four(terms, r, c, re, im, den);
        }
    }
}

fn add_four(terms: &mut Vec<Term>, r: u32, c: u32, re: i128, im: i128, den: i128)
    requires row_small { r < 2 ^ 31 - 1 }
    requires col_small { c < 2 ^ 31 - 1 }
    requires im_fits { neg_ℤ (pos (2 ^ 126)) ≤ℤ im }
    requires room { length terms.old.items + 4 ≤ vec_capacity terms.old }
    ensures items { terms.new.items ≡ terms.old.items ++ complex_terms (Node r) (Node c) re im den }
    ensures capacity { vec_capacity terms.new ≡ vec_capacity terms.old }
    ensures few { length terms.new.items ≤ length terms.old.items + 4 }
{
    add_one(terms, 2 * r, 2 * c, re, den);
    add_one(terms, 2 * r, 2 * c + 1, -im, den);
    add_one(terms, 2 * r + 1, 2 * c, im, den);
    add_one(terms, 2 * r + 1, 2 * c + 1, re, den);
}

/// Adds the real number num / den at a complex row and column: two contributions, unless it is 0, and nothing at ground. Takes no
/// memory.
pub fn add_real(terms: &mut Vec<Term>, row: NodeAt, col: NodeAt, num: i128, den: i128)
    requires row_small { IsSmall row }
    requires col_small { IsSmall col }
    requires room { length terms.old.items + 2 ≤ vec_capacity terms.old }
    ensures items { terms.new.items ≡ terms.old.items ++ complex_terms row col num (pos 0) den }
    ensures capacity { vec_capacity terms.new ≡ vec_capacity terms.old }
    ensures few { length terms.new.items ≤ length terms.old.items + 2 }
{
    if let NodeAt::Node(r) = row {
        if let NodeAt::Node(c) = col {
            add_both_parts(terms, r, c, num, den);
        }
    }
}

fn add_both_parts(terms: &mut Vec<Term>, r: u32, c: u32, num: i128, den: i128)
    requires row_small { r < 2 ^ 31 - 1 }
    requires col_small { c < 2 ^ 31 - 1 }
    requires room { length terms.old.items + 2 ≤ vec_capacity terms.old }
    ensures items { terms.new.items ≡ terms.old.items ++ complex_terms (Node r) (Node c) num (pos 0) den }
    ensures capacity { vec_capacity terms.new ≡ vec_capacity terms.old }
    ensures few { length terms.new.items ≤ length terms.old.items + 2 }
{
    add_one(terms, 2 * r, 2 * c, num, den);
    add_one(terms, 2 * r + 1, 2 * c + 1, num, den);
}

/// Adds the imaginary number j num / den at a complex row and column: two contributions, unless it is 0, and nothing at ground. Takes
/// no memory.
pub fn add_imaginary(terms: &mut Vec<Term>, row: NodeAt, col: NodeAt, num: i128, den: i128)
    requires row_small { IsSmall row }
    requires col_small { IsSmall col }
    requires num_fits { neg_ℤ (pos (2 ^ 126)) ≤ℤ num }
    requires room { length terms.old.items + 2 ≤ vec_capacity terms.old }
    ensures items { terms.new.items ≡ terms.old.items ++ complex_terms row col (pos 0) num den }
    ensures capacity { vec_capacity terms.new ≡ vec_capacity terms.old }
    ensures few { length terms.new.items ≤ length terms.old.items + 2 }
{
    if let NodeAt::Node(r) = row {
        if let NodeAt::Node(c) = col {
            add_cross_parts(terms, r, c, num, den);
        }
    }
}

fn add_cross_parts(terms: &mut Vec<Term>, r: u32, c: u32, num: i128, den: i128)
    requires row_small { r < 2 ^ 31 - 1 }
    requires col_small { c < 2 ^ 31 - 1 }
    requires num_fits { neg_ℤ (pos (2 ^ 126)) ≤ℤ num }
    requires room { length terms.old.items + 2 ≤ vec_capacity terms.old }
    ensures items { terms.new.items ≡ terms.old.items ++ complex_terms (Node r) (Node c) (pos 0) num den }
    ensures capacity { vec_capacity terms.new ≡ vec_capacity terms.old }
    ensures few { length terms.new.items ≤ length terms.old.items + 2 }
{
    add_one(terms, 2 * r, 2 * c + 1, -num, den);
    add_one(terms, 2 * r + 1, 2 * c, num, den);
}

/// Adds the admittance (re + j im) / den between the two nodes of a phase: what leaves the first enters the second, at most sixteen
/// contributions. Takes no memory.
pub fn add_shunt(terms: &mut Vec<Term>, pair: &NodePair, re: i128, im: i128, den: i128)
    requires first_small { IsSmall pair.now.first }
    requires second_small { IsSmall pair.now.second }
    requires re_fits { Within (2 ^ 126) re }
    requires im_fits { Within (2 ^ 126) im }
    requires room { length terms.old.items + 16 ≤ vec_capacity terms.old }
    ensures items { terms.new.items ≡ terms.old.items ++ shunt_list pair.now.first pair.now.second re im den }
    ensures capacity { vec_capacity terms.new ≡ vec_capacity terms.old }
    ensures few { length terms.new.items ≤ length terms.old.items + 16 }
{
    let (first, second) = (pair.first, pair.second);
    add_complex(terms, first, first, re, im, den);
    add_complex(terms, first, second, -re, -im, den);
    add_complex(terms, second, first, -re, -im, den);
    add_complex(terms, second, second, re, im, den);
}
