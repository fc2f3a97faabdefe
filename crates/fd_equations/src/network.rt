// A network's rows.
ghost use Rattle.std.specs.Prelude.{◌≡◌, ℕ, ◌+◌, ◌*◌, ◌<◌, ◌≤◌, ◌^◌, ℤ, pos, nat_abs, ◌≤ℤ◌, IfOk, length, get_or, None, All};
ghost use Rattle.fd_mat.specs.fd_exact.States.{part};
ghost use Rattle.fd_pattern.specs.fd_arith.Interval.{Holds};
ghost use Rattle.fd_mat.specs.Rows.{EntriesWithin};
ghost use Rattle.fd_pattern.specs.fd_system.Contributions.{AreSmall};
ghost use Rattle.fd_pattern.specs.fd_system.System.{residual_of, stamp_with};
ghost use Rattle.fd_pattern.specs.fd_system.Residual.{whole_state};
ghost use Rattle.fd_pattern.specs.Coefficients.{linear_entry};
ghost use Rattle.fd_pattern.specs.Conditions.{AreApart, IsKnown, IsNetwork, IsPoint, IsServed};
ghost use Rattle.fd_equations.specs.Enclosure.{EndsWithin, addend_count, interval_residual_of, summand_count};
ghost use Rattle.fd_equations.specs.Matrices.{IsMatrix, jacobian_amount, start_amount};
ghost use Rattle.fd_equations.specs.Rounded.{constants_of, jacobian_count, jacobian_of, linear_residual_of, rounded_residual_of, start_matrix_of};
ghost use Rattle.fd_pattern.specs.Views.{kind_of, network_of};
ghost use Rattle.fd_equations.specs.Weights.{weights_of};

use crate::constants::constant_sums;
use crate::load_intervals::add_load_intervals;
use crate::load_rows::add_loads;
use crate::rows::linear_rows;
use crate::weights::weights;
use crate::{Matrix, Rows};
use fd_mat::SparseRows;
use fd_pattern::{Constant, Interval, Layout, LoadAt, Micro, PlaceKind, Term};
use std::alloc::{AllocError, Global};
use std::marker::Model;

/// The rows of a network. Unknowns and rows stand in the same order: the nodes, the branches, then the magnitudes, as `Layout` says.
/// Rows of nodes and of branches are in whole microamperes and microvolts, and so are voltages and currents. The sums and the constants
/// are kept elsewhere.
#[derive(Drop)]
pub struct Network<'a> {
    layout: Layout,
    rows: &'a Rows,
    constants: &'a [Constant],
    draw: u128,
}

impl<'a> Model for Network<'a> {
    ghost use Rattle.std.specs.Prelude.{◌≡◌};
    ghost use Rattle.fd_pattern.specs.Conditions.{IsNetwork};
    ghost use Rattle.fd_pattern.specs.fd_system.System.{stamp_with};
    ghost use Rattle.fd_pattern.specs.Views.{NetworkView, network_of};

    ghost Value = { NetworkView };

    ghost view = { λ n. network_of n.layout (stamp_with n.constants.now n.rows.now.terms n.rows.now.loads n.draw) };

    ghost invariant = { λ n. IsNetwork (network_of n.layout (stamp_with n.constants.now n.rows.now.terms n.rows.now.loads n.draw))
        × (n.rows.now.size ≡ (network_of n.layout (stamp_with n.constants.now n.rows.now.terms n.rows.now.loads n.draw)).size) };
}

impl<'a> Network<'a> {
    /// The network of these rows and constants. Loads of constant impedance stand in the contributions too;
    /// `draw` is the sum of (abs P + abs Q) 10^9 / Vn over load phases and of Q 10^9 / V over closed capacitor phases, each rounded
    /// up, in whole microamperes.
    pub fn new(layout: Layout, rows: &'a Rows, constants: &'a [Constant], draw: u128) -> Network<'a>
        requires small { 2 * (layout.nodes + layout.branches) + layout.magnitudes ≤ 2 ^ 11 }
        requires size { rows.now.size ≡ 2 * (layout.nodes + layout.branches) + layout.magnitudes }
        requires entries { (row col : ℕ) → AreSmall (linear_entry rows.now.terms row col) }
        requires constants { All (IsKnown rows.now.size) constants.now }
        requires few_constants { length constants.now < 2 ^ 24 }
        requires loads { All (IsServed layout.nodes (layout.nodes + layout.branches) rows.now.size) rows.now.loads }
        requires apart { AreApart rows.now.loads }
        requires draw { 16 * draw + 10 ^ 6 ≤ 2 ^ 65 }
        ensures { result ≡ network_of layout (stamp_with constants.now rows.now.terms rows.now.loads draw) }
    {
        let _terms = rows.terms();
        let _loads = rows.loads();
        Network {
            layout,
            rows,
            constants,
            draw,
        }
    }

    /// How many real unknowns there are, and how many rows.
    pub fn size(&self) -> u32
        ensures size { result ≡ self.now.size }
        ensures small { result ≤ 2 ^ 11 }
        ensures valid { IsNetwork self.now }
    {
        self.rows.size()
    }

    /// What the unknown at a place is.
    pub fn kind(&self, place: u32) -> PlaceKind
        requires { place < self.now.size }
        ensures { result ≡ kind_of self.now place }
    {
        self.layout.kind(place)
    }

    /// How many summands of the Jacobian stand in a row and a column: contributions, and slopes of part loads of constant power and of
    /// constant current, also those that are 0.
    pub fn count(&self, row: u32, col: u32) -> u32
        ensures { result ≡ jacobian_count self.now row col }
    {
        self.rows.count(row, col)
    }

    /// The contributions in order.
    pub fn terms(&self) -> &[Term]
        ensures { result.now ≡ self.now.stamp.terms }
    {
        self.rows.terms()
    }

    /// The part loads in order.
    pub fn loads(&self) -> &[LoadAt]
        ensures { result.now ≡ self.now.stamp.loads }
    {
        self.rows.loads()
    }

    // Its constants in order, not summed.
    pub(crate) fn summands(&self) -> &[Constant]
        ensures { result.now ≡ self.now.stamp.constants }
    {
        self.constants
    }

    // How many unknowns of each kind it has.
    pub(crate) fn layout(&self) -> Layout
        ensures nodes { result.nodes ≡ self.now.nodes }
        ensures complexes { result.nodes + result.branches ≡ self.now.complexes }
        ensures magnitudes { result.magnitudes ≡ self.now.magnitudes }
        ensures size { 2 * (result.nodes + result.branches) + result.magnitudes ≡ self.now.size }
    {
        self.layout
    }

    // What is drawn, as `new` has it.
    pub(crate) fn draw(&self) -> u128
        ensures { result ≡ self.now.stamp.draw }
    {
        self.draw
    }

    /// The residual of each row at the point x, in intervals of whole micro-units. Each holds the exact residual, and its ends are at
    /// most the residual's size and two more for each contribution to the row and each load current and magnitude row in it; none is ALL.
    /// They are at most the residual's size and 4 n + 4 with n contributions and load currents.
    ///
    /// # Errors
    /// `AllocError` where the memory for the rows is refused.
    pub fn residual(&self, alloc: Global, x: &[i128]) -> Result<Vec<Interval<Micro>>, AllocError>
        requires { IsPoint self.now x.now }
        ensures rows { IfOk result (λ rows. rows.items ≡ interval_residual_of self.now x.now) }
        ensures holds { IfOk result (λ rows. (l : ℕ) → l < self.now.size
            → Holds (get_or rows.items l None) (residual_of self.now.stamp (whole_state x.now) l)) }
        ensures near { IfOk result (λ rows. (l : ℕ) → l < self.now.size
            → EndsWithin (get_or rows.items l None) (residual_of self.now.stamp (whole_state x.now) l)
            (2 * summand_count self.now.stamp l)) }
        ensures tie { IfOk result (λ rows. (l : ℕ) → l < self.now.size
            → EndsWithin (get_or rows.items l None) (residual_of self.now.stamp (whole_state x.now) l)
            (4 * addend_count self.now.stamp l + 4)) }
    {
        let mut rows = linear_rows(alloc, self.constants, self.rows.terms(), x)?;
        add_load_intervals(&mut rows, self.rows.loads(), x);
        Ok(rows)
    }

    /// The sum of the constants of each row, in whole micro-units.
    ///
    /// # Errors
    /// `AllocError` where the memory for the rows is refused.
    pub fn constants(&self, alloc: Global) -> Result<Vec<i128>, AllocError>
        ensures sums { IfOk result (λ rows. rows.items ≡ constants_of self.now) }
        ensures small { IfOk result (λ rows. (l : ℕ) → nat_abs (part rows.items l) ≤ 2 ^ 84) }
    {
        constant_sums(alloc, self.size(), self.constants)
    }

    /// The rounded residual of each row at the point x, in whole micro-units.
    ///
    /// # Errors
    /// `AllocError` where the memory for the rows is refused.
    pub fn rounded_residual(&self, alloc: Global, x: &[i128]) -> Result<Vec<i128>, AllocError>
        requires { IsPoint self.now x.now }
        ensures rows { IfOk result (λ rows. rows.items ≡ rounded_residual_of self.now x.now) }
        ensures small { IfOk result (λ rows. (l : ℕ) → nat_abs (part rows.items l) ≤ 2 ^ 86) }
    {
        let mut rows = self.linear_residual(alloc, x)?;
        add_loads(&mut rows, self.rows.loads(), x);
        Ok(rows)
    }

    // The rounded residual of the constants and the contributions.
    fn linear_residual(&self, alloc: Global, x: &[i128]) -> Result<Vec<i128>, AllocError>
        requires { IsPoint self.now x.now }
        ensures rows { IfOk result (λ rows. rows.items ≡ linear_residual_of self.now x.now) }
        ensures small { IfOk result (λ rows. (l : ℕ) → nat_abs (part rows.items l) ≤ 2 ^ 85) }
    {
        let mut rows = self.constants(alloc)?;
        self.rows.add_products(&mut rows, x);
        Ok(rows)
    }

    // The matrix of which the first inverse is made, by rows of non-zeros.
    fn start(&self, alloc: Global) -> Result<Matrix<'_>, AllocError>
        ensures { IfOk result (λ m. IsMatrix self.now.size m (start_amount self.now)) }
    {
        self.rows.start(alloc)
    }

    /// The matrix of which the first inverse is made, by its entries that aren't 0, in units of 2^-40.
    ///
    /// # Errors
    /// `AllocError` where the memory for the entries is refused.
    pub fn sparse_start(&self, alloc: Global) -> Result<SparseRows, AllocError>
        ensures entries { IfOk result (λ m. m ≡ start_matrix_of self.now) }
        ensures small { IfOk result (λ m. EntriesWithin m (2 ^ 100)) }
    {
        self.start(alloc)?.to_rows(alloc)
    }

    /// The rounded Jacobian at the point x by rows of non-zeros, in units of 2^-40: in each row the columns in which a contribution or a
    /// slope of a part load stands, with how many there are.
    ///
    /// # Errors
    /// `AllocError` where the memory for the cells is refused.
    pub fn jacobian(&self, alloc: Global, x: &[i128]) -> Result<Matrix<'_>, AllocError>
        requires { IsPoint self.now x.now }
        ensures { IfOk result (λ m. IsMatrix self.now.size m (jacobian_amount self.now x.now)) }
    {
        self.rows.jacobian(alloc, x)
    }

    /// The rounded Jacobian at the point x, by its entries that aren't 0, in units of 2^-40.
    ///
    /// # Errors
    /// `AllocError` where the memory for the entries is refused.
    pub fn sparse_jacobian(&self, alloc: Global, x: &[i128]) -> Result<SparseRows, AllocError>
        requires { IsPoint self.now x.now }
        ensures entries { IfOk result (λ m. m ≡ jacobian_of self.now x.now) }
        ensures small { IfOk result (λ m. EntriesWithin m (2 ^ 100)) }
    {
        self.jacobian(alloc, x)?.to_rows(alloc)
    }

    /// The weight of each unknown at the point x, in whole micro-units: from 10^6 to 2^66.
    ///
    /// # Errors
    /// `AllocError` where the memory for the weights is refused.
    pub fn weights(&self, alloc: Global, x: &[i128]) -> Result<Vec<i128>, AllocError>
        requires { IsPoint self.now x.now }
        ensures weights { IfOk result (λ w. w.items ≡ weights_of self.now x.now) }
        ensures range { IfOk result (λ w. (l : ℕ) → l < self.now.size → (pos (10 ^ 6) ≤ℤ part w.items l) × (part w.items l ≤ℤ pos (2 ^ 66))) }
    {
        weights(alloc, &self.layout, self.draw, x)
    }
}
