// What a network consists of, kept.
ghost use Rattle.std.specs.Prelude.{◌≡◌, ◌<◌, ◌≤◌, ◌^◌, ◌↔◌, IfOk, IsTrue};
ghost use Rattle.fd_equations.specs.Copies.{copy_bytes};

use crate::network::Network;
use fd_pattern::{Constant, Layout, LoadAt, LoadPhase, Term};
use std::alloc::{AllocError, Global};
use std::marker::Model;

// The bytes of a constant, a contribution and a part load.
const CONSTANT_BYTES: u64 = 32;

const TERM_BYTES: u64 = 48;

const LOAD_BYTES: u64 = 128;

/// What a network consists of: how many unknowns of each kind it has, its constants, contributions and part loads in order, and
/// what is drawn. It outlives the network, and tells whether another one is the same.
#[derive(Drop)]
pub struct NetworkCopy {
    layout: Layout,
    constants: Vec<Constant>,
    terms: Vec<Term>,
    loads: Vec<LoadAt>,
    draw: u128,
}

impl Model for NetworkCopy {
    ghost use Rattle.std.specs.Prelude.{◌+◌, ◌*◌, ◌<◌, ◌≤◌, ◌^◌, length};
    ghost use Rattle.fd_pattern.specs.fd_system.System.{stamp_with};
    ghost use Rattle.fd_pattern.specs.Views.{NetworkView, network_of};

    ghost Value = { NetworkView };

    ghost view = { λ n. network_of n.layout (stamp_with n.constants.items n.terms.items n.loads.items n.draw) };

    ghost invariant = { λ n. (2 * (n.layout.nodes + n.layout.branches) + n.layout.magnitudes ≤ 2 ^ 11)
        × ((length n.constants.items < 2 ^ 24) × ((length n.terms.items < 2 ^ 24) × (length n.loads.items < 2 ^ 21))) };
}

impl NetworkCopy {
    /// A copy of what a network consists of.
    ///
    /// # Errors
    /// `AllocError` where the memory for its lists is refused.
    pub fn of(alloc: Global, net: &Network) -> Result<NetworkCopy, AllocError>
        ensures { IfOk result (λ n. n ≡ net.now) }
    {
        // read for how much a network has at most
        let _size = net.size();
        Ok(NetworkCopy {
            layout: net.layout(),
            constants: Vec::from_slice(alloc, net.summands())?,
            terms: Vec::from_slice(alloc, net.terms())?,
            loads: Vec::from_slice(alloc, net.loads())?,
            draw: net.draw(),
        })
    }

    /// Whether a network is the same: as many unknowns of each kind, and the same constants, contributions and part loads in the
    /// same order, and the same draw. The draw is compared first.
    pub fn is(&self, net: &Network) -> bool
        ensures { IsTrue result ↔ (self.now ≡ net.now) }
    {
        self.draw == net.draw()
            && self.layout == net.layout()
            && same_loads(&self.loads, net.loads())
            && same_constants(&self.constants, net.summands())
            && same_terms(&self.terms, net.terms())
    }

    /// How many real unknowns it has.
    pub fn size(&self) -> u32
        ensures size { result ≡ self.now.size }
        ensures small { result ≤ 2 ^ 11 }
    {
        2 * (self.layout.nodes + self.layout.branches) + self.layout.magnitudes
    }

    /// How many bytes its lists take: 32 for a constant, 48 for a contribution and 128 for a part load.
    pub fn bytes(&self) -> u64
        ensures bytes { result ≡ copy_bytes self.now }
        ensures few { result < 2 ^ 31 }
    {
        CONSTANT_BYTES * self.constants.len() as u64
            + TERM_BYTES * self.terms.len() as u64
            + LOAD_BYTES * self.loads.len() as u64
    }
}

fn same_terms(a: &[Term], b: &[Term]) -> bool
    ensures { IsTrue result ↔ (a.now ≡ b.now) }
{
    if a.len() != b.len() {
        return false;
    }
    for k in 0..a.len() {
        if !is_same_term(&a[k], &b[k]) {
            return false;
        }
    }
    true
}

fn is_same_term(a: &Term, b: &Term) -> bool
    ensures { IsTrue result ↔ (a.now ≡ b.now) }
{
    a.num == b.num && a.den == b.den && a.row == b.row && a.col == b.col
}

fn same_constants(a: &[Constant], b: &[Constant]) -> bool
    ensures { IsTrue result ↔ (a.now ≡ b.now) }
{
    if a.len() != b.len() {
        return false;
    }
    for k in 0..a.len() {
        if !is_same_constant(&a[k], &b[k]) {
            return false;
        }
    }
    true
}

fn is_same_constant(a: &Constant, b: &Constant) -> bool
    ensures { IsTrue result ↔ (a.now ≡ b.now) }
{
    a.value == b.value && a.row == b.row
}

fn same_loads(a: &[LoadAt], b: &[LoadAt]) -> bool
    ensures { IsTrue result ↔ (a.now ≡ b.now) }
{
    if a.len() != b.len() {
        return false;
    }
    for k in 0..a.len() {
        if !is_same_load(&a[k], &b[k]) {
            return false;
        }
    }
    true
}

fn is_same_load(a: &LoadAt, b: &LoadAt) -> bool
    ensures { IsTrue result ↔ (a.now ≡ b.now) }
{
    is_same_phase(&a.load, &b.load)
        && a.first == b.first
        && a.second == b.second
        && a.magnitude == b.magnitude
}

fn is_same_phase(a: &LoadPhase, b: &LoadPhase) -> bool
    ensures { IsTrue result ↔ (a.now ≡ b.now) }
{
    a.p == b.p
        && a.q == b.q
        && a.vn == b.vn
        && a.vlo == b.vlo
        && a.vhi == b.vhi
        && a.model == b.model
}
