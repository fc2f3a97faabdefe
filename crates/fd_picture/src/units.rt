// The voltages of nodes, in the unit of their page.
ghost use Rattle.std.specs.Prelude.{◌≡◌, ◌<◌, ◌^◌, ◌*◌, IfOk};
ghost use Rattle.fd_exact.specs.RootThree.{root_three};
ghost use Rattle.fd_picture.specs.Bases.{base_of};
ghost use Rattle.fd_picture.specs.Units.{have_bases, is_far, is_per_unit, micro_base, per_unit_at, per_unit_span, span_in_range, span_of};

use crate::report::{Base, Node};
use crate::strips::Strip;
use fd_exact::ROOT_THREE;
use std::alloc::{AllocError, Global};
use std::collections::HashMap;
use std::marker::Model;

// Millionths of a base to ground, below and above which a node is far from one per unit.
const LEAST_NEAR: u64 = 500_000;

const GREATEST_NEAR: u64 = 1_400_000;

/// The last voltage base of each bus. Contracts see all bases in order.
#[derive(Drop)]
pub(crate) struct BaseTable<'a> {
    all: &'a [Base],
    last: HashMap<&'a [u8], u64>,
}

impl<'a> Model for BaseTable<'a> {
    ghost use Rattle.std.specs.Prelude.{List};
    ghost use Rattle.fd_picture.specs.Bases.{HoldsLast};
    ghost use Rattle.fd_picture.specs.declared.report.Base.{Base};

    ghost Value = { List Base };

    ghost view = { λ t. t.all.now };

    ghost invariant = { λ t. HoldsLast t.last t.all.now };
}

impl<'a> BaseTable<'a> {
    /// The table of these bases.
    pub(crate) fn new(alloc: Global, bases: &'a [Base]) -> Result<BaseTable<'a>, AllocError>
        ensures { IfOk result (λ table. table ≡ bases.now) }
    {
        let mut last: HashMap<&'a [u8], u64> = HashMap::new(alloc);
        for base in bases {
            last.insert(base.bus.as_slice(), base.micro_kilovolts)?;
        }
        Ok(BaseTable { all: bases, last })
    }

    // The last base of a bus, in units of 10^-6 kV.
    fn get(&self, bus: &[u8]) -> Option<u64>
        ensures { result ≡ base_of self.now bus.now }
    {
        self.last.get(bus).copied()
    }
}

/// From a low to a high, in microvolts or in millionths of a base.
#[derive(Clone, Copy, Debug, PartialEq, Eq)]
pub struct Span {
    pub low: u64,
    pub high: u64,
}

// A millionth of a base, in microvolts times root three and in units of 10^-15.
fn micro_base(base: u64) -> u128
    ensures value { result ≡ micro_base base }
    ensures most { result < 2 ^ 104 }
{
    u128::from(base) * 1_000_000_000_000
}

// So many, times root three in units of 10^-15.
fn by_root_three(value: u64) -> u128
    ensures value { result ≡ value * root_three }
    ensures most { result < 2 ^ 115 }
{
    u128::from(value) * ROOT_THREE
}

fn span_in_range(low: u128, high: u128) -> Option<Span>
    ensures { result ≡ span_in_range low high }
{
    match (u64::try_from(low), u64::try_from(high)) {
        (Ok(low), Ok(high)) => Some(Span { low, high }),
        _ => None,
    }
}

// The low of a node rounded down and its high rounded up, in millionths of its base to ground.
#[tactic(auto, unfolding(crate::specs::Units::per_unit_span))]
fn per_unit_span(base: u64, node: &Node) -> Option<Span>
    ensures { result ≡ per_unit_span base node.now }
{
    let one = micro_base(base);
    if one == 0 {
        return None;
    }
    let low = by_root_three(node.low);
    let high = by_root_three(node.high);
    span_in_range(low / one, (high + (one - 1)) / one)
}

fn per_unit_at(bases: &BaseTable, node: &Node) -> Option<Span>
    ensures { result ≡ per_unit_at bases.now node.now }
{
    match bases.get(node.bus.as_slice()) {
        Some(base) => per_unit_span(base, node),
        None => None,
    }
}

// Whether each of these nodes has a base.
#[tactic(auto, unfolding(crate::specs::Units::have_bases))]
fn have_bases(bases: &BaseTable, nodes: &[Node]) -> bool
    ensures { result ≡ have_bases bases.now nodes.now }
{
    for node in nodes {
        if per_unit_at(bases, node).is_none() {
            return false;
        }
    }
    true
}

/// Whether a page is per unit: where each node of its strips has a base. Else it is in volts.
#[tactic(auto, unfolding(crate::specs::Units::is_per_unit))]
pub(crate) fn is_per_unit(bases: &BaseTable, strips: &[Strip]) -> bool
    ensures { result ≡ is_per_unit bases.now strips.now }
{
    for strip in strips {
        if !have_bases(bases, strip.nodes()) {
            return false;
        }
    }
    true
}

/// The voltage of a node, in millionths of its base to ground, or else in microvolts.
#[tactic(auto, unfolding(crate::specs::Units::span_of))]
pub(crate) fn span_of(bases: &BaseTable, per_unit: bool, node: &Node) -> Span
    ensures { result ≡ span_of bases.now per_unit node.now }
{
    let volts = Span {
        low: node.low,
        high: node.high,
    };
    if per_unit {
        per_unit_at(bases, node).unwrap_or(volts)
    } else {
        volts
    }
}

/// Whether a node is surely below 0.5 or above 1.4 per unit.
pub(crate) fn is_far(per_unit: bool, span: Span) -> bool
    ensures { result ≡ is_far per_unit span }
{
    per_unit && (span.high < LEAST_NEAR || span.low > GREATEST_NEAR)
}
