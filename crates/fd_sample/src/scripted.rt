// The probes of controls by their settings in the script.
ghost use Rattle.std.specs.Prelude.{◌≡◌, ℕ, ◌+◌, ◌-◌, ◌*◌, ◌/◌, ◌^◌, ◌<◌, ◌≤◌, ◌==◌, pos, ◌≤ℤ◌, nat_abs, if◌then◌else◌};
ghost use Rattle.fd_network.specs.dss_model.InRange.{CapControlInRange, LineInRange, RegControlInRange, TransformerInRange, WindingInRange};
ghost use Rattle.fd_network.specs.fd_system.Terminals.{node_of};
ghost use Rattle.fd_network.specs.fd_xfmr.Leakage.{IsXfmr};
ghost use Rattle.fd_network.specs.fd_xfmr.Transformer.{IsBetween};
ghost use Rattle.fd_network.specs.fd_xfmr.Windings.{first_volts as first, second_volts as second};
ghost use Rattle.fd_sample.specs.Banks.{IsCapProbe};
ghost use Rattle.fd_sample.specs.Regulators.{AreRegSettings, IsRegProbe};
ghost use Rattle.fd_sample.specs.Scripted.{IsLineAt, IsPhase, IsXfmrAt, cap_probe, line_end as end_of, measured_by, phase_index as index_of, reg_probe, side_of, step_of, winding_of};

use crate::probe::{CapProbe, LineEnd, Measured, RegProbe};
use fd_network::{
    CapControl, ControlQuantity, Line, NodePair, PhaseAt, RegControl, Transformer, Winding,
    XfmrData, phase_at, phase_volts, xfmr_data,
};
use fd_regctl::{Ends, NodeAt, NodesAt};

/// The probe of a regulator's control, whose transformer has this number among the transformers and stands at these
/// ends. Takes no memory.
pub fn regulator_probe(
    control: &RegControl,
    xfmr: &Transformer,
    at: &Ends,
    transformer: u32,
) -> RegProbe
    requires control { RegControlInRange control.now }
    requires xfmr { TransformerInRange xfmr.now }
    requires first_step { xfmr.now.first.mintap + xfmr.now.first.numtaps ≤ xfmr.now.first.maxtap }
    requires second_step { xfmr.now.second.mintap + xfmr.now.second.numtaps ≤ xfmr.now.second.maxtap }
    requires phase { IsPhase xfmr.now.phases control.now.ptphase }
    requires at { IsBetween xfmr.now.phases at.now }
    ensures probe { result ≡ reg_probe control.now xfmr.now at.now transformer }
    ensures settings { AreRegSettings result }
    ensures places { (n places : ℕ) → IsXfmrAt n places xfmr.now.phases at.now → IsRegProbe places result }
{
    let data = xfmr_data(xfmr);
    let k = phase_index(control.ptphase);
    let is_second = control.winding == 2;
    let winding = own_winding(xfmr, is_second);
    RegProbe {
        transformer,
        is_second,
        nodes: own_nodes(&phase_at(&data, at, k), is_second),
        branch: at.branch + k,
        first_volts: first_volts(&data),
        second_volts: second_volts(&data),
        tap_step: tap_step(winding),
        min_tap: winding.mintap,
        max_tap: winding.maxtap,
        vreg: natural(control.vreg),
        band: natural(control.band),
        ptratio: natural(control.ptratio),
        ctprim: natural(control.ctprim),
        r: control.r,
        x: control.x,
        maxtapchange: control.maxtapchange,
        delay: control.delay as u64,
        tapdelay: control.tapdelay as u64,
    }
}

/// The probe of a bank's control, whose bank has this number among the banks and whose line stands at these ends. Takes
/// no memory.
pub fn bank_probe(control: &CapControl, line: &Line, at: &Ends, bank: u32) -> CapProbe
    requires control { CapControlInRange control.now }
    requires line { LineInRange line.now }
    requires voltage_phase { IsPhase line.now.phases control.now.ptphase }
    requires current_phase { IsPhase line.now.phases control.now.ctphase }
    requires branch { at.now.branch < 2 ^ 30 }
    ensures probe { result ≡ cap_probe control.now line.now at.now bank }
    ensures places { (n places : ℕ) → IsLineAt n places line.now.phases at.now → IsCapProbe places result }
{
    CapProbe {
        bank,
        measured: measured(control, line, at),
        on: control.onsetting,
        off: control.offsetting,
        delay: control.delay as u64,
        delayoff: control.delayoff as u64,
        deadtime: control.deadtime as u64,
    }
}

// What a bank's control measures.
fn measured(control: &CapControl, line: &Line, at: &Ends) -> Measured
    requires control { CapControlInRange control.now }
    requires voltage_phase { IsPhase line.now.phases control.now.ptphase }
    requires current_phase { IsPhase line.now.phases control.now.ctphase }
    requires few { line.now.phases ≤ 3 }
    requires branch { at.now.branch < 2 ^ 30 }
    ensures { result ≡ measured_by control.now.kind control.now line.now at.now }
{
    let is_second = control.terminal == 2;
    match control.kind {
        ControlQuantity::Voltage => Measured::Voltage {
            node: node_at(side(at, is_second), phase_index(control.ptphase)),
            ratio: natural(control.ptratio),
        },
        ControlQuantity::Current => Measured::Current {
            branch: at.branch + phase_index(control.ctphase),
            ratio: natural(control.ctratio),
        },
        ControlQuantity::Kvar => Measured::Kvar(line_end(line, at, is_second)),
    }
}

// An end of a line.
fn line_end(line: &Line, at: &Ends, is_second: bool) -> LineEnd
    ensures { result ≡ end_of is_second line.now at.now }
{
    let nodes = side(at, is_second);
    LineEnd {
        phases: line.phases,
        nodes: [node_at(nodes, 0), node_at(nodes, 1), node_at(nodes, 2)],
        branch: at.branch,
        is_second,
    }
}

fn side(at: &Ends, is_second: bool) -> &NodesAt
    ensures { result.now ≡ side_of is_second at.now }
{
    if is_second { &at.second } else { &at.first }
}

// The node of a phase; ground where there is none.
fn node_at(nodes: &NodesAt, k: u32) -> NodeAt
    ensures { result ≡ node_of nodes.now k }
{
    match nodes.as_slice().get(k as usize) {
        Some(node) => *node,
        None => NodeAt::Ground,
    }
}

// A number of the script as a natural one.
fn natural(n: i128) -> u128
    ensures { result ≡ nat_abs n }
{
    n.unsigned_abs()
}

// The place of a phase, which is counted from 1.
fn phase_index(phase: i32) -> u32
    requires { pos 1 ≤ℤ phase }
    ensures value { result ≡ index_of phase }
    ensures below { (phases : ℕ) → phase ≤ℤ pos phases → result < phases }
{
    phase.unsigned_abs() - 1
}

fn own_winding(xfmr: &Transformer, is_second: bool) -> &Winding
    requires { TransformerInRange xfmr.now }
    ensures winding { result.now ≡ winding_of is_second xfmr.now }
    ensures within { WindingInRange result.now }
{
    if is_second { &xfmr.second } else { &xfmr.first }
}

fn own_nodes(phase: &PhaseAt, is_second: bool) -> NodePair
    ensures { result ≡ (if is_second then phase.now.winding2 else phase.now.winding1) }
{
    if is_second {
        phase.winding2
    } else {
        phase.winding1
    }
}

// One step of the tap in whole 10^-5, rounded down.
fn tap_step(winding: &Winding) -> u32
    requires winding { WindingInRange winding.now }
    requires step { winding.now.mintap + winding.now.numtaps ≤ winding.now.maxtap }
    ensures value { result ≡ step_of winding.now }
    ensures least { 1 ≤ result }
    ensures most { result ≤ 200000 }
{
    (winding.maxtap - winding.mintap) / winding.numtaps
}

// The nominal voltages in microvolts.
fn first_volts(xfmr: &XfmrData) -> u128
    requires { IsXfmr xfmr.now }
    ensures value { result ≡ nat_abs (first xfmr.now) }
    ensures least { 1 ≤ result }
    ensures most { result ≤ 10 ^ 12 }
{
    phase_volts(xfmr.phases, xfmr.conn[0], xfmr.kv[0]).unsigned_abs()
}

fn second_volts(xfmr: &XfmrData) -> u128
    requires { IsXfmr xfmr.now }
    ensures value { result ≡ nat_abs (second xfmr.now) }
    ensures most { result ≤ 10 ^ 12 }
{
    phase_volts(xfmr.phases, xfmr.conn[1], xfmr.kv[1]).unsigned_abs()
}
