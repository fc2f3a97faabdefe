// The part loads of a load's phases, their contributions and what they draw.
ghost use Rattle.std.specs.Prelude.{◌≡◌, ◌+◌, ◌*◌, ◌<◌, ◌≤◌, ◌++◌, ◌^◌, ◌↔◌, [], pos, neg_ℤ, ◌*ℤ◌, nat_abs, IsTrue, All, length, vec_capacity};
ghost use Rattle.std.specs.List.{flat_map};
ghost use Rattle.dss_layout.specs.fd_exact.Sums.{list_n};
ghost use Rattle.dss_layout.specs.dss_model.InRange.{LoadInRange};
ghost use Rattle.fd_xfmr.specs.fd_system.Contributions.{IsDivided};
ghost use Rattle.fd_xfmr.specs.fd_system.Loads.{draw_of as phase_draw, impedance_list, linear_list};
ghost use Rattle.fd_xfmr.specs.fd_system.Terminals.{IsSide, node_count};
ghost use Rattle.fd_elements.specs.fd_load.Current.{IsPast};
ghost use Rattle.fd_elements.specs.fd_load.Zip.{IsPart};
ghost use Rattle.fd_devices.specs.Scripted.{magnitude_place as place_of_magnitude, part_at as part_by_place, phase_loads, phases_of};
ghost use Rattle.fd_devices.specs.Building.{IsModest, IsUsable};

use dss_layout::{Load, LoadModel, NodesAt, Term};
use fd_elements::{LoadPower, conn_of, is_load_past, load_phase, sole_model, zip_parts, zip_phase};
use fd_xfmr::{LoadAt, LoadPhase, NodePair, add_shunt, phase_pair, phase_pairs};

// powers are in 10^-3 VA and voltages in microvolts, so a power over a voltage is in 10^9 microamperes
const PER_UNIT: i128 = 1_000_000_000;

/// Puts the part loads of a load's phases at these nodes, with the powers of its phases, into an empty list with room
/// for nine. Takes no memory.
pub fn load_phases_into(
    load: &Load,
    nodes: &NodesAt,
    magnitude: u32,
    powers: &[LoadPower],
    into: &mut Vec<LoadAt>,
)
    requires range { LoadInRange load.now }
    requires nodes { IsSide (node_count load.now.phases) nodes.now }
    requires magnitude { magnitude < 2 ^ 31 }
    requires powers { length powers.now ≡ load.now.phases }
    requires modest { All IsModest powers.now }
    requires empty { into.old.items ≡ [] }
    requires room { 9 ≤ vec_capacity into.old }
    ensures phases { into.new.items ≡ phases_of load.now nodes.now magnitude powers.now }
    ensures usable { All IsUsable into.new.items }
    ensures capacity { vec_capacity into.new ≡ vec_capacity into.old }
{
    for k in 0..load.phases {
        add_phase(into, load, nodes, magnitude, powers, k);
    }
}

// Adds the part loads of phase k.
fn add_phase(
    into: &mut Vec<LoadAt>,
    load: &Load,
    nodes: &NodesAt,
    magnitude: u32,
    powers: &[LoadPower],
    k: u32,
)
    requires range { LoadInRange load.now }
    requires nodes { IsSide (node_count load.now.phases) nodes.now }
    requires magnitude { magnitude < 2 ^ 31 }
    requires powers { length powers.now ≡ load.now.phases }
    requires modest { All IsModest powers.now }
    requires k_in { k < load.now.phases }
    requires usable { All IsUsable into.old.items }
    requires room { length into.old.items + 3 ≤ vec_capacity into.old }
    ensures items { into.new.items ≡ into.old.items ++ phase_loads load.now nodes.now magnitude powers.now k }
    ensures usable { All IsUsable into.new.items }
    ensures few { length into.new.items ≤ length into.old.items + 3 }
    ensures capacity { vec_capacity into.new ≡ vec_capacity into.old }
{
    let power = &powers[k as usize];
    match sole_model(load.model) {
        Some(model) => {
            let part = load_phase(load, model, power);
            into.push_reserved(part_at(load, nodes, magnitude, k, part));
        }
        None => {
            let [impedance, current, power] = zip_parts(&zip_phase(load, power));
            into.push_reserved(part_at(load, nodes, magnitude, k, impedance));
            into.push_reserved(part_at(load, nodes, magnitude, k, current));
            into.push_reserved(part_at(load, nodes, magnitude, k, power));
        }
    }
}

// A part load of phase k.
fn part_at(load: &Load, nodes: &NodesAt, magnitude: u32, k: u32, part: LoadPhase) -> LoadAt
    requires range { LoadInRange load.now }
    requires nodes { IsSide (node_count load.now.phases) nodes.now }
    requires magnitude { magnitude < 2 ^ 31 }
    requires k_in { k < load.now.phases }
    requires part { IsPart part }
    ensures value { result ≡ part_by_place load.now nodes.now magnitude k part }
    ensures usable { IsUsable result }
{
    let pair = phase_pair(nodes, phase_pairs(load.phases, conn_of(load.conn)), k);
    LoadAt {
        load: part,
        first: pair.first,
        second: pair.second,
        magnitude: magnitude_place(part.model, magnitude, k),
    }
}

// The place of the magnitude of phase k, which its part load of constant current has.
fn magnitude_place(model: LoadModel, first: u32, k: u32) -> Option<u32>
    requires { first + k < 2 ^ 32 }
    ensures { result ≡ place_of_magnitude model first k }
{
    if model.has_magnitude() {
        Some(first + k)
    } else {
        None
    }
}

/// Whether no phase is past its limit.
pub fn are_in_limits(phases: &[LoadAt]) -> bool
    requires { All IsUsable phases.now }
    ensures { IsTrue result ↔ All (λ u. ¬ (IsPast u.load)) phases.now }
{
    phases.iter().all(|phase| is_in_limit(phase))
}

fn is_in_limit(phase: &LoadAt) -> bool
    requires { IsUsable phase.now }
    ensures { IsTrue result ↔ ¬ (IsPast phase.now.load) }
{
    !is_load_past(&phase.load)
}

/// Puts the contributions of part loads of constant impedance into an empty list with room for 16 of each part load;
/// those of constant power or current have none. Takes no memory.
pub fn linear_terms_into(phases: &[LoadAt], into: &mut Vec<Term>)
    requires usable { All IsUsable phases.now }
    requires empty { into.old.items ≡ [] }
    requires room { 16 * length phases.now ≤ vec_capacity into.old }
    ensures terms { into.new.items ≡ flat_map linear_list phases.now }
    ensures divided { All IsDivided into.new.items }
    ensures few { length into.new.items ≤ 16 * length phases.now }
    ensures capacity { vec_capacity into.new ≡ vec_capacity into.old }
{
    for phase in phases {
        add_linear(into, phase);
    }
}

// The contributions of one phase.
fn add_linear(terms: &mut Vec<Term>, phase: &LoadAt)
    requires usable { IsUsable phase.now }
    requires room { length terms.old.items + 16 ≤ vec_capacity terms.old }
    ensures items { terms.new.items ≡ terms.old.items ++ linear_list phase.now }
    ensures capacity { vec_capacity terms.new ≡ vec_capacity terms.old }
    ensures few { length terms.new.items ≤ length terms.old.items + 16 }
{
    if phase.load.model.is_linear() {
        add_impedance(terms, phase);
    }
}

// The contributions of one phase of constant impedance: (P - j Q) / Vn^2 between its two nodes.
fn add_impedance(terms: &mut Vec<Term>, phase: &LoadAt)
    requires phase { IsUsable phase.now }
    requires room { length terms.old.items + 16 ≤ vec_capacity terms.old }
    ensures items { terms.new.items ≡ terms.old.items ++ impedance_list phase.now }
    ensures capacity { vec_capacity terms.new ≡ vec_capacity terms.old }
    ensures few { length terms.new.items ≤ length terms.old.items + 16 }
{
    let pair = NodePair {
        first: phase.first,
        second: phase.second,
    };
    add_shunt(
        terms,
        &pair,
        scaled(phase.load.p),
        opposite(scaled(phase.load.q)),
        square(phase.load.vn),
    );
}

// A power in 10^-9 microamperes at a microvolt.
fn scaled(power: i128) -> i128
    requires { nat_abs power ≤ 10 ^ 18 }
    ensures value { result ≡ pos (10 ^ 9) *ℤ power }
    ensures most { nat_abs result ≤ 10 ^ 27 }
{
    PER_UNIT * power
}

fn opposite(z: i128) -> i128
    requires { nat_abs z ≤ 10 ^ 27 }
    ensures value { result ≡ neg_ℤ z }
    ensures most { nat_abs result ≤ 10 ^ 27 }
{
    -z
}

// The square of a voltage.
fn square(volts: i128) -> i128
    requires { nat_abs volts ≤ 10 ^ 12 }
    ensures value { result ≡ volts *ℤ volts }
    ensures most { nat_abs result ≤ 10 ^ 24 }
{
    volts * volts
}

/// What the phases draw at nominal voltage, in whole microamperes.
pub fn total_draw(phases: &[LoadAt]) -> u128
    requires usable { All IsUsable phases.now }
    requires few { length phases.now ≤ 9 }
    ensures { result ≡ list_n phase_draw phases.now }
{
    let mut total = 0;
    for phase in phases {
        total += draw_of(phase);
    }
    total
}

// What a phase draws, rounded up.
fn draw_of(phase: &LoadAt) -> u128
    requires { IsUsable phase.now }
    ensures value { result ≡ phase_draw phase.now }
    ensures most { result ≤ 2 ^ 100 }
{
    let power = phase.load.p.unsigned_abs() + phase.load.q.unsigned_abs();
    let voltage = phase.load.vn.unsigned_abs();
    (power * PER_UNIT as u128 + (voltage - 1)) / voltage
}
