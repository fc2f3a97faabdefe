// The ladder of a circuit.
ghost use Rattle.std.specs.Prelude.{◌≡◌, ◌<◌, ◌≤◌, ◌*◌, ◌+◌, ◌++◌, ◌∷◌, length, map, slice_get, IfOk, OnOk, All};
ghost use Rattle.fd_network.specs.dss_layout.Layout.{complex_count, ends_of, layout_of};
ghost use Rattle.fd_network.specs.dss_layout.Limits.{most_complex};
ghost use Rattle.fd_network.specs.dss_ready.Ready.{HasPassed};
ghost use Rattle.fd_network.specs.Built.{IsBuiltOf};
ghost use Rattle.fd_network.specs.fd_devices.Data.{cap_data_of};
ghost use Rattle.fd_network.specs.fd_devices.Standing.{IsReadyAt};
ghost use Rattle.fd_ladder.specs.Radial.{order_of};
ghost use Rattle.fd_series.specs.fd_rungs.Bounds.{IsLadder, IsRung, branches_in, ladder_in as ladder_view};
ghost use Rattle.fd_series.specs.fd_rungs.Branches.{IsShunt};
ghost use Rattle.fd_sweep.specs.Ladders.{AreTapped, IsElementAt, IsTapped, branches_of, branches_where, ladder_of, rungs_from, shunts_from, shunts_of, taps_at, taps_from};

use crate::positions::{first_state, states_after, taps_of};
use crate::reached::{are_reached, reach_all};
use fd_network::{Circuit, Element, Network, Positions, xfmr_data};
use fd_series::{
    CapData, Capacitor, Ends, Ladder, Rung, Shunt, TapPair, add_bank_shunts, add_charges, conn_of,
    scripted_line, scripted_source, transformer_rung,
};
use std::alloc::{AllocError, Global};

fn bank_data(bank: &Capacitor) -> CapData
    ensures { result ≡ cap_data_of bank.now }
{
    CapData {
        phases: bank.phases,
        conn: conn_of(bank.conn),
        kvar: bank.kvar,
        kv: bank.kv,
    }
}

// Where the element of this number stands.
fn ends_at(
    alloc: Global,
    circuit: &Circuit,
    net: &Network,
    place: usize,
    element: &Element,
) -> Result<Ends, AllocError>
    requires built { IsBuiltOf net.now circuit.now }
    requires here { IsElementAt circuit.now.elements place element.now }
    requires inside { place < length circuit.now.elements }
    ensures { IfOk result (λ at. at ≡ ends_of (layout_of circuit.now.elements) place element.now) }
{
    net.ends_of(alloc, circuit, place)
}

// The branches of the element of this number.
fn branches_of(
    alloc: Global,
    circuit: &Circuit,
    net: &Network,
    place: usize,
    element: &Element,
    taps: TapPair,
    reached: &[bool],
) -> Result<Rung, AllocError>
    requires built { IsBuiltOf net.now circuit.now }
    requires here { IsElementAt circuit.now.elements place element.now }
    requires inside { place < length circuit.now.elements }
    requires few { complex_count (layout_of circuit.now.elements) ≤ most_complex }
    requires ready { IsReadyAt (layout_of circuit.now.elements) place element.now }
    requires taps { IsTapped element.now taps }
    ensures value { IfOk result (λ rung. rung.branches.items
        ≡ branches_of (layout_of circuit.now.elements) circuit.now.options.defaultbasefrequency place element.now taps reached.now) }
    ensures small { IfOk result IsRung }
{
    let hertz = circuit.options().defaultbasefrequency;
    match element {
        Element::Vsource(source) => {
            let at = ends_at(alloc, circuit, net, place, element)?;
            scripted_source(alloc, source, &at)
        }
        Element::Line(line) => {
            let at = ends_at(alloc, circuit, net, place, element)?;
            scripted_line(alloc, line, hertz, &at, are_reached(reached, &at.first))
        }
        Element::Transformer(xfmr) => {
            let at = ends_at(alloc, circuit, net, place, element)?;
            transformer_rung(alloc, &xfmr_data(xfmr), taps, &at)
        }
        _ => Ok(Rung {
            branches: Vec::new(alloc),
        }),
    }
}

fn taps_at(taps: &[TapPair], place: usize) -> TapPair
    ensures { result ≡ taps_at taps.now place }
{
    match taps.get(place) {
        Some(pair) => *pair,
        None => TapPair {
            first: 0,
            second: 0,
        },
    }
}

// The branches of the element of this number, where each Transformer has its taps. A number past the last has none.
fn rung_at(
    alloc: Global,
    circuit: &Circuit,
    net: &Network,
    taps: &[TapPair],
    reached: &[bool],
    number: u32,
) -> Result<Rung, AllocError>
    requires ready { HasPassed circuit.now }
    requires built { IsBuiltOf net.now circuit.now }
    requires taps { AreTapped circuit.now.elements taps.now }
    ensures value { IfOk result (λ rung. rung.branches.items
        ≡ branches_where (layout_of circuit.now.elements) circuit.now.options.defaultbasefrequency number taps.now reached.now
        (slice_get circuit.now.elements number)) }
    ensures small { IfOk result IsRung }
{
    let place = number as usize;
    match circuit.elements().as_slice().get_index(place) {
        Some((_, element)) => {
            branches_of(
                alloc,
                circuit,
                net,
                place,
                element,
                taps_at(taps, place),
                reached,
            )
        }
        None => Ok(Rung {
            branches: Vec::new(alloc),
        }),
    }
}

// The rungs of these elements in order.
fn push_rungs(
    alloc: Global,
    rungs: &mut Vec<Rung>,
    reached: &mut [bool],
    circuit: &Circuit,
    net: &Network,
    taps: &[TapPair],
    order: &[u32],
) -> Result<(), AllocError>
    requires ready { HasPassed circuit.now }
    requires built { IsBuiltOf net.now circuit.now }
    requires taps { AreTapped circuit.now.elements taps.now }
    requires rungs { All IsRung rungs.old.items }
    ensures value { OnOk result (map branches_in rungs.new.items ≡ map branches_in rungs.old.items
        ++ rungs_from (layout_of circuit.now.elements) circuit.now.options.defaultbasefrequency circuit.now.elements taps.now reached.old order.now) }
    ensures small { OnOk result (All IsRung rungs.new.items) }
    ensures few { OnOk result (length rungs.new.items ≡ length rungs.old.items + length order.now) }
{
    for number in order {
        let rung = rung_at(alloc, circuit, net, taps, reached, *number)?;
        reach_all(reached, &rung.branches);
        rungs.push(rung)?;
    }
    Ok(())
}

// The shunts of the element of this number.
fn add_shunts(
    alloc: Global,
    shunts: &mut Vec<Shunt>,
    circuit: &Circuit,
    net: &Network,
    place: usize,
    element: &Element,
    closed: bool,
) -> Result<(), AllocError>
    requires built { IsBuiltOf net.now circuit.now }
    requires here { IsElementAt circuit.now.elements place element.now }
    requires inside { place < length circuit.now.elements }
    requires few { complex_count (layout_of circuit.now.elements) ≤ most_complex }
    requires ready { IsReadyAt (layout_of circuit.now.elements) place element.now }
    requires shunts { All IsShunt shunts.old.items }
    ensures value { OnOk result (shunts.new.items ≡ shunts.old.items
        ++ shunts_of (layout_of circuit.now.elements) circuit.now.options.defaultbasefrequency place element.now closed) }
    ensures small { OnOk result (All IsShunt shunts.new.items) }
    ensures few { OnOk result (length shunts.new.items ≤ length shunts.old.items + 18) }
{
    let hertz = circuit.options().defaultbasefrequency;
    match element {
        Element::Line(line) => {
            let at = ends_at(alloc, circuit, net, place, element)?;
            add_charges(alloc, shunts, line, hertz, &at)
        }
        Element::Capacitor(bank) => {
            let at = ends_at(alloc, circuit, net, place, element)?;
            add_bank_shunts(shunts, &bank_data(bank), closed, &at)
        }
        _ => Ok(()),
    }
}

// The shunts of all elements, with the states of their banks.
fn shunts_in(
    alloc: Global,
    circuit: &Circuit,
    net: &Network,
    closed: &[bool],
) -> Result<Vec<Shunt>, AllocError>
    requires ready { HasPassed circuit.now }
    requires built { IsBuiltOf net.now circuit.now }
    ensures value { IfOk result (λ shunts. shunts.items
        ≡ shunts_from (layout_of circuit.now.elements) circuit.now.options.defaultbasefrequency 0 circuit.now.elements closed.now) }
    ensures small { IfOk result (λ shunts. All IsShunt shunts.items) }
    ensures few { IfOk result (λ shunts. length shunts.items ≤ 18 * length circuit.now.elements) }
{
    let mut shunts = Vec::new(alloc);
    let mut left = closed;
    let entries = circuit.elements().as_slice();
    for place in 0..entries.len() {
        let (_, element) = entries.get_index(place).unwrap();
        add_shunts(
            alloc,
            &mut shunts,
            circuit,
            net,
            place,
            element,
            first_state(left),
        )?;
        left = states_after(left, element);
    }
    Ok(shunts)
}

// The number of the source, and then those of an order.
fn source_first(alloc: Global, order: &[u32]) -> Result<Vec<u32>, AllocError>
    ensures { IfOk result (λ numbers. numbers.items ≡ 0 ∷ order.now) }
{
    let mut numbers = Vec::new(alloc);
    numbers.push(0)?;
    numbers.extend_from_slice(order)?;
    Ok(numbers)
}

/// The ladder of a radial circuit at its positions, where this is its order: the source first, with no node reached.
pub fn ladder_in(
    alloc: Global,
    circuit: &Circuit,
    net: &Network,
    at: &Positions,
    order: &[u32],
) -> Result<Ladder, AllocError>
    requires ready { HasPassed circuit.now }
    requires built { IsBuiltOf net.now circuit.now }
    requires taps { AreTapped circuit.now.elements (taps_from circuit.now.elements at.now.taps) }
    requires order { order.now ≡ order_of circuit.now.elements }
    ensures value { IfOk result (λ ladder. ladder_view ladder ≡ ladder_of circuit.now at.now) }
    ensures small { IfOk result IsLadder }
{
    let taps = taps_of(alloc, circuit.elements(), at.taps.as_slice())?;
    let mut reached = vec![in alloc; false; net.layout().nodes().len()]?;
    let numbers = source_first(alloc, order)?;
    let mut rungs = Vec::new(alloc);
    push_rungs(
        alloc,
        &mut rungs,
        &mut reached,
        circuit,
        net,
        &taps,
        &numbers,
    )?;
    Ok(Ladder {
        rungs,
        shunts: shunts_in(alloc, circuit, net, at.closed.as_slice())?,
    })
}
