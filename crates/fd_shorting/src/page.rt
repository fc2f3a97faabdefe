// The report of a short circuit.
ghost use Rattle.std.specs.Prelude.{◌≡◌, ◌+◌, ◌*◌, ◌≤◌, ◌<◌, All, IfOk, length, slice_get};
ghost use Rattle.std.specs.Option.{option_map};
ghost use Rattle.fd_fault.specs.dss_layout.Layout.{first_branch, layout_of, size_of};
ghost use Rattle.fd_fault.specs.dss_ready.Ready.{HasPassed};
ghost use Rattle.fd_solving.specs.fd_network.Built.{IsBuiltOf};
ghost use Rattle.fd_solving.specs.fd_outside.Emitted.{pieces_of};
ghost use Rattle.fd_solving.specs.fd_outcome.Events.{settle};
ghost use Rattle.fd_solving.specs.fd_outcome.Pages.{solution_in};
ghost use Rattle.fd_solving.specs.fd_pages.Hours.{IsPrintable, round_in, rounds_in};
ghost use Rattle.fd_solving.specs.fd_pages.Rounds.{no_texts};
ghost use Rattle.fd_solving.specs.fd_report.Lines.{lines_of};
ghost use Rattle.fd_solving.specs.fd_report.Shorts.{short_records};
ghost use Rattle.fd_solving.specs.fd_report.Solutions.{IsOfSize};
ghost use Rattle.fd_solving.specs.fd_sample.Probes.{positions_in};
ghost use Rattle.fd_shorting.specs.Fitting.{AreBusesFit};
ghost use Rattle.fd_shorting.specs.Pages.{last_place, line_bus, rows_at, rows_of, short_report};

use fd_fault::{Bus, Element};
use fd_solving::{
    Certified, Circuit, Entry, Layout, Page, Positions, Record, Report, Round, Solution,
    SolvedHour, short_records,
};
use std::alloc::{AllocError, Global};

/// The report of the one solution of a short circuit, and a record for each phase of the fault behind it.
pub struct ShortReport;

// The records of the currents that leave the nodes of a bus into the element at this place, in a round.
fn bus_records(
    alloc: Global,
    layout: &Layout,
    place: usize,
    element: &Element,
    bus: &Bus,
    round: &Round,
) -> Result<Vec<Record>, AllocError>
    requires place { place < length layout.now.branches_before }
    requires fits { 2 * (first_branch layout.now place element.now + length bus.now.nodes) ≤ size_of layout.now }
    requires numbers { IsOfSize (size_of layout.now) (solution_in (round_in round.now)) }
    ensures { IfOk result (λ r. pieces_of r.items ≡ lines_of (short_records (solution_in (round_in round.now))
        (first_branch layout.now place element.now) bus.now.name bus.now.nodes)) }
{
    let certified = round.certified.as_ref();
    let solution = Solution::new(
        &certified.ball.centre,
        &certified.ball.radius,
        &certified.boxes,
        &certified.mismatch,
    );
    let first = layout.first_branch(place, element) as usize;
    let n = layout.size() as usize;
    short_records(alloc, &solution, n, first, &bus.name, bus.nodes.as_slice())
}

// The bus at which a line begins.
fn line_bus(element: &Element) -> Option<&Bus>
    ensures { option_map (λ bus. bus.now) result ≡ line_bus element.now }
{
    match element {
        Element::Line(line) => line.bus1.as_ref(),
        _ => None,
    }
}

// The records of the phases of an element that stands last.
fn element_records(
    alloc: Global,
    made: &SolvedHour<'_>,
    place: usize,
    element: &Element,
) -> Result<Vec<Record>, AllocError>
    requires network { IsBuiltOf made.now.net.now made.now.circuit.now }
    requires place { place < length made.now.circuit.now.elements }
    requires last { place ≡ last_place made.now.circuit.now.elements }
    requires fits { AreBusesFit made.now.circuit.now place element.now }
    requires numbers { All (λ r. IsOfSize (size_of (layout_of made.now.circuit.now.elements)) (solution_in r)) (rounds_in made.now.rounds.now) }
    ensures { IfOk result (λ r. pieces_of r.items ≡ lines_of (rows_at made.now.circuit.now.elements element.now
        (line_bus element.now) (slice_get (rounds_in made.now.rounds.now) 0))) }
{
    match line_bus(element) {
        None => Ok(Vec::new(alloc)),
        Some(bus) => match made.rounds.first() {
            None => Ok(Vec::new(alloc)),
            Some(round) => { bus_records(alloc, made.net.layout(), place, element, bus, round) }
        },
    }
}

// Those of the short circuit's line, which stands last.
fn phase_records(alloc: Global, made: &SolvedHour<'_>) -> Result<Vec<Record>, AllocError>
    requires network { IsBuiltOf made.now.net.now made.now.circuit.now }
    requires ready { HasPassed made.now.circuit.now }
    requires numbers { All (λ r. IsOfSize (size_of (layout_of made.now.circuit.now.elements)) (solution_in r)) (rounds_in made.now.rounds.now) }
    ensures { IfOk result (λ r. pieces_of r.items ≡ lines_of (rows_of made.now.circuit.now.elements
        (slice_get made.now.circuit.now.elements (last_place made.now.circuit.now.elements))
        (slice_get (rounds_in made.now.rounds.now) 0))) }
{
    let elements = made.circuit.elements().as_slice();
    if elements.is_empty() {
        return Ok(Vec::new(alloc));
    }
    let place = elements.len() - 1;
    let (_, element) = elements.get_index(place).unwrap();
    element_records(alloc, made, place, element)
}

impl Page for ShortReport {
    ghost style = { short_report };

    ghost round_texts = { no_texts };

    ghost last_texts = { λ s. short_report.texts_in (settle s) };

    fn opening(alloc: Global) -> Result<Vec<Record>, AllocError> {
        Ok(Vec::new(alloc))
    }

    fn closing(alloc: Global) -> Result<Vec<Record>, AllocError> {
        Ok(Vec::new(alloc))
    }

    fn law() {}

    fn bases(alloc: Global, circuit: &Circuit) -> Result<Vec<Record>, AllocError> {
        Report::bases(alloc, circuit)
    }

    fn pending(
        alloc: Global,
        circuit: &Circuit,
        entries: &[Entry],
    ) -> Result<Vec<Record>, AllocError> {
        Report::pending(alloc, circuit, entries)
    }

    fn round(
        alloc: Global,
        made: &SolvedHour<'_>,
        place: u32,
        round: &Round,
    ) -> Result<Vec<Record>, AllocError> {
        Report::round(alloc, made, place, round)
    }

    fn settled(
        alloc: Global,
        made: &SolvedHour<'_>,
        at: &Positions,
    ) -> Result<Vec<Record>, AllocError> {
        let mut records = Report::settled(alloc, made, at)?;
        let mut phases = phase_records(alloc, made)?;
        records.append(&mut phases)?;
        Ok(records)
    }

    fn failed(
        alloc: Global,
        made: &SolvedHour<'_>,
        tried: Option<Certified>,
        at: &Positions,
    ) -> Result<Vec<Record>, AllocError> {
        Report::failed(alloc, made, tried, at)
    }
}
