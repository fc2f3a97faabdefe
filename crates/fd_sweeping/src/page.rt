// The report of a Solve with its sweep.
ghost use Rattle.std.specs.Prelude.{◌≡◌, All, IfOk, None, length, slice_get};
ghost use Rattle.std.specs.List.{flat_map};
ghost use Rattle.fd_solving.specs.dss_circuit.Circuit.{CircuitView};
ghost use Rattle.fd_solving.specs.dss_layout.Layout.{layout_of, size_of};
ghost use Rattle.fd_solving.specs.dss_ready.Ready.{HasPassed};
ghost use Rattle.fd_solving.specs.fd_cert.Claims.{claim_in};
ghost use Rattle.fd_solving.specs.fd_certfile.Rounds.{IsClaimOf, IsRoundOf};
ghost use Rattle.fd_solving.specs.fd_enclosure.Sound.{Claim};
ghost use Rattle.fd_solving.specs.fd_outcome.Events.{settle};
ghost use Rattle.fd_solving.specs.fd_outcome.Pages.{report_texts, solution_in};
ghost use Rattle.fd_solving.specs.fd_outside.Emitted.{pieces_of};
ghost use Rattle.fd_solving.specs.fd_pages.Hours.{rounds_in};
ghost use Rattle.fd_solving.specs.fd_pages.Rounds.{no_texts};
ghost use Rattle.fd_solving.specs.fd_report.Solutions.{IsOfSize};
ghost use Rattle.fd_solving.specs.fd_network.Built.{IsBuiltOf};
ghost use Rattle.fd_solving.specs.fd_xfmr.Leakage.{AreTaps};
ghost use Rattle.fd_sweep.specs.Sweep.{StandsAt, sweep_result};
ghost use Rattle.fd_sweeping.specs.Beside.{ladder_of};
ghost use Rattle.fd_sweeping.specs.Pages.{ladder_report, sweep_beside, sweep_event, swept_beside, unless_refused};

use crate::beside::ladder_of;
use fd_solving::{
    BuildFault, Certified, Circuit, Entry, Ladder, Network, Page, Positions, Record, Report, Round,
    SolvedHour, hours_law, ladder_record, next_law, next_positions, no_positions, powers_at,
};
use fd_sweep::{LadderFault, sweep};
use std::alloc::{AllocError, Global};

/// The report of a Solve, and the record of its sweep behind it.
pub struct LadderReport;

// What the sweep of a circuit comes to beside a certified state, where this is its network and the circuit is radial.
fn beside_network(
    alloc: Global,
    circuit: &Circuit,
    net: &Network,
    at: &Positions,
    certified: &Certified,
) -> Result<Option<Ladder>, AllocError>
    requires ready { HasPassed circuit.now }
    requires built { IsBuiltOf net.now circuit.now }
    requires at { StandsAt net.now at.now }
    requires within { All AreTaps at.now.taps }
    requires claim { IsClaimOf (size_of (layout_of circuit.now.elements)) (claim_in certified.now) }
    requires boxes { length (claim_in certified.now).boxes ≡ size_of (layout_of circuit.now.elements) }
    ensures { IfOk result (λ l. l ≡ unless_refused (ladder_of (layout_of circuit.now.elements) net.now.rows (claim_in certified.now))
        None (sweep_result circuit.now at.now net.now.rows circuit.now.options.maxiterations)) }
{
    // read for what its rows are
    let _size = net.size();
    let most = circuit.options().maxiterations;
    match sweep(alloc, circuit, net, at, most) {
        Err(LadderFault::NotRadial(_)) => Ok(None),
        Err(LadderFault::NoMemory) => Err(AllocError),
        Ok(swept) => {
            let rows = net.rows();
            let ladder = ladder_of(alloc, net.layout(), &rows, certified, &swept)?;
            Ok(Some(ladder))
        }
    }
}

// What the sweep of a circuit comes to beside a certified state, where the circuit is radial and its network in range.
fn swept_beside(
    alloc: Global,
    circuit: &Circuit,
    certified: &Certified,
) -> Result<Option<Ladder>, AllocError>
    requires ready { HasPassed circuit.now }
    requires claim { IsClaimOf (size_of (layout_of circuit.now.elements)) (claim_in certified.now) }
    requires boxes { length (claim_in certified.now).boxes ≡ size_of (layout_of circuit.now.elements) }
    ensures { IfOk result (λ l. l ≡ swept_beside circuit.now (claim_in certified.now)) }
{
    // read for what the elements are, and how many sweeps are allowed
    let _elements = circuit.elements();
    next_law();
    hours_law();
    let at = next_positions(alloc, circuit, &no_positions(alloc))?;
    let powers = powers_at(alloc, circuit, 0)?;
    match Network::build(alloc, circuit, &at, &powers) {
        Err(BuildFault::Range(_)) => Ok(None),
        Err(BuildFault::NoMemory) => Err(AllocError),
        Ok(net) => beside_network(alloc, circuit, &net, &at, certified),
    }
}

// The record of a sweep, where there is one.
fn sweep_record(alloc: Global, ladder: Option<Ladder>) -> Result<Vec<Record>, AllocError>
    ensures { (c : CircuitView) (m : Claim) →
        IfOk result (λ r. pieces_of r.items ≡ flat_map report_texts (sweep_event c m ladder)) }
{
    let mut records = Vec::new(alloc);
    if let Some(ladder) = ladder {
        records.push(ladder_record(alloc, &ladder)?)?;
    }
    Ok(records)
}

// The record of the sweep beside the first round.
fn sweep_records(alloc: Global, made: &SolvedHour<'_>) -> Result<Vec<Record>, AllocError>
    requires ready { HasPassed made.now.circuit.now }
    requires claims { All (IsRoundOf (size_of (layout_of made.now.circuit.now.elements))) made.now.rounds.now }
    requires numbers { All (λ r. IsOfSize (size_of (layout_of made.now.circuit.now.elements)) (solution_in r)) (rounds_in made.now.rounds.now) }
    ensures { IfOk result (λ r. pieces_of r.items
        ≡ flat_map report_texts (sweep_beside made.now.circuit.now (slice_get (rounds_in made.now.rounds.now) 0))) }
{
    match made.rounds.first() {
        None => Ok(Vec::new(alloc)),
        Some(round) => {
            let ladder = swept_beside(alloc, made.circuit, round.certified.as_ref())?;
            sweep_record(alloc, ladder)
        }
    }
}

impl Page for LadderReport {
    ghost style = { ladder_report };

    ghost round_texts = { no_texts };

    ghost last_texts = { λ s. ladder_report.texts_in (settle s) };

    fn opening(alloc: Global) -> Result<Vec<Record>, AllocError> {
        Ok(Vec::new(alloc))
    }

    fn closing(alloc: Global) -> Result<Vec<Record>, AllocError> {
        Ok(Vec::new(alloc))
    }

    fn law() {}

    fn bases(alloc: Global, circuit: &Circuit) -> Result<Vec<Record>, AllocError> {
        Report::bases(alloc, circuit)
    }

    fn pending(
        alloc: Global,
        circuit: &Circuit,
        entries: &[Entry],
    ) -> Result<Vec<Record>, AllocError> {
        Report::pending(alloc, circuit, entries)
    }

    fn round(
        alloc: Global,
        made: &SolvedHour<'_>,
        place: u32,
        round: &Round,
    ) -> Result<Vec<Record>, AllocError> {
        Report::round(alloc, made, place, round)
    }

    fn settled(
        alloc: Global,
        made: &SolvedHour<'_>,
        at: &Positions,
    ) -> Result<Vec<Record>, AllocError> {
        let mut records = Report::settled(alloc, made, at)?;
        let mut behind = sweep_records(alloc, made)?;
        records.append(&mut behind)?;
        Ok(records)
    }

    fn failed(
        alloc: Global,
        made: &SolvedHour<'_>,
        tried: Option<Certified>,
        at: &Positions,
    ) -> Result<Vec<Record>, AllocError> {
        Report::failed(alloc, made, tried, at)
    }
}
