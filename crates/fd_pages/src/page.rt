// How the settles of a command line are printed.
ghost use Rattle.std.specs.Prelude.{◌≡◌, ◌++◌, ◌+◌, ℕ, List, [], IfOk, OnErr};
ghost use Rattle.std.specs.List.{flat_map};
ghost use Rattle.fd_outcome.specs.fd_outside.Emitted.{pieces_of};
ghost use Rattle.fd_outcome.specs.fd_certfile.Rounds.{IsRoundOf};
ghost use Rattle.fd_outcome.specs.fd_network.Built.{IsBuiltOf};
ghost use Rattle.fd_outcome.specs.fd_queue.declared.entry.Entry.{Entry as EntryView};
ghost use Rattle.fd_outcome.specs.fd_report.declared.faults.Fault.{Fault as FaultView};
ghost use Rattle.fd_outcome.specs.fd_sample.Circuits.{probes_of};
ghost use Rattle.fd_outcome.specs.fd_sample.Probes.{positions_in};
ghost use Rattle.fd_outcome.specs.Behind.{AsksNames};
ghost use Rattle.fd_outcome.specs.Calls.{Style};
ghost use Rattle.fd_outcome.specs.Events.{row, settle, waits};
ghost use Rattle.fd_outcome.specs.Settles.{Round as RoundView, Settle, failed, settled};
ghost use Rattle.fd_pages.specs.Hours.{IsPrintable, IsSettleAt, IsTriedOf, settle_made, end_with, round_in, Kept};
ghost use Rattle.fd_pages.specs.Rounds.{rounds_texts};
ghost use Rattle.fd_pages.specs.Bases.{base_events};
ghost use Rattle.fd_bases.specs.dss_circuit.Circuit.{CircuitView};
ghost use Rattle.fd_bases.specs.dss_layout.Layout.{layout_of, size_of};

use fd_bases::Circuit;
use fd_outcome::{Certified, Entry, Network, Probe, Record, Round};
use fd_settings::Positions;
use std::alloc::{AllocError, Global};

/// An hour of a circuit that was solved, in a network of the circuit: the number of its settle in the run, from 1, the
/// hour, its rounds, in order, and the probes of the circuit's controls.
#[derive(Clone, Copy, Drop)]
pub struct SolvedHour<'a> {
    pub circuit: &'a Circuit,
    pub net: &'a Network,
    pub number: u32,
    pub hour: u32,
    pub rounds: &'a [Round],
    pub probes: &'a [Probe],
}

/// A way to print settles.
pub trait Page {
    ghost style: { Style };

    /// The texts that a round of a settle has by itself, by its place: they are handed over before the next round's are
    /// made.
    ghost round_texts: { Settle → ℕ → RoundView → List (List ℕ) };

    /// The texts of a settle behind those of its rounds.
    ghost last_texts: { Settle → List (List ℕ) };

    /// What stands before the first text.
    fn opening(alloc: Global) -> Result<Vec<Record>, AllocError>
        ensures { IfOk result (λ r. pieces_of r.items ≡ style.opening) };

    /// What stands last where there is no fault.
    fn closing(alloc: Global) -> Result<Vec<Record>, AllocError>
        ensures { IfOk result (λ r. pieces_of r.items ≡ style.closing) };

    /// A law: the names of events are asked, and a settle, a row and what waits ask for none; a settle of no round that
    /// ended with a fault has no text. The texts of a settle are those of its rounds, in order, and the last ones. Does
    /// nothing.
    fn law()
        ensures names { AsksNames style }
        ensures silent { (s : Settle) → style.asked_in (settle s) ≡ [] }
        ensures silent_rows { (fields : List (List ℕ)) → style.asked_in (row fields) ≡ [] }
        ensures silent_waits { (c : CircuitView) (es : List EntryView) → style.asked_in (waits c es) ≡ [] }
        ensures unshown { (s : Settle) (f : FaultView) → s.rounds ≡ [] → s.end ≡ failed f →
            style.texts_in (settle s) ≡ [] }
        ensures parts { (s : Settle) →
            rounds_texts round_texts s 0 s.rounds ++ last_texts s ≡ style.texts_in (settle s) };

    /// The texts of the voltage bases of a circuit's buses.
    fn bases(alloc: Global, circuit: &Circuit) -> Result<Vec<Record>, AllocError>
        ensures { IfOk result (λ r. pieces_of r.items ≡ flat_map style.texts_in (base_events circuit.now)) };

    /// The texts of entries that wait in the queue behind the last hour of a Solve.
    fn pending(
        alloc: Global,
        circuit: &Circuit,
        entries: &[Entry],
    ) -> Result<Vec<Record>, AllocError>
        ensures { IfOk result (λ r. pieces_of r.items ≡ style.texts_in (waits circuit.now entries.now)) };

    /// The texts that a round of an hour has by itself, by its place. Memory runs out only where it has one.
    fn round(
        alloc: Global,
        made: &SolvedHour<'_>,
        place: u32,
        round: &Round,
    ) -> Result<Vec<Record>, AllocError>
        requires network { IsBuiltOf made.now.net.now made.now.circuit.now }
        requires numbers { IsRoundOf (size_of (layout_of made.now.circuit.now.elements)) round.now }
        ensures texts { (s : Settle) → IsSettleAt made.now.circuit.now made.now.number made.now.hour s →
            IfOk result (λ r. pieces_of r.items ≡ round_texts s place (round_in round.now)) }
        ensures some { (s : Settle) → IsSettleAt made.now.circuit.now made.now.number made.now.hour s →
            OnErr result (round_texts s place (round_in round.now) ≡ [] → ⊥) };

    /// The texts behind the rounds of an hour's settle that ended well, at these positions.
    fn settled(
        alloc: Global,
        made: &SolvedHour<'_>,
        at: &Positions,
    ) -> Result<Vec<Record>, AllocError>
        requires network { IsBuiltOf made.now.net.now made.now.circuit.now }
        requires printable { IsPrintable made.now.circuit.now made.now.hour made.now.rounds.now (positions_in at.now) }
        requires probes { made.now.probes.now ≡ probes_of made.now.circuit.now.elements }
        ensures { (l : Kept) → made.now.number ≡ l.settled + 1 → IfOk result (λ r. pieces_of r.items
            ≡ last_texts (settle_made made.now.circuit.now made.now.hour l made.now.rounds.now settled
            (positions_in at.now))) };

    /// The texts behind the rounds of an hour's settle that ended with a fault, before the fault's; where the last
    /// state has no certificate, with that state.
    fn failed(
        alloc: Global,
        made: &SolvedHour<'_>,
        tried: Option<Certified>,
        at: &Positions,
    ) -> Result<Vec<Record>, AllocError>
        requires network { IsBuiltOf made.now.net.now made.now.circuit.now }
        requires printable { IsPrintable made.now.circuit.now made.now.hour made.now.rounds.now (positions_in at.now) }
        requires tried { IsTriedOf (size_of (layout_of made.now.circuit.now.elements)) tried }
        ensures { (l : Kept) (f : FaultView) → made.now.number ≡ l.settled + 1 → IfOk result (λ r. pieces_of r.items
            ≡ last_texts (settle_made made.now.circuit.now made.now.hour l made.now.rounds.now
            (end_with f tried) (positions_in at.now))) };
}
