// Records handed to the sink.
ghost use Rattle.std.specs.Prelude.{◌≡◌, ◌++◌, ◌∷◌, [], ◌||◌, ◌+◌, ◌^◌, ◌<◌, ◌≤◌, All, Bool, IfNone, IfOk, IfSome};
ghost use Rattle.std.specs.Prelude.{None, Some, length, map, true};
ghost use Rattle.fd_pages.specs.fd_outside.Causes.{Rose};
ghost use Rattle.fd_pages.specs.fd_outside.Emitted.{pieces_of};
ghost use Rattle.fd_pages.specs.fd_certfile.Rounds.{IsRoundOf};
ghost use Rattle.fd_pages.specs.dss_layout.Layout.{layout_of, size_of};
ghost use Rattle.fd_daily.specs.fd_network.Built.{IsBuiltOf};
ghost use Rattle.fd_daily.specs.fd_sample.Circuits.{probes_of};
ghost use Rattle.fd_daily.specs.fd_sample.Probes.{positions_in};
ghost use Rattle.fd_pages.specs.fd_outcome.Behind.{behind, closes, has_text, last_calls, opened_unless};
ghost use Rattle.fd_pages.specs.fd_outcome.Calls.{body, fault_text, opened, writes};
ghost use Rattle.fd_pages.specs.fd_outcome.Events.{waits};
ghost use Rattle.fd_pages.specs.fd_outcome.Parts.{IsCutIn, Printed, Wrote, fault_doing};
ghost use Rattle.fd_pages.specs.fd_outcome.Way.{whole};
ghost use Rattle.fd_pages.specs.fd_outcome.Settles.{Settle, settled};
ghost use Rattle.fd_pages.specs.Hours.{IsPrintable, IsSettleAt, IsTriedOf, rounds_in, settle_made, Kept};
ghost use Rattle.fd_pages.specs.Rounds.{rounds_texts};
ghost use Rattle.fd_pages.specs.Bases.{base_events};
ghost use Rattle.fd_solving.specs.Endings.{end_by};
ghost use Rattle.fd_solving.specs.Printing.{begun_behind, settle_calls};

use crate::faults::Failure;
use dss_commands::Circuit;
use fd_daily::{Certified, Positions};
use fd_pages::{Entry, Fault, Page, Record, Sink, SinkFault, SolvedHour, emit, record, status};
use std::alloc::{AllocError, Global};

/// The exit status where memory runs out.
pub const WANT_OF_MEMORY: u8 = 1;

// The exit status where a write fails.
const WRITE_FAULT: u8 = 5;

/// Prints the record of a fault that ends the run, and answers the exit status.
pub fn print_fault<S: Sink>(alloc: Global, fault: &Fault, out: &mut S) -> u8
    ensures prints { Printed S.taken S.calls out.old out.new true (fault_doing fault.now) result }
    ensures later { S.faults out.old ≤ S.faults out.new }
    ensures write { result ≡ 5 → Rose (S.faults out.old) (S.faults out.new) }
{
    let Ok(text) = record(alloc, fault) else {
        return WANT_OF_MEMORY;
    };
    match emit(alloc, &[text], out) {
        Ok(()) => status(fault),
        Err(SinkFault::Failed) => WRITE_FAULT,
        Err(SinkFault::NoMemory) => WANT_OF_MEMORY,
    }
}

// Whether a text is among these.
#[tactic(auto, using(crate::proofs::Handed::some_text))]
fn has_text(records: &[Record]) -> bool
    ensures { result ≡ has_text (map writes (pieces_of records.now)) }
{
    match records {
        [] => false,
        [_, ..] => true,
    }
}

// Puts what stands before the first text in front of these, where there are any.
fn opened<P: Page>(alloc: Global, texts: Vec<Record>) -> Result<Vec<Record>, AllocError>
    ensures { IfOk result (λ r. map writes (pieces_of r.items) ≡ opened P.style.opening (map writes (pieces_of texts.items))) }
{
    if has_text(texts.as_slice()) {
        let mut texts = texts;
        let mut all = P::opening(alloc)?;
        all.append(&mut texts)?;
        Ok(all)
    } else {
        Ok(texts)
    }
}

// Puts what stands before the first text in front of these, unless a text was written before.
fn with_opening<P: Page>(
    alloc: Global,
    begun: bool,
    texts: Vec<Record>,
) -> Result<Vec<Record>, AllocError>
    ensures { IfOk result (λ r. map writes (pieces_of r.items) ≡ opened_unless begun P.style.opening (map writes (pieces_of texts.items))) }
{
    if begun {
        Ok(texts)
    } else {
        opened::<P>(alloc, texts)
    }
}

// Prints texts, with what opens them. An answer ends the run, and only where there is a text. `begun` tells whether one
// was written before.
fn print_texts<P: Page, S: Sink>(
    alloc: Global,
    texts: Vec<Record>,
    begun: &mut bool,
    out: &mut S,
) -> Option<u8>
    ensures goes { IfNone result (Wrote S.taken S.calls out.old out.new
        (whole (opened_unless begun.old P.style.opening (map writes (pieces_of texts.items))))) }
    ensures begun { result ≡ None → begun.new ≡ (begun.old || has_text (map writes (pieces_of texts.items))) }
    ensures ends { IfSome result (IsCutIn S.taken S.calls out.old out.new (opened_unless begun.old P.style.opening (map writes (pieces_of texts.items)))) }
    ensures some { IfSome result (λ _. pieces_of texts.items ≡ [] → ⊥) }
    ensures later { S.faults out.old ≤ S.faults out.new }
    ensures write { IfSome result (λ code. code ≡ 5 → Rose (S.faults out.old) (S.faults out.new)) }
{
    if !has_text(texts.as_slice()) {
        return None;
    }
    let Ok(texts) = with_opening::<P>(alloc, *begun, texts) else {
        return Some(WANT_OF_MEMORY);
    };
    match emit(alloc, texts.as_slice(), out) {
        Ok(()) => {
            *begun = true;
            None
        }
        Err(SinkFault::Failed) => Some(WRITE_FAULT),
        Err(SinkFault::NoMemory) => Some(WANT_OF_MEMORY),
    }
}

/// Prints the voltage bases of a circuit's buses. An answer ends the run. `begun` tells whether a text was written before.
pub fn print_bases<P: Page, S: Sink>(
    alloc: Global,
    circuit: &Circuit,
    begun: &mut bool,
    out: &mut S,
) -> Option<u8>
    ensures goes { IfNone result (Wrote S.taken S.calls out.old out.new (whole (behind P.style begun.old (base_events circuit.now)))) }
    ensures begun { result ≡ None → begun.new ≡ (begun.old || has_text (body P.style (base_events circuit.now))) }
    ensures ends { IfSome result (IsCutIn S.taken S.calls out.old out.new (behind P.style begun.old (base_events circuit.now))) }
    ensures later { S.faults out.old ≤ S.faults out.new }
    ensures write { IfSome result (λ code. code ≡ 5 → Rose (S.faults out.old) (S.faults out.new)) }
{
    P::law();
    let Ok(texts) = P::bases(alloc, circuit) else {
        return Some(WANT_OF_MEMORY);
    };
    print_texts::<P, S>(alloc, texts, begun, out)
}

/// Prints the entries that wait in the queue behind the last hour of a Solve. An answer ends the run. `begun` tells whether
/// a text was written before.
pub(crate) fn print_pending<P: Page, S: Sink>(
    alloc: Global,
    circuit: &Circuit,
    entries: &[Entry],
    begun: &mut bool,
    out: &mut S,
) -> Option<u8>
    ensures goes { IfNone result (Wrote S.taken S.calls out.old out.new (whole (behind P.style begun.old (waits circuit.now entries.now ∷ [])))) }
    ensures begun { result ≡ None → begun.new ≡ (begun.old || has_text (body P.style (waits circuit.now entries.now ∷ []))) }
    ensures ends { IfSome result (IsCutIn S.taken S.calls out.old out.new (behind P.style begun.old (waits circuit.now entries.now ∷ []))) }
    ensures later { S.faults out.old ≤ S.faults out.new }
    ensures write { IfSome result (λ code. code ≡ 5 → Rose (S.faults out.old) (S.faults out.new)) }
{
    P::law();
    let Ok(texts) = P::pending(alloc, circuit, entries) else {
        return Some(WANT_OF_MEMORY);
    };
    print_texts::<P, S>(alloc, texts, begun, out)
}

// Prints the texts that the rounds of an hour have by themselves, each round's before the next one's are made. An
// answer ends the run. `begun` tells whether a text was written before.
fn print_rounds<P: Page, S: Sink>(
    alloc: Global,
    made: &SolvedHour<'_>,
    begun: &mut bool,
    out: &mut S,
) -> Option<u8>
    requires network { IsBuiltOf made.now.net.now made.now.circuit.now }
    requires numbers { All (IsRoundOf (size_of (layout_of made.now.circuit.now.elements))) made.now.rounds.now }
    requires few { length made.now.rounds.now < 2 ^ 32 }
    ensures goes { (s : Settle) → IsSettleAt made.now.circuit.now made.now.number made.now.hour s
        → IfNone result (Wrote S.taken S.calls out.old out.new (whole (opened_unless begun.old P.style.opening
        (map writes (rounds_texts P.round_texts s 0 (rounds_in made.now.rounds.now)))))) }
    ensures begun { (s : Settle) → IsSettleAt made.now.circuit.now made.now.number made.now.hour s → result ≡ None →
        begun.new ≡ (begun.old
        || has_text (map writes (rounds_texts P.round_texts s 0 (rounds_in made.now.rounds.now)))) }
    ensures ends { (s : Settle) → IsSettleAt made.now.circuit.now made.now.number made.now.hour s
        → IfSome result (IsCutIn S.taken S.calls out.old out.new (opened_unless begun.old P.style.opening
        (map writes (rounds_texts P.round_texts s 0 (rounds_in made.now.rounds.now))))) }
    ensures later { S.faults out.old ≤ S.faults out.new }
    ensures write { IfSome result (λ code. code ≡ 5 → Rose (S.faults out.old) (S.faults out.new)) }
{
    for (place, round) in made.rounds.iter().enumerate() {
        let Ok(texts) = P::round(alloc, made, place as u32, round) else {
            return Some(WANT_OF_MEMORY);
        };
        let ended = print_texts::<P, S>(alloc, texts, begun, out);
        if ended.is_some() {
            return ended;
        }
    }
    None
}

/// Prints an hour's settle that ended well, at these positions. An answer ends the run. `begun` tells whether a text was
/// written before.
pub(crate) fn print_settled<P: Page, S: Sink>(
    alloc: Global,
    made: &SolvedHour<'_>,
    at: &Positions,
    begun: &mut bool,
    out: &mut S,
) -> Option<u8>
    requires network { IsBuiltOf made.now.net.now made.now.circuit.now }
    requires printable { IsPrintable made.now.circuit.now made.now.hour made.now.rounds.now (positions_in at.now) }
    requires probes { made.now.probes.now ≡ probes_of made.now.circuit.now.elements }
    ensures goes { (l : Kept) → made.now.number ≡ l.settled + 1
        → IfNone result (Wrote S.taken S.calls out.old out.new (whole (settle_calls P.style begun.old
        (settle_made made.now.circuit.now made.now.hour l made.now.rounds.now settled (positions_in at.now))))) }
    ensures begun { (l : Kept) → made.now.number ≡ l.settled + 1 → result ≡ None →
        begun.new ≡ begun_behind P.style begun.old (settle_made made.now.circuit.now made.now.hour l made.now.rounds.now settled (positions_in at.now)) }
    ensures ends { (l : Kept) → made.now.number ≡ l.settled + 1
        → IfSome result (IsCutIn S.taken S.calls out.old out.new (settle_calls P.style begun.old
        (settle_made made.now.circuit.now made.now.hour l made.now.rounds.now settled (positions_in at.now)))) }
    ensures later { S.faults out.old ≤ S.faults out.new }
    ensures write { IfSome result (λ code. code ≡ 5 → Rose (S.faults out.old) (S.faults out.new)) }
{
    P::law();
    // made first: where memory runs out for them, nothing is printed
    let Ok(texts) = P::settled(alloc, made, at) else {
        return Some(WANT_OF_MEMORY);
    };
    let ended = print_rounds::<P, S>(alloc, made, begun, out);
    if ended.is_some() {
        return ended;
    }
    print_texts::<P, S>(alloc, texts, begun, out)
}

/// Prints an hour's settle that ended with a failure, and then its fault, and answers the exit status. `begun` tells
/// whether a text was written before.
pub(crate) fn print_failed<P: Page, S: Sink>(
    alloc: Global,
    made: &SolvedHour<'_>,
    failure: Failure,
    at: &Positions,
    begun: bool,
    out: &mut S,
) -> u8
    requires network { IsBuiltOf made.now.net.now made.now.circuit.now }
    requires printable { IsPrintable made.now.circuit.now made.now.hour made.now.rounds.now (positions_in at.now) }
    requires tried { IsTriedOf (size_of (layout_of made.now.circuit.now.elements)) failure.tried }
    ensures prints { (l : Kept) → made.now.number ≡ l.settled + 1 → Printed S.taken S.calls out.old out.new true (record {
      calls = settle_calls P.style begun (settle_made made.now.circuit.now made.now.hour l made.now.rounds.now
          (end_by (Some failure)) (positions_in at.now))
          ++ writes (fault_text failure.fault) ∷ [];
      end = Some failure.fault;
    }) result }
    ensures later { S.faults out.old ≤ S.faults out.new }
    ensures write { result ≡ 5 → Rose (S.faults out.old) (S.faults out.new) }
{
    P::law();
    let Failure { fault, tried } = failure;
    let mut begun = begun;
    if let Some(code) = print_rounds::<P, S>(alloc, made, &mut begun, out) {
        return code;
    }
    let Ok(texts) = P::failed(alloc, made, tried, at) else {
        return WANT_OF_MEMORY;
    };
    if let Some(code) = print_texts::<P, S>(alloc, texts, &mut begun, out) {
        return code;
    }
    print_fault(alloc, &fault, out)
}

// The texts that stand last, with what opens them.
fn last_texts<P: Page>(alloc: Global, begun: bool) -> Result<Vec<Record>, AllocError>
    ensures { IfOk result (λ r. map writes (pieces_of r.items) ≡ opened_unless begun P.style.opening (map writes P.style.closing)) }
{
    let texts = P::closing(alloc)?;
    with_opening::<P>(alloc, begun, texts)
}

/// Prints the last texts where there is no fault, and answers the exit status. Where there is one, it tells the end: only
/// then is 1 answered where not all is printed.
pub fn print_end<S: Sink>(alloc: Global, texts: &[Record], out: &mut S) -> u8
    ensures prints { (tells : Bool) → (tells ≡ true → pieces_of texts.now ≡ [] → ⊥)
        → Printed S.taken S.calls out.old out.new tells (record { calls = map writes (pieces_of texts.now); end = None }) result }
    ensures later { S.faults out.old ≤ S.faults out.new }
    ensures write { result ≡ 5 → Rose (S.faults out.old) (S.faults out.new) }
{
    match emit(alloc, texts, out) {
        Ok(()) => 0,
        Err(SinkFault::Failed) => WRITE_FAULT,
        Err(SinkFault::NoMemory) => WANT_OF_MEMORY,
    }
}

/// Prints what stands last where there is no fault, and answers the exit status. `begun` tells whether a text was
/// written before.
pub fn print_last<P: Page, S: Sink>(alloc: Global, begun: bool, out: &mut S) -> u8
    ensures prints { Printed S.taken S.calls out.old out.new (closes P.style.closing)
        (record { calls = last_calls P.style begun [] None; end = None }) result }
    ensures later { S.faults out.old ≤ S.faults out.new }
    ensures write { result ≡ 5 → Rose (S.faults out.old) (S.faults out.new) }
{
    let Ok(texts) = last_texts::<P>(alloc, begun) else {
        return WANT_OF_MEMORY;
    };
    print_end(alloc, texts.as_slice(), out)
}
