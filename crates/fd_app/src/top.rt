// The top call.
ghost use Rattle.std.specs.Prelude.{◌≡◌, List, None, map, string_bytes, ℕ};
ghost use Rattle.fd_bench.specs.fd_outside.Answers.{IsLater};
ghost use Rattle.fd_bench.specs.fd_outside.Causes.{Rose};
ghost use Rattle.fd_bench.specs.fd_outside.Files.{Files};
ghost use Rattle.fd_checking.specs.fd_outcome.Events.{History};
ghost use Rattle.fd_checking.specs.fd_outcome.Laws.{IsDue};
ghost use Rattle.fd_checking.specs.fd_outcome.Untold.{Answers, EndsAtRead};
ghost use Rattle.fd_app.specs.Printing.{Outside};
ghost use Rattle.fd_app.specs.Promise.{IsPromised, Promised};
ghost use Rattle.fd_app.specs.Told.{ToldLaw};
ghost use Rattle.fd_app.specs.Run.{FormsLaw, IsFormHistory, RunsForm, kind_of};
ghost use Rattle.fd_words.specs.Words.{form_of};

use crate::meaning::accepted_law;
use fd_bench::{Library, Sink, bench, write_script};
use fd_checking::{
    Certificate, Fault, Report, WANT_OF_MEMORY, certificate_law, check, passed_law, print_fault,
    rule_law, solve, solved_law,
};
use fd_shorting::{Kind, fault, studied_law};
use fd_sweeping::{ladder, swept_law};
use fd_upgrade::upgrade;
use fd_words::{Form, Short, form_of};
use std::alloc::Global;

// The kind of short circuit that a word names.
fn kind_of(short: Short) -> Kind
    ensures { result ≡ kind_of short }
{
    match short {
        Short::Lll => Kind::Lll,
        Short::Lg1 => Kind::Lg1,
        Short::Lg2 => Kind::Lg2,
        Short::Lg3 => Kind::Lg3,
    }
}

// Does what the words say, without the laws of what it comes to.
fn perform<L: Library, S: Sink>(alloc: Global, words: &[String], lib: &mut L, out: &mut S) -> u8
    ensures run { RunsForm L.answers S.taken S.calls (form_of (map string_bytes words.now))
        lib.old lib.new out.old out.new result }
    ensures later { IsLater L.answers L.holds lib.old lib.new }
    ensures statuses { Answers S.taken S.calls out.old out.new result }
    ensures usage { result ≡ 2 → form_of (map string_bytes words.now) ≡ None }
    ensures last { result ≡ 4 → EndsAtRead L.answers lib.old lib.new S.taken S.calls out.old out.new }
    ensures write { result ≡ 5 → Rose (S.faults out.old) (S.faults out.new) }
{
    let Ok(form) = form_of(alloc, words) else {
        return WANT_OF_MEMORY;
    };
    match form {
        None => print_fault(alloc, &Fault::Usage, out),
        Some(Form::Solve(file)) => solve::<Report, L, S>(alloc, file, lib, out),
        Some(Form::Cert(file)) => solve::<Certificate, L, S>(alloc, file, lib, out),
        Some(Form::Check(script, certificate)) => check::<L, S>(
            alloc,
            script,
            certificate,
            lib,
            out,
        ),
        Some(Form::Gen { number, sections }) => write_script(alloc, number, sections, out),
        Some(Form::Bench { number, sections }) => bench(alloc, number, sections, out),
        Some(Form::Upgrade(certificate)) => upgrade(alloc, certificate, lib, out),
        Some(Form::Fault { master, bus, kind }) => {
            fault(alloc, master, bus, kind_of(kind), lib, out)
        }
        Some(Form::Ladder(master)) => ladder(alloc, master, lib, out),
    }
}

/// Does what the words say, and answers the exit status:
///
/// | Status | Comes where |
/// |---|---|
/// | 0 | the script was done to its end |
/// | 1 | memory ran out |
/// | 2 | the words are no form of the command line |
/// | 3 | the script is refused |
/// | 4 | a read failed |
/// | 5 | a write failed |
/// | 6 | a matrix of the procedure has no inverse |
/// | 7 | an iterate of the procedure or its residual is out of range |
/// | 8 | an unknown still moves after the steps that the options allow |
/// | 9 | a mismatch of the state that the procedure reaches is above 1,000 microvolts or microamperes |
/// | 10 | the state has no certificate: the bound of an unknown reaches one |
/// | 11 | the sample of a control is undecided over the ball of the state |
/// | 12 | a control is due to act after as many acts as the options allow |
/// | 13 | the certificate is refused |
/// | 14 | a node of a short circuit isn't one of the circuit's |
/// | 15 | a circuit isn't radial |
///
/// The words are those after the program's name. `solve FILE` does the commands of the script of that name, and prints
/// the rounds of each Solve, with the acts of its controls, before the next command is read; `cert FILE` does the same,
/// and prints each round as a block of a certificate. `check SCRIPT CERTIFICATE` solves nothing: it gathers the commands of
/// the script, asks for the certificate behind the last one, and prints whether it is accepted. `gen NUMBER SECTIONS`
/// prints the script of a feeder from a number, and `bench NUMBER SECTIONS` solves that script, of which it prints one
/// record. `upgrade CERTIFICATE` prints a certificate of either version in the second, line for line, and judges no more
/// than its grammar. `fault MASTER BUS KIND` does the commands of a script but solves nothing, and then solves the
/// circuit of a short circuit at a bus once. `ladder MASTER` does the commands of a script; each Solve is one solution in
/// snapshot, of which no control takes part, and a record says what Kersting's ladder sweep comes to beside it. Each record is handed to the sink by one write. A refusal is printed with
/// its file, its line and its cause, a failed read with the file's name, a fault of the procedure with the first
/// unknown that it is found at, a mismatch with its row, a state without a certificate with the unknown whose bound
/// reaches one, an undecided sample with its control, and a refused certificate with its line and the rule that it
/// breaks.
pub fn run<L: Library, S: Sink>(alloc: Global, words: &[String], lib: &mut L, out: &mut S) -> u8
    // Over all files that agree with what the library answered in this call: the words have one history; its calls are
    // made, reads and writes in order, all of them with its end's status, or a front where memory runs out, a write
    // fails or a read does; and what is printed of it is true, each state, each interval and each act.
    ensures promise { Promised L.answers S.taken S.calls (form_of (map string_bytes words.now))
        lib.old lib.new out.old out.new result }

    // Answers are only added, and those of a library that tells what it holds agree with that.
    ensures later { IsLater L.answers L.holds lib.old lib.new }

    // Whatever is answered: it is done, or cut short, or ends with a fault, whose record is the last text taken.
    ensures statuses { Answers S.taken S.calls out.old out.new result }

    // Usage comes only where the words are no form. At a failed read the last answer is one, and the record names its
    // file. A failed write is answered only where the sink's count rose.
    ensures usage { result ≡ 2 → form_of (map string_bytes words.now) ≡ None }
    ensures last { result ≡ 4 → EndsAtRead L.answers lib.old lib.new S.taken S.calls out.old out.new }
    ensures write { result ≡ 5 → Rose (S.faults out.old) (S.faults out.new) }
{
    studied_law();
    swept_law();
    solved_law();
    passed_law();
    rule_law();
    certificate_law();
    accepted_law();
    perform(alloc, words, lib, out)
}

/// A law: words have exactly one history over these files. Does nothing.
pub fn forms_law()
    ensures { FormsLaw }
{}

/// A law: over a library that tells what it holds, the one history over those files is done. Does nothing.
pub fn told_law<L: Library, S: Sink>()
    ensures { ToldLaw L.answers L.holds S.taken S.calls }
{}

/// A law: the status of a run is that of the history's end, but for want of memory, a failed write or a failed read;
/// and where none failed it is that status or want of memory. Does nothing.
pub fn due_law()
    ensures { (files : Files) (words : List (List ℕ)) (h : History) (o : Outside) (code : ℕ) →
        IsFormHistory files (form_of words) h → IsPromised o files (form_of words) code →
        IsDue h.end code o.answers_before o.answers_now }
{}
