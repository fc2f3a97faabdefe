// From a file to its picture.
ghost use Rattle.std.specs.Prelude.{◌≡◌, ◌++◌, ◌∷◌, [], Some, IfErr, IfOk, IfSome, OnOk, drop};
ghost use Rattle.fd_picture.specs.fd_outside.Answers.{content};
ghost use Rattle.fd_picture.specs.fd_outside.Files.{Files, held};
ghost use Rattle.feeder_picture.specs.Drawing.{IsOfFile, IsPageOf, LeavesSink, NamesLine, OfOnlyWord, RefusesFile, RefusesWord, TakesPicture, given};
ghost use Rattle.feeder_picture.specs.declared.fault.PictureFault.TheVariants as fault;
ghost use Rattle.std.specs.Vec.Iter.{into_iter_items};

use crate::fault::PictureFault;
use fd_picture::{Found, LibFault, Library, ReportFault, Sink, draw, read_report};
use std::alloc::Global;
use std::env::Args;
use std::io;

// The bytes of a file.
fn file_bytes<L: Library>(alloc: Global, name: &str, lib: &mut L) -> Result<Vec<u8>, PictureFault>
    ensures answer { IfOk result (λ bytes. L.answers lib.new ≡ L.answers lib.old ++ (name.now, content bytes.items) ∷ []) }
    ensures held { IfOk result (λ bytes. (files : Files) → L.holds lib.old ≡ Some files → held files name.now ≡ Some bytes.items) }
    ensures fault { IfErr result IsOfFile }
{
    match lib.read(alloc, name) {
        Ok(Found::Bytes(bytes)) => Ok(bytes),
        Ok(Found::Absent) => Err(PictureFault::Absent),
        Err(LibFault::Failed) => Err(PictureFault::Unread),
        Err(LibFault::NoMemory) => Err(PictureFault::NoMemory),
    }
}

// The page of the report that bytes are.
fn page_of(alloc: Global, bytes: &[u8]) -> Result<Vec<u8>, PictureFault>
    ensures page { IfOk result (λ text. IsPageOf bytes.now text.items) }
    ensures line { IfErr result (λ e. NamesLine bytes.now e) }
{
    let report = match read_report(alloc, bytes) {
        Ok(report) => report,
        Err(ReportFault::Refused { line, cause }) => return Err(PictureFault::NotReport {
            line,
            cause,
        }),
        Err(ReportFault::NoMemory) => return Err(PictureFault::NoMemory),
    };
    match draw(alloc, &report) {
        Ok(text) => Ok(text),
        Err(_) => Err(PictureFault::NoMemory),
    }
}

// Hands the sink the whole of a text by one write.
fn write_page<S: Sink>(alloc: Global, text: &[u8], out: &mut S) -> Result<(), PictureFault>
    ensures taken { OnOk result (S.taken out.new ≡ S.taken out.old ++ text.now) }
    ensures unwritten { IfErr result (λ e. e ≡ fault.Unwritten) }
{
    match out.write(alloc, text) {
        Ok(()) => Ok(()),
        Err(_) => Err(PictureFault::Unwritten),
    }
}

/// Writes the picture of the report that a file is, by one write.
///
/// # Errors
/// `NotReport` names the first line of the file that is no record of a report, and why. At every error but `Unwritten` the sink has taken
/// nothing.
pub(crate) fn draw_file<L: Library, S: Sink>(
    alloc: Global,
    name: &str,
    lib: &mut L,
    out: &mut S,
) -> Result<(), PictureFault>
    ensures picture { OnOk result (TakesPicture (L.holds lib.old) (L.answers lib.old) (L.answers lib.new) name.now (S.taken out.old) (S.taken out.new)) }
    ensures refused { IfErr result (λ e. RefusesFile (L.holds lib.old) (L.answers lib.old) (L.answers lib.new) name.now e) }
    ensures nothing { IfErr result (λ e. LeavesSink out.old out.new e) }
{
    let bytes = file_bytes(alloc, name, lib)?;
    let text = page_of(alloc, &bytes)?;
    write_page(alloc, &text, out)
}

// The word behind the program's name, where there is exactly one.
fn only_word(mut args: Args) -> Option<String>
    ensures { IfSome result (λ word. drop 1 (into_iter_items args) ≡ word ∷ []) }
{
    let _name = args.next();
    match (args.next(), args.next()) {
        (Some(word), None) => Some(word),
        _ => None,
    }
}

/// Writes the picture of the report that the file of the only word is, by one write.
///
/// # Errors
/// Those of `draw_file`, and `Usage` where the words behind the program's name aren't one word.
pub(crate) fn draw_words<L: Library, S: Sink>(
    alloc: Global,
    args: io::Result<Args>,
    lib: &mut L,
    out: &mut S,
) -> Result<(), PictureFault>
    ensures picture { OnOk result (OfOnlyWord (given args) (λ name. TakesPicture (L.holds lib.old) (L.answers lib.old) (L.answers lib.new) name (S.taken out.old) (S.taken out.new))) }
    ensures refused { IfErr result (λ e. RefusesWord (given args) (L.holds lib.old) (L.answers lib.old) (L.answers lib.new) e) }
    ensures nothing { IfErr result (λ e. LeavesSink out.old out.new e) }
{
    let Ok(args) = args else {
        return Err(PictureFault::Usage);
    };
    match only_word(args) {
        Some(name) => draw_file(alloc, name.as_str(), lib, out),
        None => Err(PictureFault::Usage),
    }
}
