// The lines of the script, one record each.
ghost use Rattle.std.specs.Prelude.{◌≡◌, ◌<◌, ◌≤◌, ◌∷◌, [], string_bytes, IfOk, OnOk, Some};
ghost use Rattle.fd_outside.specs.Emitted.{pieces_of};
ghost use Rattle.fd_gen.specs.Draws.{drawn, next};
ghost use Rattle.fd_gen.specs.Script.{Adds, bus_of, head, line_of, lines_of, load_of, section_by, sections_of};

use crate::draws::Draws;
use fd_outside::{Bytes, Record};
use std::alloc::{AllocError, Global};
use std::fmt;

const CIRCUIT: &str = "New Circuit.gen basekv=4.16 r1=0 x1=0.001 r0=0 x0=0.001";

const LINECODE: &str =
    "New Linecode.g nphases=3 rmatrix=(0.3465 | 0.1560 0.3375 | 0.1580 0.1535 0.3414) \
    xmatrix=(1.0179 | 0.5017 1.0478 | 0.4236 0.3849 1.0348) units=mi";

// Adds a line, with its end.
fn push_line(records: &mut Vec<Record>, line: String) -> Result<(), AllocError>
    ensures { OnOk result (Adds records.old.items records.new.items (string_bytes line ∷ [])) }
{
    let mut bytes = line.into_bytes();
    bytes.push(b'\n')?;
    records.push(Record {
        bytes: Bytes::new(bytes),
    })?;
    Ok(())
}

// Adds the lines before the sections.
fn push_head(alloc: Global, records: &mut Vec<Record>) -> Result<(), AllocError>
    ensures { OnOk result (Adds records.old.items records.new.items head) }
{
    push_line(records, "Clear".to_string(alloc)?)?;
    push_line(records, CIRCUIT.to_string(alloc)?)?;
    push_line(records, LINECODE.to_string(alloc)?)?;
    Ok(())
}

// The bus at the end of a section by its number, or the source's at 0.
#[derive(Clone, Copy)]
struct Bus {
    section: u32,
}

impl fmt::Display for Bus {
    ghost output = { λ bus. Some (bus_of bus.section) };

    fn fmt<W: fmt::Write>(&self, f: &mut fmt::Formatter<W>) -> fmt::Result {
        match self.section {
            0 => f.write_str("sourcebus"),
            section => write!(f, "b{section}"),
        }
    }
}

fn line_text(alloc: Global, section: u32, from: u32, feet: u32) -> Result<String, AllocError>
    ensures { IfOk result (λ t. string_bytes t ≡ line_of section from feet) }
{
    let bus1 = Bus { section: from };
    let bus2 = Bus { section };
    format!(in alloc;
        "New Line.l{section} bus1={bus1} bus2={bus2} linecode=g length={feet} units=ft"
    )
}

fn load_text(alloc: Global, section: u32, kilowatts: u32) -> Result<String, AllocError>
    ensures { IfOk result (λ t. string_bytes t ≡ load_of section kilowatts) }
{
    let bus1 = Bus { section };
    format!(in alloc; "New Load.d{section} bus1={bus1} kv=4.16 kw={kilowatts} vminpu=0.8")
}

// Adds the lines of a section.
fn push_section(
    alloc: Global,
    records: &mut Vec<Record>,
    draws: &mut Draws,
    section: u32,
) -> Result<(), AllocError>
    requires { 0 < section }
    ensures moved { draws.new.at ≡ next (next (next draws.old.at)) }
    ensures lines { let a = next draws.old.at in let b = next a in let c = next b in
        OnOk result (Adds records.old.items records.new.items (section_by section (drawn a) (drawn b) (drawn c))) }
{
    let from = draws.draw() % section;
    let feet = 100 + draws.draw() % 200;
    let kilowatts = 5 + draws.draw() % 20;
    push_line(records, line_text(alloc, section, from, feet)?)?;
    push_line(records, load_text(alloc, section, kilowatts)?)?;
    Ok(())
}

// Adds the lines of all sections.
fn push_sections(
    alloc: Global,
    records: &mut Vec<Record>,
    number: u64,
    sections: u32,
) -> Result<(), AllocError>
    requires { 1 ≤ sections }
    ensures { OnOk result (Adds records.old.items records.new.items (sections_of number sections)) }
{
    let mut draws = Draws { at: number };
    for section in 1..=sections {
        push_section(alloc, records, &mut draws, section)?;
    }
    Ok(())
}

/// The script of a feeder of so many sections from a number: one record for each line, with its end. It is a circuit
/// of 4.16 kV, whose sections are each a line of 100 to 299 feet from the source's bus or from that of an earlier
/// section, and a load of 5 to 24 kW at its end; the last line is `Solve`. It takes the time and the memory of its
/// bytes.
///
/// # Errors
/// `AllocError` where memory is refused.
pub fn generate(alloc: Global, number: u64, sections: u32) -> Result<Vec<Record>, AllocError>
    requires { 1 ≤ sections }
    ensures { IfOk result (λ rs. pieces_of rs.items ≡ lines_of number sections) }
{
    let mut records = Vec::new(alloc);
    push_head(alloc, &mut records)?;
    push_sections(alloc, &mut records, number, sections)?;
    push_line(&mut records, "Solve".to_string(alloc)?)?;
    Ok(records)
}
