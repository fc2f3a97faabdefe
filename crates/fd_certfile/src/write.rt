// The lines of a round.
ghost use Rattle.std.specs.Prelude.{◌≡◌, ℕ, ◌<◌, ◌^◌, ◌++◌, map, pos, All, IfOk, OnOk, Ok, length};
ghost use Rattle.fd_settle.specs.fd_cert.Claims.{claim_in};
ghost use Rattle.fd_settle.specs.fd_enclosure.Sound.{number_at};
ghost use Rattle.fd_settle.specs.fd_equations.Rounded.{list_of};
ghost use Rattle.fd_settle.specs.fd_mat.Rows.{row_of};
ghost use Rattle.fd_lines.specs.fd_outside.Emitted.{pieces_of};
ghost use Rattle.fd_certfile.specs.Blocks.{act_line};
ghost use Rattle.fd_certfile.specs.Lines.{line_bytes, solution};
ghost use Rattle.fd_certfile.specs.Rounds.{AreNumbers, IsRoundOf, act_of, block_of, AreLinesOf, AreReadAs, part_bytes, row_bytes};

use crate::texts::row_record;
use fd_lines::{Record, line_record};
use fd_settle::{Act, Certified, Dense, Network, Round};
use std::alloc::{AllocError, Global};

fn solution_record(
    alloc: Global,
    number: u32,
    hour: u32,
    round: u32,
    size: u32,
) -> Result<Record, AllocError>
    ensures { IfOk result (λ r. r.bytes ≡ line_bytes (solution (pos number) (pos hour) (pos round) (pos size))) }
{
    let numbers = [
        i128::from(number),
        i128::from(hour),
        i128::from(round),
        i128::from(size),
    ];
    line_record(alloc, b"solution", &numbers, &[])
}

fn part_record(alloc: Global, place: u32, certified: &Certified) -> Result<Record, AllocError>
    requires centre { place < length certified.now.ball.centre.items }
    requires radii { place < length certified.now.ball.radius.items }
    requires mismatches { place < length certified.now.mismatch.items }
    requires small_radius { number_at certified.now.ball.radius.items place < 2 ^ 127 }
    requires small_mismatch { number_at certified.now.mismatch.items place < 2 ^ 127 }
    ensures { IfOk result (λ r. r.bytes ≡ part_bytes (claim_in certified.now) place) }
{
    let centre = certified.ball.centre[place as usize];
    let radius = certified.ball.radius[place as usize] as i128;
    let mismatch = certified.mismatch[place as usize] as i128;
    let numbers = [i128::from(place), centre, radius, mismatch];
    line_record(alloc, b"x", &numbers, &[])
}

fn act_record(alloc: Global, act: &Act) -> Result<Record, AllocError>
    ensures line { IfOk result (λ r. r.bytes ≡ line_bytes (act_line (act_of act.now))) }
    ensures small { AreNumbers (act_of act.now) }
{
    let numbers = [
        i128::from(act.time),
        i128::from(act.control),
        i128::from(act.steps),
    ];
    line_record(alloc, b"act", &numbers, &[])
}

// Adds the lines of unknowns.
fn push_parts(
    alloc: Global,
    records: &mut Vec<Record>,
    size: u32,
    certified: &Certified,
) -> Result<(), AllocError>
    requires centre { length certified.now.ball.centre.items ≡ size }
    requires radii { length certified.now.ball.radius.items ≡ size }
    requires mismatches { length certified.now.mismatch.items ≡ size }
    requires small_radii { (i : ℕ) → i < size → number_at certified.now.ball.radius.items i < 2 ^ 127 }
    requires small_mismatches { (i : ℕ) → i < size → number_at certified.now.mismatch.items i < 2 ^ 127 }
    ensures { OnOk result (pieces_of records.new.items ≡ pieces_of records.old.items ++ list_of size (part_bytes (claim_in certified.now))) }
{
    for place in 0..size {
        records.push(part_record(alloc, place, certified)?)?;
    }
    Ok(())
}

// Adds the rows of an inverse.
fn push_rows(alloc: Global, records: &mut Vec<Record>, inverse: &Dense) -> Result<(), AllocError>
    ensures lines { OnOk result (pieces_of records.new.items ≡ pieces_of records.old.items ++ list_of (length inverse.now) (row_bytes inverse.now)) }
    ensures wide { OnOk result ((i : ℕ) → i < length inverse.now → length (row_of inverse.now i) ≡ length inverse.now) }
{
    let mut text = Vec::new(alloc);
    for place in 0..inverse.size() {
        let row = inverse.row(place);
        records.push(row_record(alloc, &mut text, i128::from(place), row)?)?;
    }
    Ok(())
}

// Adds the lines of acts.
fn push_acts(alloc: Global, records: &mut Vec<Record>, acts: &[Act]) -> Result<(), AllocError>
    ensures lines { OnOk result (pieces_of records.new.items ≡ pieces_of records.old.items ++ map line_bytes (map act_line (map act_of acts.now))) }
    ensures small { OnOk result (All (λ a. AreNumbers (act_of a)) acts.now) }
{
    for act in acts {
        records.push(act_record(alloc, act)?)?;
    }
    Ok(())
}

/// The lines of a round of a network's settle, one record each: its solution line, its unknowns, the rows of its
/// inverse as version 2 has them, and its acts. `number` is that of the settle in the run, from 1; the hour is 0 in a snapshot; rounds count
/// from 0. The network serves for its size alone. The text has one number of the round after another, so it takes the
/// time and the memory of its bytes.
///
/// # Errors
/// `AllocError` where memory is refused.
pub fn write_block(
    alloc: Global,
    net: &Network,
    number: u32,
    hour: u32,
    round: u32,
    made: &Round,
) -> Result<Vec<Record>, AllocError>
    requires { IsRoundOf net.now.rows.size made.now }
    // The lines are those of the block.
    ensures lines { IfOk result (λ rs. AreLinesOf (pieces_of rs.items) (block_of net.now.rows.size number hour round made.now)) }
    // They are read again as exactly that block, whatever lines that are no acts follow.
    ensures read { IfOk result (λ rs. AreReadAs (pieces_of rs.items) (block_of net.now.rows.size number hour round made.now)) }
{
    let size = net.size();
    let certified = made.certified.as_ref();
    let mut records = Vec::new(alloc);
    records.push(solution_record(alloc, number, hour, round, size)?)?;
    push_parts(alloc, &mut records, size, certified)?;
    push_rows(alloc, &mut records, certified.inverse())?;
    push_acts(alloc, &mut records, &made.acts)?;
    Ok(records)
}
