// The acts of an hour's blocks beside those of its rounds.
ghost use Rattle.std.specs.Prelude.{◌≡◌, ◌+◌, ◌<◌, ◌≤◌, Ok, drop, length, map};
ghost use Rattle.fd_check.specs.Comparing.{acts_claimed, first_unlike, hour_told, last_line, unless_unlike, with_acts};
ghost use Rattle.fd_check.specs.Given.{AreGiven};
ghost use Rattle.fd_check.specs.declared.fault.CheckFault.TheVariants.{Refused};

use crate::fault::CheckFault;
use fd_certfile::{CertFileFault, CertReader};
use fd_daily::{Act, Rule, SettleFault};

// Whether the blocks from one on claim these acts, round by round; else the rule, at the line of the first that doesn't.
fn compare(reader: &CertReader<'_>, first: u64, rounds: &[Vec<Act>]) -> Result<(), CheckFault>
    requires { first + length rounds.now ≤ length reader.now.given }
    ensures { result ≡ unless_unlike (first_unlike (map acts_claimed rounds.now) (drop first reader.now.given)) (Ok tt) }
{
    // read for how many blocks there can be
    let _given = reader.given();
    let mut block = first;
    for acts in rounds {
        if !reader.acts_hold(block, acts) {
            return Err(CheckFault::Refused {
                line: reader.rule_line(block),
                rule: Rule::Acts,
            });
        }
        block += 1;
    }
    Ok(())
}

// A rule that the last block breaks.
fn broken_at_last(reader: &CertReader<'_>, rule: Rule) -> CheckFault
    requires { 0 < length reader.now.given }
    ensures { result ≡ Refused (last_line reader.now) rule }
{
    CheckFault::Refused {
        line: reader.rule_line(reader.given() - 1),
        rule,
    }
}

/// What an hour comes to whose settle ended so, and whose rounds made these acts. The blocks from one on are those of its
/// rounds. Their acts are compared in order, but for the last where its sample is undecided, and only then comes how the
/// settle ended.
pub(crate) fn judge_hour(
    reader: &CertReader<'_>,
    first: u64,
    rounds: &[Vec<Act>],
    ended: Result<(), SettleFault<CertFileFault>>,
) -> Result<(), CheckFault>
    requires { AreGiven ended first (length rounds.now) (length reader.now.given) }
    ensures { result ≡ hour_told reader.now ended (first_unlike (map acts_claimed (with_acts ended rounds.now)) (drop first reader.now.given)) }
{
    match ended {
        Ok(()) => compare(reader, first, rounds),
        Err(SettleFault::Undecided { .. }) => {
            compare(reader, first, &rounds[..rounds.len() - 1])?;
            Err(broken_at_last(reader, Rule::Undecided))
        }
        Err(SettleFault::ControlLimit { .. }) => {
            compare(reader, first, rounds)?;
            Err(broken_at_last(reader, Rule::ControlLimit))
        }
        Err(SettleFault::Range(blame)) => {
            compare(reader, first, rounds)?;
            Err(CheckFault::Range(blame))
        }
        Err(SettleFault::Solver(CertFileFault::Refused { line, rule })) => {
            compare(reader, first, rounds)?;
            Err(CheckFault::Refused { line, rule })
        }
        Err(SettleFault::Solver(CertFileFault::NoMemory)) | Err(SettleFault::NoMemory) => {
            Err(CheckFault::NoMemory)
        }
    }
}
