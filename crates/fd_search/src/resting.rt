// Steps until one moves no unknown by more than its tolerance.
ghost use Rattle.std.specs.Prelude.{◌≡◌, ◌+◌, ◌<◌, ◌≤◌, length, IfOk, OnOk, MatchResult};
ghost use Rattle.fd_inject.specs.Procedure.{IsLimits};
ghost use Rattle.fd_inject.specs.fd_equations.fd_pattern.Conditions.{IsPoint};
ghost use Rattle.fd_substitution.specs.Substitution.{CanStep};
ghost use Rattle.fd_search.specs.Stages.{HasNoTest, IsTested};
ghost use Rattle.fd_search.specs.States.{ComeToRest, HaveNoRest, state_after};

use crate::steps::step;
use fd_inject::{Limits, NetworkRows, SolveFault, first_moving};
use fd_substitution::{Pair, Row};
use std::alloc::Global;

// Takes a step from a state behind so many others, and tells whether it is the last.
fn step_on(
    alloc: Global,
    net: &NetworkRows,
    limits: &Limits,
    rows: &[Row],
    order: &[Pair],
    x: &mut [i128],
    number: u32,
) -> Result<bool, SolveFault>
    requires limits { IsLimits limits.now }
    requires ready { CanStep rows.now order.now }
    requires long { length order.now ≡ net.now.size }
    requires point { IsPoint net.now x.old }
    requires number { number < limits.now.max_iterations }
    ensures tested { MatchResult result (IsTested net.now order.now rows.now limits.now x.old x.new number)
        (HasNoTest net.now order.now rows.now limits.now x.old number) }
    ensures point { OnOk result (IsPoint net.now x.new) }
{
    let update = step(alloc, net, rows, order, x, number)?;
    let moving = first_moving(alloc, net, limits, x, &update)?;
    let steps = number + 1;
    match moving {
        None => Ok(true),
        Some(place) => {
            if steps < limits.max_iterations {
                Ok(false)
            } else {
                Err(SolveFault::NotConverged {
                    place,
                    steps,
                    update: update[place as usize],
                })
            }
        }
    }
}

/// Takes steps from a state until one moves no voltage and no magnitude by more than its tolerance, and gives their number.
/// `x` is then the state that they lead to, in whole microvolts and microamperes.
///
/// # Errors
/// `OutOfRange`, with the number of steps that are done, as of `fall`. `NotConverged`: the step `max_iterations` still
/// moves a part of a node or a magnitude by more. `NoMemory` where memory is refused.
pub fn come_to_rest(
    alloc: Global,
    net: &NetworkRows,
    limits: &Limits,
    rows: &[Row],
    order: &[Pair],
    x: &mut [i128],
) -> Result<u32, SolveFault>
    requires limits { IsLimits limits.now }
    requires ready { CanStep rows.now order.now }
    requires long { length order.now ≡ net.now.size }
    requires point { IsPoint net.now x.old }
    ensures rest { MatchResult result (ComeToRest net.now order.now rows.now x.old limits.now)
        (HaveNoRest net.now order.now rows.now x.old limits.now) }
    ensures state { IfOk result (λ steps. x.new ≡ state_after net.now order.now rows.now x.old steps) }
    ensures few { IfOk result (λ steps. steps ≤ 1000) }
    ensures point { OnOk result (IsPoint net.now x.new) }
{
    for number in 0..limits.max_iterations {
        let is_last = step_on(alloc, net, limits, rows, order, x, number)?;
        if is_last {
            return Ok(number + 1);
        }
    }
    Ok(limits.max_iterations)
}
