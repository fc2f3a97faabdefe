// Scripted Lines and sources.
ghost use Rattle.std.specs.Prelude.{◌≡◌, ◌≤◌, ◌+◌, ◌++◌, [], ◌∷◌, false, length, IfOk, IsSome, OnOk, All};
ghost use Rattle.fd_rungs.specs.dss_model.Ranges.{IsOneOf};
ghost use Rattle.fd_rungs.specs.dss_model.InRange.{LineInRange, VsourceInRange};
ghost use Rattle.fd_rungs.specs.dss_model.Sound.{are_matrices_wrong, is_source_outside};
ghost use Rattle.fd_rungs.specs.fd_line.Line.{IsBetween};
ghost use Rattle.fd_rungs.specs.fd_source.Equations.{IsPlaced};
ghost use Rattle.fd_rungs.specs.Bounds.{IsRung};
ghost use Rattle.fd_rungs.specs.Branches.{IsShunt};
ghost use Rattle.fd_series.specs.Scripted.{scripted_charges, scripted_line, scripted_source};

use fd_elements::{line_data, source_data};
use fd_rungs::{Ends, Line, Rung, Shunt, Vsource, add_line_shunts, line_rung, source_rung};
use std::alloc::{AllocError, Global};

/// The branches of a Line that is taken from its first end or from its second, at the frequency of its circuit in hertz.
pub fn scripted_line(
    alloc: Global,
    line: &Line,
    hertz: u32,
    at: &Ends,
    from_first: bool,
) -> Result<Rung, AllocError>
    requires range { LineInRange line.now }
    requires impedance { IsSome line.now.constants.form }
    requires matrices { are_matrices_wrong line.now ≡ false }
    requires frequency { IsOneOf (50 ∷ 60 ∷ []) hertz }
    requires at { IsBetween line.now.phases at.now }
    ensures value { IfOk result (λ rung. rung.branches.items ≡ scripted_line line.now hertz at.now from_first) }
    ensures small { IfOk result IsRung }
{
    let data = line_data(alloc, line, hertz)?;
    line_rung(alloc, &data, at, from_first)
}

/// Adds the charging of a Line at both its ends.
pub fn add_charges(
    alloc: Global,
    shunts: &mut Vec<Shunt>,
    line: &Line,
    hertz: u32,
    at: &Ends,
) -> Result<(), AllocError>
    requires range { LineInRange line.now }
    requires impedance { IsSome line.now.constants.form }
    requires matrices { are_matrices_wrong line.now ≡ false }
    requires frequency { IsOneOf (50 ∷ 60 ∷ []) hertz }
    requires at { IsBetween line.now.phases at.now }
    requires shunts { All IsShunt shunts.old.items }
    ensures value { OnOk result (shunts.new.items ≡ shunts.old.items ++ scripted_charges line.now hertz at.now) }
    ensures small { OnOk result (All IsShunt shunts.new.items) }
    ensures few { OnOk result (length shunts.new.items ≤ length shunts.old.items + 18) }
{
    let data = line_data(alloc, line, hertz)?;
    add_line_shunts(shunts, &data, at)
}

/// The branches of a source. One whose contributions are out of range has no network, and is answered as want of memory.
pub fn scripted_source(alloc: Global, source: &Vsource, at: &Ends) -> Result<Rung, AllocError>
    requires range { VsourceInRange source.now }
    requires sound { is_source_outside source.now ≡ false }
    requires at { IsPlaced source.now.phases at.now }
    ensures value { IfOk result (λ rung. rung.branches.items ≡ scripted_source source.now at.now) }
    ensures small { IfOk result IsRung }
{
    match source_data(source) {
        Ok(data) => source_rung(alloc, &data, at),
        Err(_) => unreachable!(),
    }
}
