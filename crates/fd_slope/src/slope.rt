// Slopes and their radii by the model.
ghost use Rattle.std.specs.Prelude.{◌≡◌};
ghost use Rattle.fd_load.specs.Current.{AreVoltages, IsLoadPhase};
ghost use Rattle.fd_load.specs.Slopes.{slopes_of};
ghost use Rattle.fd_slope.specs.Boxes.{IsAround};
ghost use Rattle.fd_slope.specs.Radii.{AreRadii, AreWidths, current_radii as radii_of_current, power_radii as radii_of_power, radii_of};

use crate::around::Around;
use crate::current::{magnitude_radius, row_radii, voltage_radius};
use crate::power::power_radius;
use crate::radii::{LEVEL, NO_RADII, Radii, RadiusRow};
use fd_load::{LoadModel, LoadPhase, Slopes, rounded_slopes};

/// The slopes of a load phase's rows at a centre, and their radii in a box, both in whole 2^-40.
#[derive(Clone, Copy, PartialEq, Eq, Debug)]
pub struct Slope {
    pub at: Slopes,
    pub radius: Radii,
}

/// The slopes of the rows of a load phase at a terminal voltage p + j q and a magnitude m, in whole microvolts, and their radii in the box
/// around it whose half-widths are rp, rq and rm. The slopes are those of the rounded Jacobian. The radii have three cases: where the box
/// keeps the voltage (the magnitude, for a constant current) within the load's limits, where it keeps it outside of both, and where it
/// straddles one. A constant impedance has neither: its current is linear, and the system has its contributions.
///
/// The voltages and the half-widths are at most 2^41 in size; the load is within the ranges of the script profile. The rule is this
/// profile's.
pub fn load_slope(
    load: &LoadPhase,
    p: i128,
    q: i128,
    m: i128,
    rp: u128,
    rq: u128,
    rm: u128,
) -> Slope
    requires load { IsLoadPhase load.now }
    requires voltages { AreVoltages p q m }
    requires widths { AreWidths rp rq rm }
    ensures at { result.at ≡ slopes_of load.now p q m }
    ensures radius { result.radius ≡ radii_of load.now p q m rp rq rm }
    ensures most { AreRadii result.radius }
{
    let around = Around {
        p,
        q,
        m,
        rp,
        rq,
        rm,
    };
    Slope {
        at: rounded_slopes(load, p, q, m),
        radius: radii(load, &around),
    }
}

fn radii(load: &LoadPhase, b: &Around) -> Radii
    requires load { IsLoadPhase load.now }
    requires around { IsAround b.now }
    ensures value { result ≡ radii_of load.now b.now.p b.now.q b.now.m b.now.rp b.now.rq b.now.rm }
    ensures most { AreRadii result }
{
    match load.model {
        LoadModel::ConstantPower => power_radii(load, b),
        LoadModel::ConstantImpedance => NO_RADII,
        LoadModel::ConstantCurrent => current_radii(load, b),
    }
}

// The real and the imaginary part of the current of constant power have the same radii, and its magnitude has no row.
fn power_radii(load: &LoadPhase, b: &Around) -> Radii
    requires load { IsLoadPhase load.now }
    requires around { IsAround b.now }
    ensures value { result ≡ radii_of_power load.now b.now.p b.now.q b.now.rp b.now.rq }
    ensures most { AreRadii result }
{
    let radius = power_radius(load, b);
    let row = RadiusRow {
        p: radius,
        q: radius,
        m: 0,
    };
    Radii {
        real: row,
        imaginary: row,
        magnitude: LEVEL,
    }
}

fn current_radii(load: &LoadPhase, b: &Around) -> Radii
    requires load { IsLoadPhase load.now }
    requires around { IsAround b.now }
    ensures value { result ≡ radii_of_current load.now b.now.p b.now.q b.now.m b.now.rp b.now.rq b.now.rm }
    ensures most { AreRadii result }
{
    let radius = voltage_radius(load, b);
    let row = RadiusRow {
        p: radius,
        q: radius,
        m: magnitude_radius(load, b),
    };
    Radii {
        real: row,
        imaginary: row,
        magnitude: row_radii(load, b),
    }
}
