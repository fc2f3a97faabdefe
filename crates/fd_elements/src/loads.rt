// The part loads of a load's phases.
ghost use Rattle.std.specs.Prelude.{◌≡◌, ◌*◌, ◌^◌, ◌≤◌, ℤ, pos, ◌≤ℤ◌, nat_abs};
ghost use Rattle.dss_model.specs.Ranges.{ones, IsBetween, IsShare};
ghost use Rattle.dss_model.specs.InRange.{LoadInRange, ZipSharesInRange};
ghost use Rattle.fd_load.specs.Current.{AreLoadVoltages};
ghost use Rattle.fd_elements.specs.Volts.{part_of as volts_part};
ghost use Rattle.fd_load.specs.Zip.{AreShares, IsZipPhase};
ghost use Rattle.fd_elements.specs.Loads.{current_shares as current_by_shares, impedance_shares as impedance_by_shares, power_shares as power_by_shares, load_phase_of, shares_of as shares_by_load, sole_model as model_by_kind, zip_phase_of};

use crate::connections::conn_of;
use crate::powers::LoadPower;
use crate::volts::part_of;
use dss_model::{Load, LoadKind, LoadModel, Shares, ZipShares};
use fd_line::{LoadPhase, phase_volts};
use fd_load::{PartShares, ZipPhase};

const NO_SHARES: Shares = Shares {
    impedance: 0,
    current: 0,
    power: 0,
};

/// The model of the one part load that each phase has; a phase of model 8 has three.
pub fn sole_model(kind: LoadKind) -> Option<LoadModel>
    ensures { result ≡ model_by_kind kind }
{
    match kind {
        LoadKind::ConstantPower => Some(LoadModel::ConstantPower),
        LoadKind::ConstantImpedance => Some(LoadModel::ConstantImpedance),
        LoadKind::ConstantCurrent => Some(LoadModel::ConstantCurrent),
        LoadKind::Zip => None,
    }
}

/// One phase of a load as a part load of this model with this power, its nominal voltage in whole microvolts, and the
/// limits between which the model holds. The nominal voltage is kv, and for three phases in wye kv over root three, to
/// the nearest microvolt; the limits are its parts by vminpu and vmaxpu, to the nearest. Takes no memory.
pub fn load_phase(load: &Load, model: LoadModel, power: &LoadPower) -> LoadPhase
    requires { LoadInRange load.now }
    ensures phase { result ≡ load_phase_of load.now model power.now }
    ensures voltages { AreLoadVoltages result }
{
    let vn = phase_volts(load.phases, conn_of(load.conn), load.kv);
    LoadPhase {
        model,
        p: power.p,
        q: power.q,
        vn,
        vlo: low(load.vminpu, vn),
        vhi: high(load.vmaxpu, vn),
    }
}

/// One phase of a load of model 8 with this power: the shares of its three part loads, and the voltages of
/// `load_phase`. Takes no memory.
pub fn zip_phase(load: &Load, power: &LoadPower) -> ZipPhase
    requires range { LoadInRange load.now }
    requires p { nat_abs power.now.p ≤ 10 ^ 17 }
    requires q { nat_abs power.now.q ≤ 10 ^ 17 }
    ensures phase { result ≡ zip_phase_of load.now power.now }
    ensures fit { IsZipPhase result }
{
    let vn = phase_volts(load.phases, conn_of(load.conn), load.kv);
    let shares = shares_of(load);
    ZipPhase {
        p: power.p,
        q: power.q,
        impedance: impedance_shares(&shares),
        current: current_shares(&shares),
        power: power_shares(&shares),
        vn,
        vlo: low(load.vminpu, vn),
        vhi: high(load.vmaxpu, vn),
    }
}

// The shares of a load.
fn shares_of(load: &Load) -> ZipShares
    requires { LoadInRange load.now }
    ensures value { result ≡ shares_by_load load.now }
    ensures range { ZipSharesInRange result }
{
    load.zipv.unwrap_or(ZipShares {
        p: NO_SHARES,
        q: NO_SHARES,
    })
}

fn impedance_shares(shares: &ZipShares) -> PartShares
    requires { ZipSharesInRange shares.now }
    ensures value { result ≡ impedance_by_shares shares.now }
    ensures small { AreShares result }
{
    part_shares(shares.p.impedance, shares.q.impedance)
}

fn current_shares(shares: &ZipShares) -> PartShares
    requires { ZipSharesInRange shares.now }
    ensures value { result ≡ current_by_shares shares.now }
    ensures small { AreShares result }
{
    part_shares(shares.p.current, shares.q.current)
}

fn power_shares(shares: &ZipShares) -> PartShares
    requires { ZipSharesInRange shares.now }
    ensures value { result ≡ power_by_shares shares.now }
    ensures small { AreShares result }
{
    part_shares(shares.p.power, shares.q.power)
}

// What a part load has of P and of Q.
fn part_shares(p: i128, q: i128) -> PartShares
    requires p { IsShare p }
    requires q { IsShare q }
    ensures p { result.p ≡ p }
    ensures q { result.q ≡ q }
    ensures small { AreShares result }
{
    PartShares { p, q }
}

// The lower limit of a nominal voltage, a part of it in 10^-9.
fn low(part: i128, vn: i128) -> i128
    requires part { IsBetween (pos 400_000_000) (ones 1) part }
    requires vn_least { pos (5 * 10 ^ 6) ≤ℤ vn }
    requires vn_most { vn ≤ℤ pos (10 ^ 12) }
    ensures value { result ≡ volts_part part vn }
    ensures least { pos (2 * 10 ^ 6) ≤ℤ result }
    ensures most { result ≤ℤ vn }
{
    part_of(part, vn)
}

// The upper limit.
fn high(part: i128, vn: i128) -> i128
    requires part { IsBetween (ones 1) (ones 2) part }
    requires vn_least { pos (5 * 10 ^ 6) ≤ℤ vn }
    requires vn_most { vn ≤ℤ pos (10 ^ 12) }
    ensures value { result ≡ volts_part part vn }
    ensures least { vn ≤ℤ result }
    ensures most { result ≤ℤ pos (2 * 10 ^ 12) }
{
    part_of(part, vn)
}
