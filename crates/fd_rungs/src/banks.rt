// The shunts of a Capacitor.
ghost use Rattle.std.specs.Prelude.{◌≡◌, ◌≤◌, ◌<◌, ◌*◌, ◌+◌, ◌++◌, ◌^◌, true, nat_abs, length, OnOk, All};
ghost use Rattle.fd_pattern.specs.fd_system.Terminals.{IsSide, node_count};
ghost use Rattle.fd_cap.specs.Capacitor.{IsCap, cap_power, volts_squared};
ghost use Rattle.fd_rungs.specs.Branches.{IsShunt};
ghost use Rattle.fd_rungs.specs.Elements.{bank_phase, bank_shunts};
ghost use Rattle.fd_rungs.specs.Numbers.{coefficient, IsSmallCoefficient};

use crate::branch::Shunt;
use crate::coefficients::coefficient;
use dss_model::Ends;
use fd_cap::{CapData, admittance};
use fd_xfmr::{phase_pair, phase_pairs};
use std::alloc::AllocError;

// Q / V^2 of a phase, in whole 2^-40.
fn charge_of(bank: &CapData) -> i128
    requires { IsCap bank.now }
    ensures value { result ≡ coefficient (cap_power bank.now) (volts_squared bank.now) }
    ensures small { IsSmallCoefficient result }
{
    let (power, over) = admittance(bank);
    coefficient(power, over.unsigned_abs())
}

// Phase k.
fn bank_phase(bank: &CapData, at: &Ends, k: u32) -> Shunt
    requires bank { IsCap bank.now }
    requires at { IsSide (node_count bank.now.phases) at.now.first }
    requires k_in { k < bank.now.phases }
    ensures value { result ≡ bank_phase bank.now at.now k }
    ensures small { IsShunt result }
{
    let pair = phase_pair(&at.first, phase_pairs(bank.phases, bank.conn), k);
    Shunt {
        charge: charge_of(bank),
        across: pair,
        into: pair,
    }
}

// All phases.
fn add_phases(shunts: &mut Vec<Shunt>, bank: &CapData, at: &Ends) -> Result<(), AllocError>
    requires bank { IsCap bank.now }
    requires at { IsSide (node_count bank.now.phases) at.now.first }
    requires shunts { All IsShunt shunts.old.items }
    ensures value { OnOk result (shunts.new.items ≡ shunts.old.items ++ bank_shunts bank.now true at.now) }
    ensures small { OnOk result (All IsShunt shunts.new.items) }
    ensures few { OnOk result (length shunts.new.items ≤ length shunts.old.items + 3) }
{
    for k in 0..bank.phases {
        shunts.push(bank_phase(bank, at, k))?;
    }
    Ok(())
}

/// Adds the shunts of a Capacitor at its nodes, if it is closed (Kersting, shunt capacitor banks).
pub fn add_bank_shunts(
    shunts: &mut Vec<Shunt>,
    bank: &CapData,
    closed: bool,
    at: &Ends,
) -> Result<(), AllocError>
    requires bank { IsCap bank.now }
    requires at { IsSide (node_count bank.now.phases) at.now.first }
    requires shunts { All IsShunt shunts.old.items }
    ensures value { OnOk result (shunts.new.items ≡ shunts.old.items ++ bank_shunts bank.now closed at.now) }
    ensures small { OnOk result (All IsShunt shunts.new.items) }
    ensures few { OnOk result (length shunts.new.items ≤ length shunts.old.items + 3) }
{
    if closed {
        add_phases(shunts, bank, at)
    } else {
        Ok(())
    }
}
