// The data of transformers and capacitor banks.
ghost use Rattle.std.specs.Prelude.{◌≡◌};
ghost use Rattle.dss_layout.specs.dss_model.InRange.{CapacitorInRange, TransformerInRange};
ghost use Rattle.fd_xfmr.specs.Leakage.{IsXfmr};
ghost use Rattle.fd_cap.specs.Capacitor.{IsCap};
ghost use Rattle.fd_devices.specs.Data.{cap_data_of, xfmr_data_of};

use dss_layout::{Capacitor, Transformer};
use fd_cap::CapData;
use fd_elements::conn_of;
use fd_xfmr::XfmrData;

/// The data of a transformer by its values in the script, numbers in whole 10^-9. The rated powers of its windings are equal, so that
/// of the first counts. Takes no memory.
pub fn xfmr_data(xfmr: &Transformer) -> XfmrData
    requires { TransformerInRange xfmr.now }
    ensures value { result ≡ xfmr_data_of xfmr.now }
    ensures within { IsXfmr result }
{
    XfmrData {
        phases: xfmr.phases,
        conn: [conn_of(xfmr.first.conn), conn_of(xfmr.second.conn)],
        kv: [xfmr.first.kv, xfmr.second.kv],
        kva: xfmr.first.kva,
        pct_r: [xfmr.first.pct_r, xfmr.second.pct_r],
        xhl: xfmr.xhl,
    }
}

/// The data of a capacitor bank by its values in the script, numbers in whole 10^-9. Takes no memory.
pub fn cap_data(bank: &Capacitor) -> CapData
    requires { CapacitorInRange bank.now }
    ensures value { result ≡ cap_data_of bank.now }
    ensures within { IsCap result }
{
    CapData {
        phases: bank.phases,
        conn: conn_of(bank.conn),
        kvar: bank.kvar,
        kv: bank.kv,
    }
}
