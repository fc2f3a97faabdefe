// A small feeder at the positions and powers of its script.
ghost use Rattle.std.specs.Prelude.{◌↔◌, IfOk, IsTrue};
ghost use Rattle.fd_settings.specs.fd_xfmr.Leakage.{AreTaps};
ghost use Rattle.fd_settings.specs.fd_devices.Building.{IsModest};
ghost use Rattle.fd_settings.specs.fd_devices.Settings.{AreSettings, settings_of};
ghost use Rattle.fd_network.specs.Built.{IsBuiltOf};

use crate::checks::{holds, same};
use crate::circuits::{Row, circuit, is_ready};
use dss_commands::Circuit;
use dss_script::{NodeAt, TapPair};
use fd_network::Network;
use fd_settings::{
    BuildFault, LoadPower, Positions, Powers, hours_law, powers_at, script_positions, snapshot_law,
};
use std::alloc::{AllocError, Global};
use std::process::Abort;
use std::test::Fail;

// Behind a source and a line stand a transformer off its nominal taps, a bank that is open, and a load.
const FEEDER: [Row<'static>; 5] = [
    ("Circuit", "h", "basekv=1 phases=1 r1=1 x1=0 r0=1 x0=0"),
    (
        "Line",
        "l",
        "phases=1 bus1=sourcebus.1 bus2=b.1 r1=9 x1=0 r0=9 x0=0",
    ),
    (
        "Transformer",
        "t",
        "phases=1 buses=[b.1 c.1] kvs=[1 0.5] taps=[1.05 0.9875]",
    ),
    (
        "Capacitor",
        "k",
        "phases=1 bus1=c.1 kv=0.5 kvar=30 states=[0]",
    ),
    (
        "Load",
        "d",
        "phases=1 bus1=c.1 kv=0.5 kw=1 kvar=0 vminpu=0.85 model=2",
    ),
];

// The positions and the powers of a script.
#[derive(Drop)]
struct Settings {
    at: Positions,
    powers: Powers,
}

fn script_settings(alloc: Global, circuit: &Circuit) -> Result<Settings, AllocError>
    ensures { IfOk result (λ s. AreSettings circuit.now.elements (settings_of s.at s.powers)) }
{
    snapshot_law();
    hours_law();
    Ok(Settings {
        at: script_positions(alloc, circuit)?,
        powers: powers_at(alloc, circuit, 0)?,
    })
}

fn is_tap(taps: &TapPair) -> bool
    ensures { IsTrue result ↔ AreTaps taps.now }
{
    taps.first >= 50_000 && taps.first <= 200_000 && taps.second >= 50_000 && taps.second <= 200_000
}

fn is_modest(power: &LoadPower) -> bool
    ensures { IsTrue result ↔ IsModest power.now }
{
    power.p.unsigned_abs() <= 100_000_000_000_000_000
        && power.q.unsigned_abs() <= 100_000_000_000_000_000
}

// The network of a circuit at the positions and powers of its script.
fn built(rt: &impl Abort, alloc: Global, circuit: &Circuit) -> Result<Network, AllocError>
    ensures { IfOk result (λ net. IsBuiltOf net circuit.now) }
{
    let settings = script_settings(alloc, circuit)?;
    let (taps, loads) = (
        settings.at.taps.as_slice(),
        settings.powers.loads.as_slice(),
    );
    holds(rt, is_ready(alloc, circuit));
    holds(rt, taps.iter().all(|taps| is_tap(taps)));
    holds(rt, loads.iter().all(|power| is_modest(power)));
    match Network::build(alloc, circuit, &settings.at, &settings.powers) {
        Ok(net) => Ok(net),
        Err(BuildFault::Range(_)) => panic!(rt; "the network is out of range"),
        Err(BuildFault::NoMemory) => Err(AllocError),
    }
}

// The nodes come first, and the branch of the source before that of the line.
#[test]
fn ends_of_the_line(rt: HostRuntime) -> Result<(), Fail> {
    let alloc = rt.alloc();
    let circuit = circuit(alloc, &FEEDER)?;
    let net = built(&rt, alloc, &circuit)?;
    holds(&rt, circuit.elements().len() > 1);
    let ends = net.ends_of(alloc, &circuit, 1)?;
    same(&rt, ends.first.as_slice(), [NodeAt::Node(0)].as_slice());
    same(&rt, ends.second.as_slice(), [NodeAt::Node(1)].as_slice());
    same(&rt, ends.branch, 4);
    Ok(())
}

#[test]
fn positions_of_the_script(rt: HostRuntime) -> Result<(), Fail> {
    let circuit = circuit(rt.alloc(), &FEEDER)?;
    let at = script_positions(rt.alloc(), &circuit)?;
    holds(&rt, at.taps.as_slice().len() == 1);
    let taps = at.taps.as_slice()[0];
    same(&rt, (taps.first, taps.second), (105_000, 98_750));
    same(&rt, at.closed.as_slice(), &[false]);
    Ok(())
}
