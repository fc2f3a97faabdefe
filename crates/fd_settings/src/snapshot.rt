// The settings that a script gives.
ghost use Rattle.std.specs.Prelude.{◌≡◌, IfOk};
ghost use Rattle.std.specs.List.{flat_map};
ghost use Rattle.fd_settings.specs.Snapshot.{SnapshotLaw, closed_of, taps_of};

use crate::positions::{next_law, next_positions};
use fd_devices::{BankStates, Circuit, Positions, Taps};
use std::alloc::{AllocError, Global};

/// The taps and states as the script sets them: the positions with which a Solve starts where nothing was before.
///
/// # Errors
/// `AllocError` where the memory is refused.
pub fn script_positions(alloc: Global, circuit: &Circuit) -> Result<Positions, AllocError>
    ensures taps { IfOk result (λ p. p.taps ≡ flat_map (λ e. taps_of e.1) circuit.now.elements) }
    ensures closed { IfOk result (λ p. p.closed ≡ flat_map (λ e. closed_of e.1) circuit.now.elements) }
{
    let nothing = Positions {
        taps: Taps::new(Vec::new(alloc)),
        closed: BankStates::new(Vec::new(alloc)),
    };
    next_law();
    next_positions(alloc, circuit, &nothing)
}

/// The settings of a script have a pair of taps for each Transformer, a state for each Capacitor and a power for each phase of each
/// Load, and the taps are in range where the elements are.
pub fn snapshot_law()
    ensures { SnapshotLaw }
{}
