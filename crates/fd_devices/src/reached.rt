// The places of row and column that a transformer or a capacitor bank can reach.
ghost use Rattle.std.specs.Prelude.{◌≡◌, ◌+◌, ◌<◌, ◌^◌, ◌++◌, OnOk, IfOk, All};
ghost use Rattle.fd_xfmr.specs.fd_system.Contributions.{IsSmall};
ghost use Rattle.fd_devices.specs.Reach.{branch_places as unknowns_of_branches, bank_places as places_of_bank, transformer_places as places_of_transformer, unknowns_of};

use dss_layout::{Ends, NodeAt};
use fd_pattern::{add_cross, add_node_places};
use std::alloc::{AllocError, Global};

/// Adds the places of a transformer between its ends.
pub fn add_transformer_places(
    alloc: Global,
    places: &mut Vec<(u32, u32)>,
    phases: u32,
    at: &Ends,
) -> Result<(), AllocError>
    requires first { All IsSmall at.now.first }
    requires second { All IsSmall at.now.second }
    requires branches { at.now.branch + phases < 2 ^ 31 }
    ensures { OnOk result (places.new.items ≡ places.old.items ++ places_of_transformer phases at.now) }
{
    let mut nodes = Vec::new(alloc);
    add_nodes(&mut nodes, at.first.as_slice())?;
    add_nodes(&mut nodes, at.second.as_slice())?;
    let branches = branch_places(alloc, at.branch, phases)?;
    add_cross(places, &branches, &nodes)?;
    add_cross(places, &nodes, &branches)?;
    add_cross(places, &branches, &branches)
}

/// Adds the places of a capacitor bank at its nodes.
pub fn add_bank_places(
    alloc: Global,
    places: &mut Vec<(u32, u32)>,
    at: &Ends,
) -> Result<(), AllocError>
    requires { All IsSmall at.now.first }
    ensures { OnOk result (places.new.items ≡ places.old.items ++ places_of_bank at.now) }
{
    let mut nodes = Vec::new(alloc);
    add_nodes(&mut nodes, at.first.as_slice())?;
    add_cross(places, &nodes, &nodes)
}

fn add_nodes(at: &mut Vec<u32>, nodes: &[NodeAt]) -> Result<(), AllocError>
    requires { All IsSmall nodes.now }
    ensures { OnOk result (at.new.items ≡ at.old.items ++ unknowns_of nodes.now) }
{
    for node in nodes {
        add_node_places(at, *node)?;
    }
    Ok(())
}

// The unknowns of so many branches from this one on.
fn branch_places(alloc: Global, branch: u32, phases: u32) -> Result<Vec<u32>, AllocError>
    requires { branch + phases < 2 ^ 31 }
    ensures { IfOk result (λ at. at.items ≡ unknowns_of_branches branch phases) }
{
    let mut at = Vec::new(alloc);
    for k in 0..phases {
        add_node_places(&mut at, NodeAt::Node(branch + k))?;
    }
    Ok(at)
}
