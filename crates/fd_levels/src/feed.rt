// How each source, Line and Transformer is fed.
ghost use Rattle.std.specs.Prelude.{◌≡◌, ◌++◌, ◌<◌, false, get_or, length, map, IfOk, OnOk};
ghost use Rattle.fd_ladder.specs.dss_layout.Nodes.{number_in};
ghost use Rattle.fd_levels.specs.Feeds.{buses_of, feed, feed_at, feeds_from, turned_feed};

use crate::buses::bus_in;
use crate::sides::{Sides, sides_of};
use fd_ladder::{Circuit, Element, ElementName, Items, Layout, NodeName, Text};
use indexmap::{IndexMap, IndexSet};
use std::alloc::{AllocError, Global};

/// The phases of a source, a Line or a Transformer of a radial circuit, as they lead from the source outwards. Buses are
/// counted from 0 in order of first mention, and behind them stands ground.
#[derive(Drop)]
pub struct Feed {
    /// The bus of its near nodes; ground for a source, and where it has none.
    pub near: usize,
    /// The bus of its far nodes.
    pub far: usize,
    /// The complex unknown of the current of its first phase.
    pub branch: u32,
    /// How many phases it has, each with a current.
    pub phases: u32,
    /// Its far nodes by number, those of its phases in order.
    pub nodes: Items<u32>,
}

fn numbers_in(alloc: Global, layout: &Layout, names: &[NodeName]) -> Result<Items<u32>, AllocError>
    ensures { IfOk result (λ numbers. numbers ≡ map (number_in layout.now.nodes) names.now) }
{
    let mut numbers = Vec::new(alloc);
    for name in names {
        numbers.push(layout.number_of(name) as u32)?;
    }
    Ok(Items::new(numbers))
}

// Phases from a first branch on, which lead from the bus of the near nodes to the far nodes.
fn feed_between(
    alloc: Global,
    layout: &Layout,
    buses: &IndexSet<Text>,
    branch: u32,
    phases: u32,
    near: &[NodeName],
    far: &[NodeName],
) -> Result<Feed, AllocError>
    requires { buses.now.keys ≡ buses_of layout.now.nodes }
    ensures { IfOk result (λ f. f ≡ feed layout.now branch phases near.now far.now) }
{
    Ok(Feed {
        near: bus_in(buses, near),
        far: bus_in(buses, far),
        branch,
        phases,
        nodes: numbers_in(alloc, layout, far)?,
    })
}

fn turned_feed(
    alloc: Global,
    layout: &Layout,
    buses: &IndexSet<Text>,
    branch: u32,
    phases: u32,
    turned: bool,
    sides: &Sides,
) -> Result<Feed, AllocError>
    requires { buses.now.keys ≡ buses_of layout.now.nodes }
    ensures { IfOk result (λ f. f ≡ turned_feed layout.now turned branch phases sides.now.first sides.now.second) }
{
    let (first, second) = (sides.first.as_slice(), sides.second.as_slice());
    if turned {
        feed_between(alloc, layout, buses, branch, phases, second, first)
    } else {
        feed_between(alloc, layout, buses, branch, phases, first, second)
    }
}

fn push_feed(
    alloc: Global,
    layout: &Layout,
    buses: &IndexSet<Text>,
    feeds: &mut Vec<Feed>,
    turned: bool,
    number: usize,
    element: &Element,
) -> Result<(), AllocError>
    requires buses { buses.now.keys ≡ buses_of layout.now.nodes }
    requires inside { number < length layout.now.branches_before }
    ensures { OnOk result (feeds.new.items ≡ feeds.old.items ++ feed_at layout.now turned number element.now) }
{
    match element {
        Element::Vsource(source) => {
            let branch = layout.first_branch(number, element);
            let sides = sides_of(alloc, element)?;
            let far = sides.first.as_slice();
            feeds.push(feed_between(alloc, layout, buses, branch, source.phases, &[], far)?)?;
        }
        Element::Line(line) => {
            let branch = layout.first_branch(number, element);
            let sides = sides_of(alloc, element)?;
            feeds.push(turned_feed(alloc, layout, buses, branch, line.phases, turned, &sides)?)?;
        }
        Element::Transformer(xfmr) => {
            let branch = layout.first_branch(number, element);
            let sides = sides_of(alloc, element)?;
            feeds.push(turned_feed(alloc, layout, buses, branch, xfmr.phases, turned, &sides)?)?;
        }
        _ => {}
    }
    Ok(())
}

fn is_turned_at(turned: &[bool], number: usize) -> bool
    ensures { result ≡ get_or turned.now number false }
{
    match turned.get(number) {
        Some(turned) => *turned,
        None => false,
    }
}

/// How each source, Line and Transformer is fed, in order of definition.
pub fn feeds_in(
    alloc: Global,
    layout: &Layout,
    buses: &IndexSet<Text>,
    elements: &IndexMap<ElementName, Element>,
    turned: &[bool],
) -> Result<Vec<Feed>, AllocError>
    requires long { length layout.now.branches_before ≡ length elements.now.entries }
    requires buses { buses.now.keys ≡ buses_of layout.now.nodes }
    ensures { IfOk result (λ feeds. feeds.items ≡ feeds_from layout.now turned.now 0 elements.now.entries) }
{
    let mut feeds = Vec::new(alloc);
    let entries = elements.as_slice();
    for number in 0..entries.len() {
        let (_, element) = entries.get_index(number).unwrap();
        let is_turned = is_turned_at(turned, number);
        push_feed(alloc, layout, buses, &mut feeds, is_turned, number, element)?;
    }
    Ok(feeds)
}
