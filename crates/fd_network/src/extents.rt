// What elements add, one after another in one list of each kind, with how much of it each has.
ghost use Rattle.std.specs.Prelude.{◌≡◌, ◌+◌, ◌<◌, ◌≤◌, ◌^◌, ◌++◌, ◌∷◌, [], IfOk, length, vec_capacity};
ghost use Rattle.fd_devices.specs.fd_system.Stamps.{stamp_of};
ghost use Rattle.fd_devices.specs.fd_system.System.{beside, joined};
ghost use Rattle.fd_network.specs.Former.{HasFirst, first_extent, first_stamp, lists_in};
ghost use Rattle.fd_network.specs.Stamps.{HaveStampsRoom, IsStampsRoomSame, extent_of};

use crate::former::StampSlices;
use crate::room::Room;
use fd_devices::Stamp;
use std::alloc::{AllocError, Global};

/// How many constants, contributions and part loads an element adds, and what it draws at nominal voltage, in whole microamperes.
#[derive(Clone, Copy, Debug)]
pub struct Extent {
    pub constants: usize,
    pub terms: usize,
    pub loads: usize,
    pub draw: u128,
}

impl Extent {
    /// How much one element adds.
    pub fn of(one: &Stamp) -> Self
        ensures { result ≡ extent_of (stamp_of one.now) }
    {
        Extent {
            constants: one.constants.len(),
            terms: one.terms.len(),
            loads: one.loads.len(),
            draw: one.draw,
        }
    }
}

/// What elements add, one after another, and how much of it each has.
#[derive(Drop)]
pub struct Stamps {
    pub all: Stamp,
    pub extents: Vec<Extent>,
}

impl Stamps {
    /// What no element adds, with this room.
    ///
    /// # Errors
    /// `AllocError` where the memory is refused.
    pub fn with_room(alloc: Global, room: Room) -> Result<Self, AllocError>
        ensures { IfOk result (HaveStampsRoom room) }
    {
        Ok(Stamps {
            all: Stamp::with_room(alloc, room.terms, room.loads, room.constants)?,
            extents: Vec::with_capacity(alloc, room.elements)?,
        })
    }

    /// Takes out what was added. The lists keep their room.
    pub fn clear(&mut self)
        ensures stamp { stamp_of self.new.all ≡ joined [] }
        ensures extents { self.new.extents.items ≡ [] }
        ensures room { IsStampsRoomSame self.old self.new }
    {
        self.all.clear();
        self.extents.clear();
    }

    /// Adds what one more element adds, for which the lists have room. Takes no memory.
    pub fn push_reserved(&mut self, one: &Stamp)
        requires draw { self.old.all.draw + one.now.draw < 2 ^ 128 }
        requires terms { length self.old.all.terms.items + length one.now.terms.items
            ≤ vec_capacity self.old.all.terms }
        requires loads { length self.old.all.loads.items + length one.now.loads.items
            ≤ vec_capacity self.old.all.loads }
        requires constants { length self.old.all.constants.items + length one.now.constants.items
            ≤ vec_capacity self.old.all.constants }
        requires extents { length self.old.extents.items + 1 ≤ vec_capacity self.old.extents }
        ensures stamp { stamp_of self.new.all ≡ beside (stamp_of self.old.all) (stamp_of one.now) }
        ensures extents { self.new.extents.items ≡ self.old.extents.items ++ extent_of (stamp_of one.now) ∷ [] }
        ensures room { IsStampsRoomSame self.old self.new }
    {
        self.all.append_reserved(one);
        self.extents.push_reserved(Extent::of(one));
    }

    /// Adds the first of other stamps as it stands there; the lists have room for it. Takes no memory.
    pub fn push_first(&mut self, others: &StampSlices)
        requires first { HasFirst (lists_in others.now) }
        requires draw { self.old.all.draw + (first_extent (lists_in others.now)).draw < 2 ^ 128 }
        requires terms { length self.old.all.terms.items + (first_extent (lists_in others.now)).terms
            ≤ vec_capacity self.old.all.terms }
        requires loads { length self.old.all.loads.items + (first_extent (lists_in others.now)).loads
            ≤ vec_capacity self.old.all.loads }
        requires constants { length self.old.all.constants.items + (first_extent (lists_in others.now)).constants
            ≤ vec_capacity self.old.all.constants }
        requires extents { length self.old.extents.items + 1 ≤ vec_capacity self.old.extents }
        ensures stamp { stamp_of self.new.all ≡ beside (stamp_of self.old.all) (first_stamp (lists_in others.now)) }
        ensures extents { self.new.extents.items ≡ self.old.extents.items ++ first_extent (lists_in others.now) ∷ [] }
        ensures room { IsStampsRoomSame self.old self.new }
    {
        let first = others.extents[0];
        extend_reserved(
            &mut self.all.constants,
            &others.constants[..first.constants],
        );
        extend_reserved(&mut self.all.terms, &others.terms[..first.terms]);
        extend_reserved(&mut self.all.loads, &others.loads[..first.loads]);
        self.all.draw += first.draw;
        self.extents.push_reserved(first);
    }
}

// Adds these items, for which the list has room.
fn extend_reserved<T: Copy>(list: &mut Vec<T>, more: &[T])
    requires room { length list.old.items + length more.now ≤ vec_capacity list.old }
    ensures items { list.new.items ≡ list.old.items ++ more.now }
    ensures capacity { vec_capacity list.new ≡ vec_capacity list.old }
{
    for item in more {
        list.push_reserved(*item);
    }
}
