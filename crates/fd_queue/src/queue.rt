// The timed queue.
ghost use Rattle.std.specs.Prelude.{◌≡◌, ◌+◌, ◌-◌, ◌^◌, ◌<◌, ◌≤◌, false, [], length, IfOk, vec_capacity};
ghost use Rattle.std.specs.List.{list_any};
ghost use Rattle.fd_queue.specs.Decisions.{is_way};
ghost use Rattle.fd_queue.specs.Machine.{rule_of};
ghost use Rattle.fd_queue.specs.Queue.{IsQueue, entry_of, has_entry, kept_way, later, nearest, queued, without};

use crate::entry::Entry;
use crate::places::{place_after, place_of};
use crate::times::{copy_of_time, keep_others};
use crate::timing::Timing;
use std::alloc::{AllocError, Global};
use std::marker::Model;

/// The entries of controls, in order of time in milliseconds, and at one time of sequence number; a control never has
/// two. Contracts see the entries, the next sequence number, and for how many entries more there is room.
#[derive(Drop)]
pub struct Queue {
    entries: Vec<Entry>,
    next: u64,
}

impl Model for Queue {
    ghost use Rattle.std.specs.Prelude.{◌-◌, vec_len, vec_capacity};
    ghost use Rattle.fd_queue.specs.Queue.{QueueView, IsQueue};

    ghost Value = { QueueView };

    ghost view = { λ q. record {
      entries = q.entries.items;
      next = q.next;
      spare = vec_capacity q.entries - vec_len q.entries;
    } };

    ghost invariant = { λ q. IsQueue q.next q.entries.items };
}

impl Queue {
    /// An empty queue with room for this many entries, whose next sequence number is 0.
    ///
    /// # Errors
    /// `AllocError` where the memory is refused.
    pub fn with_room(alloc: Global, controls: u32) -> Result<Queue, AllocError>
        ensures empty { IfOk result (λ q. q.entries ≡ []) }
        ensures next { IfOk result (λ q. q.next ≡ 0) }
        ensures room { IfOk result (λ q. controls ≤ q.spare) }
    {
        Ok(Queue {
            entries: Vec::with_capacity(alloc, controls as usize)?,
            next: 0,
        })
    }

    /// The entries, in order.
    pub fn entries(&self) -> &[Entry]
        ensures { result.now ≡ self.now.entries }
    {
        &self.entries
    }

    /// Whether an entry is due at this time, in milliseconds.
    pub fn is_due(&self, timing: Timing, now: u64) -> bool
        ensures { result ≡ list_any ((rule_of timing).is_due now) self.now.entries }
    {
        match self.entries.first() {
            Some(first) => timing.is_due(now, first),
            None => false,
        }
    }

    /// The entry of a control, if it has one. Whatever was done to a queue, it is sorted and holds at most one entry of
    /// each control.
    pub fn find(&self, control: u32) -> Option<Entry>
        ensures entry { result ≡ entry_of control self.now.entries }
        ensures queue { IsQueue self.now.next self.now.entries }
    {
        let place = place_of(&self.entries, control);
        if place < self.entries.len() {
            Some(self.entries[place])
        } else {
            None
        }
    }

    /// Adds an entry with the next sequence number, behind those of its time and of earlier times.
    pub fn push(&mut self, time: u64, control: u32, up: bool)
        requires room { 0 < self.old.spare }
        requires none { has_entry control self.old.entries ≡ false }
        requires numbers { self.old.next < 2 ^ 64 - 1 }
        ensures entries { self.new.entries ≡ queued (record {
          time = time;
          seq = self.old.next;
          control = control;
          up = up;
        }) self.old.entries }
        ensures next { self.new.next ≡ self.old.next + 1 }
        ensures spare { self.new.spare + 1 ≡ self.old.spare }
        ensures room { self.new.spare + length self.new.entries ≡ self.old.spare + length self.old.entries }
        ensures queue { IsQueue self.new.next self.new.entries }
    {
        let place = place_after(&self.entries, time);
        let entry = Entry {
            time,
            seq: self.next,
            control,
            up,
        };
        let _ = self.entries.insert(place, entry);
        self.next += 1;
    }

    /// Takes all entries out, and numbers entries from 0 again.
    pub fn clear(&mut self)
        ensures entries { self.new.entries ≡ [] }
        ensures next { self.new.next ≡ 0 }
        ensures room { self.new.spare ≡ self.old.spare + length self.old.entries }
    {
        self.entries.clear();
        self.next = 0;
    }

    /// Takes a control's entry out, if it has one, and gives it.
    pub fn cancel(&mut self, control: u32) -> Option<Entry>
        ensures entry { result ≡ entry_of control self.old.entries }
        ensures entries { self.new.entries ≡ without control self.old.entries }
        ensures next { self.new.next ≡ self.old.next }
        ensures room { self.new.spare + length self.new.entries ≡ self.old.spare + length self.old.entries }
        ensures queue { IsQueue self.new.next self.new.entries }
    {
        let place = place_of(&self.entries, control);
        if place < self.entries.len() {
            Some(self.entries.remove(place))
        } else {
            None
        }
    }

    /// Takes a control's entry out unless it goes the way that is wanted, and says whether an entry is left.
    pub fn keep(&mut self, control: u32, wanted: Option<bool>) -> bool
        ensures left { result ≡ has_entry control self.new.entries }
        ensures entries { self.new.entries ≡ kept_way control wanted self.old.entries }
        ensures next { self.new.next ≡ self.old.next }
        ensures room { self.new.spare + length self.new.entries ≡ self.old.spare + length self.old.entries }
        ensures spare { (has_entry control self.old.entries ≡ false → 0 < self.old.spare) →
            result ≡ false → 0 < self.new.spare }
    {
        match self.find(control) {
            None => false,
            Some(entry) => {
                if goes(wanted, entry.up) {
                    true
                } else {
                    let _ = self.cancel(control);
                    false
                }
            }
        }
    }

    /// Moves all entries of the least time into a vector that is emptied before, in order of sequence number.
    /// The vector has room for all entries of the queue.
    pub fn take_nearest(&mut self, into: &mut Vec<Entry>)
        requires room { length self.old.entries ≤ vec_capacity into.old }
        ensures taken { into.new.items ≡ nearest self.old.entries }
        ensures entries { self.new.entries ≡ later self.old.entries }
        ensures next { self.new.next ≡ self.old.next }
        ensures room { self.new.spare + length self.new.entries ≡ self.old.spare + length self.old.entries }
        ensures capacity { vec_capacity into.old ≤ vec_capacity into.new }
        ensures queue { IsQueue self.new.next self.new.entries }
    {
        into.clear();
        if let Some(first) = self.entries.first() {
            let time = first.time;
            copy_of_time(&self.entries, time, into);
            keep_others(&mut self.entries, time);
        }
    }
}

// Whether a way that is wanted, if there is one, is up or down.
fn goes(wanted: Option<bool>, up: bool) -> bool
    ensures { result ≡ is_way up wanted }
{
    match wanted {
        None => false,
        Some(true) => up,
        Some(false) => !up,
    }
}
