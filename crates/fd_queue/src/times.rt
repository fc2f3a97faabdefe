// Entries of one time.
ghost use Rattle.std.specs.Prelude.{◌≡◌, ◌==◌, ◌≤◌, [], length, filter, not, vec_capacity};

use crate::entry::Entry;

/// Puts the entries of this time into an empty vector with room for all, in order.
pub fn copy_of_time(entries: &[Entry], time: u64, into: &mut Vec<Entry>)
    requires empty { into.old.items ≡ [] }
    requires room { length entries.now ≤ vec_capacity into.old }
    ensures items { into.new.items ≡ filter (λ e. e.time == time) entries.now }
    ensures capacity { vec_capacity into.old ≤ vec_capacity into.new }
{
    for entry in entries {
        if entry.time == time {
            into.push_reserved(*entry);
        }
    }
}

/// Leaves the entries of other times.
pub fn keep_others(entries: &mut Vec<Entry>, time: u64)
    ensures items { entries.new.items ≡ filter (λ e. not (e.time == time)) entries.old.items }
    ensures capacity { vec_capacity entries.new ≡ vec_capacity entries.old }
{
    entries.retain(|e| e.time != time);
}
