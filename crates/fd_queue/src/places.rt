// Places in the list of entries.
ghost use Rattle.std.specs.Prelude.{◌≡◌, ◌==◌, nat_lt};
ghost use Rattle.std.specs.List.{position_or_len};

use crate::entry::Entry;

/// The place behind all entries of this time and of earlier times.
pub fn place_after(entries: &[Entry], time: u64) -> usize
    ensures { result ≡ position_or_len (λ e. nat_lt time e.time) entries.now }
{
    for (place, entry) in entries.iter().enumerate() {
        if time < entry.time {
            return place;
        }
    }
    entries.len()
}

/// The place of a control's entry, or the length where it has none.
pub fn place_of(entries: &[Entry], control: u32) -> usize
    ensures { result ≡ position_or_len (λ e. e.control == control) entries.now }
{
    for (place, entry) in entries.iter().enumerate() {
        if entry.control == control {
            return place;
        }
    }
    entries.len()
}
