// Where a Solve stands between its hours.
ghost use Rattle.std.specs.Prelude.{◌≡◌, ◌++◌, ◌≤◌, IfOk, None, OnOk, Some, replicate};
ghost use Rattle.fd_settings.specs.fd_devices.Settings.{bank_count};
ghost use Rattle.fd_daily.specs.Day.{IsDay, hour_kept, hours_left, no_openings};
ghost use Rattle.fd_daily.specs.Hours.{first_hour, hour_after, hours_of, last_hour, time_of};

use fd_settings::{Circuit, Element, Mode, Options};
use std::alloc::{AllocError, Global};
use std::marker::Model;

// The milliseconds of an hour.
const HOUR: u64 = 3_600_000;

/// The hours of a Solve that are left.
#[derive(Drop)]
pub struct Day {
    hour: Option<u32>,
    last: u32,
}

impl Model for Day {
    ghost use Rattle.fd_daily.specs.Day.{DayView};

    ghost Value = { DayView };

    ghost view = { λ d. record { hour = d.hour; last = d.last } };
}

impl Day {
    /// The start of a Solve by the circuit's options: all of its hours are left.
    pub fn start(circuit: &Circuit) -> Day
        ensures left { hours_left result ≡ hours_of circuit.now.options }
        ensures hour { result.hour ≡ Some (first_hour circuit.now.options.mode) }
        ensures last { result.last ≡ last_hour circuit.now.options.mode circuit.now.options.number }
        ensures day { IsDay result }
    {
        let options = circuit.options();
        Day {
            hour: Some(first_hour(options)),
            last: last_hour(options),
        }
    }

    /// The hour that comes next: 0 for a snapshot, from 1 on for a day; none after the last.
    pub fn next_hour(&self) -> Option<u32>
        ensures { result ≡ self.now.hour }
    {
        self.hour
    }

    // Goes on behind an hour that ended well.
    pub(crate) fn end_hour(&mut self, hour: u32, is_well: bool)
        requires { hour ≤ 8760 }
        ensures hour { self.new.hour ≡ hour_kept is_well hour self.old }
        ensures last { self.new.last ≡ self.old.last }
    {
        if is_well {
            self.hour = hour_after(hour, self.last);
        }
    }
}

// No opening time for each bank.
pub(crate) fn no_openings(alloc: Global, circuit: &Circuit) -> Result<Vec<Option<u64>>, AllocError>
    ensures { IfOk result (λ opened. opened.items ≡ no_openings circuit.now) }
{
    let mut opened = Vec::new(alloc);
    for (_name, element) in circuit.elements() {
        add_bank(&mut opened, element)?;
    }
    Ok(opened)
}

// No opening time for a Capacitor, and nothing for another element.
fn add_bank(opened: &mut Vec<Option<u64>>, element: &Element) -> Result<(), AllocError>
    ensures { OnOk result (opened.new.items ≡ opened.old.items ++ replicate (bank_count element.now) None) }
{
    if let Element::Capacitor(_) = element {
        opened.push(None)?;
    }
    Ok(())
}

fn first_hour(options: &Options) -> u32
    ensures { result ≡ first_hour options.now.mode }
{
    match options.mode {
        Mode::Snapshot => 0,
        Mode::Daily => 1,
    }
}

fn last_hour(options: &Options) -> u32
    ensures { result ≡ last_hour options.now.mode options.now.number }
{
    match options.mode {
        Mode::Snapshot => 0,
        Mode::Daily => options.number,
    }
}

// The hour behind hour `k`, none behind the last.
fn hour_after(k: u32, last: u32) -> Option<u32>
    ensures { result ≡ hour_after k last }
{
    if k < last { Some(k + 1) } else { None }
}

// The time at which an hour starts, in milliseconds.
pub(crate) fn time_of(hour: u32) -> u64
    requires { hour ≤ 8760 }
    ensures { result ≡ time_of hour }
{
    HOUR * u64::from(hour.saturating_sub(1))
}
