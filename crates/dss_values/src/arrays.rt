// Values that are arrays, which are groups.
ghost use Rattle.std.specs.Prelude.{◌≡◌, ◌≤ℤ◌, pos, IfOk, OnOk, IsTrue};
ghost use Rattle.std.specs.List.{list_all};
ghost use Rattle.dss_model.specs.Answers.{Gives, Makes, each};
ghost use Rattle.dss_model.specs.Names.{rows};
ghost use Rattle.dss_values.specs.Forms.{cells_in, number_of_cell, numbers_in, is_within, is_whole, all_within, all_whole, numbers_between, two, two_numbers_between, tap_of, two_taps_in, bus_of_cell, two_buses_in, named_cell, two_choices_in, one, state_of, state_in, shares_of, shares_within, shares_in};

use crate::bus::bus_of_word;
use crate::numbers::{has_no_fraction, is_in_range, tap_of_number};
use dss_model::{
    BankState, Bus, ModelError, ModelFault, Numbers, ONE, Pair, Shares, Text, ZipShares, cells,
    find_named, number,
};
use std::alloc::Global;

// The words of an array.
fn words(alloc: Global, pair: &Pair) -> Result<Vec<Text>, ModelError>
    ensures { Gives (λ v. v.items) result (cells_in pair.now) }
{
    if pair.grouped {
        Ok(cells(alloc, pair.value.as_str())?)
    } else {
        Err(ModelError::Fault(ModelFault::BadValue))
    }
}

fn cell_number(cell: &Text) -> Result<i128, ModelFault>
    ensures { result ≡ number_of_cell cell.now }
{
    Ok(number(cell.as_str())?)
}

fn numbers_of_cells(alloc: Global, cells: &[Text]) -> Result<Vec<i128>, ModelError>
    ensures { Gives (λ v. v.items) result (each number_of_cell cells.now) }
{
    let mut numbers = Vec::new(alloc);
    for cell in cells {
        numbers.push(cell_number(cell)?)?;
    }
    Ok(numbers)
}

#[tactic(auto, unfolding(crate::specs::Forms::numbers_in))]
fn number_cells(alloc: Global, pair: &Pair) -> Result<Vec<i128>, ModelError>
    ensures { Gives (λ v. v.items) result (numbers_in pair.now) }
{
    let words = words(alloc, pair)?;
    numbers_of_cells(alloc, &words)
}

fn are_in_range(numbers: &[i128], low: i128, high: i128) -> bool
    ensures { result ≡ list_all (is_within low high) numbers.now }
{
    numbers.iter().all(|number| is_in_range(*number, low, high))
}

fn check_ranges(numbers: &[i128], low: i128, high: i128) -> Result<(), ModelError>
    ensures value { Makes numbers.now result (all_within low high numbers.now) }
    ensures within { OnOk result (IsTrue (list_all (is_within low high) numbers.now)) }
{
    if are_in_range(numbers, low, high) {
        Ok(())
    } else {
        Err(ModelError::Fault(ModelFault::OutOfRange))
    }
}

#[tactic(auto, unfolding(crate::specs::Forms::numbers_between))]
fn numbers_in_range(
    alloc: Global,
    pair: &Pair,
    low: i128,
    high: i128,
) -> Result<Vec<i128>, ModelError>
    ensures value { Gives (λ v. v.items) result (numbers_between low high pair.now) }
    ensures within { IfOk result (λ v. IsTrue (list_all (is_within low high) v.items)) }
{
    let numbers = number_cells(alloc, pair)?;
    check_ranges(&numbers, low, high)?;
    Ok(numbers)
}

/// Numbers from `low` to `high`.
pub fn numbers_within(
    alloc: Global,
    pair: &Pair,
    low: i128,
    high: i128,
) -> Result<Numbers, ModelError>
    ensures { Gives (λ numbers. numbers) result (numbers_between low high pair.now) }
{
    Ok(Numbers::new(numbers_in_range(alloc, pair, low, high)?))
}

fn two_of<T: Copy>(values: &[T]) -> Result<(T, T), ModelFault>
    ensures { result ≡ two values.now }
{
    match values {
        [first, second] => Ok((*first, *second)),
        _ => Err(ModelFault::WrongCount),
    }
}

/// Two numbers from `low` to `high`.
#[tactic(auto, unfolding(crate::specs::Forms::two_numbers_between))]
pub fn two_numbers_within(
    alloc: Global,
    pair: &Pair,
    low: i128,
    high: i128,
) -> Result<(i128, i128), ModelError>
    ensures value { Gives (λ n. n) result (two_numbers_between low high pair.now) }
    ensures low { IfOk result (λ n. (low ≤ℤ n.0) × (low ≤ℤ n.1)) }
    ensures high { IfOk result (λ n. (n.0 ≤ℤ high) × (n.1 ≤ℤ high)) }
{
    let numbers = numbers_in_range(alloc, pair, low, high)?;
    Ok(two_of(&numbers)?)
}

fn taps_of(numbers: (i128, i128)) -> (u32, u32)
    requires low { (pos 0 ≤ℤ numbers.0) × (pos 0 ≤ℤ numbers.1) }
    requires high { (numbers.0 ≤ℤ pos 2_000_000_000) × (numbers.1 ≤ℤ pos 2_000_000_000) }
    ensures { result ≡ (tap_of numbers.0, tap_of numbers.1) }
{
    (tap_of_number(numbers.0), tap_of_number(numbers.1))
}

/// Two taps from 0.5 to 2, in whole 10^-5.
#[tactic(auto, unfolding(crate::specs::Forms::two_taps_in))]
pub fn two_taps(alloc: Global, pair: &Pair) -> Result<(u32, u32), ModelError>
    ensures { Gives (λ n. n) result (two_taps_in pair.now) }
{
    let numbers = two_numbers_within(alloc, pair, 500_000_000, 2 * ONE)?;
    Ok(taps_of(numbers))
}

fn cell_bus(alloc: Global, cell: &Text) -> Result<Bus, ModelError>
    ensures { Gives (λ bus. bus) result (bus_of_cell cell.now) }
{
    let word = cell.lowered(alloc)?;
    bus_of_word(alloc, &word)
}

fn buses_of_cells(alloc: Global, cells: &[Text]) -> Result<Vec<Bus>, ModelError>
    ensures { Gives (λ v. v.items) result (each bus_of_cell cells.now) }
{
    let mut buses = Vec::new(alloc);
    for cell in cells {
        buses.push(cell_bus(alloc, cell)?)?;
    }
    Ok(buses)
}

fn two_of_buses(buses: &[Bus]) -> Result<(Bus, Bus), ModelError>
    ensures { Gives (λ b. b) result (two buses.now) }
{
    match buses {
        [first, second] => Ok((first.copied()?, second.copied()?)),
        _ => Err(ModelError::Fault(ModelFault::WrongCount)),
    }
}

/// Two buses.
#[tactic(auto, unfolding(crate::specs::Forms::two_buses_in))]
pub fn two_buses(alloc: Global, pair: &Pair) -> Result<(Bus, Bus), ModelError>
    ensures { Gives (λ b. b) result (two_buses_in pair.now) }
{
    let words = words(alloc, pair)?;
    let buses = buses_of_cells(alloc, &words)?;
    two_of_buses(&buses)
}

fn cell_choice<T: Copy>(alloc: Global, table: &[(&str, T)], cell: &Text) -> Result<T, ModelError>
    ensures { Gives (λ x. x) result (named_cell (rows table.now) cell.now) }
{
    let word = cell.lowered(alloc)?;
    Ok(find_named(table, word.as_str()).ok_or(ModelFault::BadValue)?)
}

fn choices_of_cells<T: Copy>(
    alloc: Global,
    table: &[(&str, T)],
    cells: &[Text],
) -> Result<Vec<T>, ModelError>
    ensures { Gives (λ v. v.items) result (each (named_cell (rows table.now)) cells.now) }
{
    let mut choices = Vec::new(alloc);
    for cell in cells {
        choices.push(cell_choice(alloc, table, cell)?)?;
    }
    Ok(choices)
}

/// Two of the words of a table; any other is a bad value.
#[tactic(auto, unfolding(crate::specs::Forms::two_choices_in))]
pub fn two_choices<T: Copy>(
    alloc: Global,
    table: &[(&str, T)],
    pair: &Pair,
) -> Result<(T, T), ModelError>
    ensures { Gives (λ x. x) result (two_choices_in (rows table.now) pair.now) }
{
    let words = words(alloc, pair)?;
    let choices = choices_of_cells(alloc, table, &words)?;
    Ok(two_of(&choices)?)
}

fn are_whole(numbers: &[i128]) -> bool
    ensures { result ≡ list_all is_whole numbers.now }
{
    numbers.iter().all(|number| has_no_fraction(*number))
}

fn check_whole(numbers: &[i128]) -> Result<(), ModelError>
    ensures { Makes numbers.now result (all_whole numbers.now) }
{
    if are_whole(numbers) {
        Ok(())
    } else {
        Err(ModelError::Fault(ModelFault::BadValue))
    }
}

fn sole_number(numbers: &[i128]) -> Result<i128, ModelFault>
    ensures { result ≡ one numbers.now }
{
    match numbers {
        [number] => Ok(*number),
        _ => Err(ModelFault::WrongCount),
    }
}

fn state_of_number(number: i128) -> BankState
    ensures { result ≡ state_of number }
{
    if number == 0 {
        BankState::Open
    } else {
        BankState::Closed
    }
}

/// The state of the one step of a bank: 0 is open and 1 is closed.
#[tactic(auto, unfolding(crate::specs::Forms::state_in))]
pub fn bank_state(alloc: Global, pair: &Pair) -> Result<BankState, ModelError>
    ensures { Gives (λ s. s) result (state_in pair.now) }
{
    let numbers = number_cells(alloc, pair)?;
    check_whole(&numbers)?;
    check_ranges(&numbers, 0, ONE)?;
    Ok(state_of_number(sole_number(&numbers)?))
}

fn seven_shares(numbers: &[i128]) -> Result<ZipShares, ModelFault>
    ensures { result ≡ shares_of numbers.now }
{
    match numbers {
        [a1, a2, a3, b1, b2, b3, cutoff] => {
            if *cutoff != 0 {
                return Err(ModelFault::Unsupported);
            }
            let p = Shares {
                impedance: *a1,
                current: *a2,
                power: *a3,
            };
            let q = Shares {
                impedance: *b1,
                current: *b2,
                power: *b3,
            };
            Ok(ZipShares { p, q })
        }
        _ => Err(ModelFault::WrongCount),
    }
}

// The shares, which are the first six numbers, are tested before the count.
fn checked_shares(numbers: &[i128]) -> Result<ZipShares, ModelFault>
    ensures { result ≡ shares_within numbers.now }
{
    let shares = &numbers[..numbers.len().min(6)];
    if are_in_range(shares, -10 * ONE, 10 * ONE) {
        seven_shares(numbers)
    } else {
        Err(ModelFault::OutOfRange)
    }
}

/// The shares of a load of model 8: seven numbers, the shares of constant impedance, current and power of P, then those
/// of Q, each from -10 to 10, and the cutoff. Any cutoff but 0 is unsupported.
#[tactic(auto, unfolding(crate::specs::Forms::shares_in))]
pub fn shares(alloc: Global, pair: &Pair) -> Result<ZipShares, ModelError>
    ensures { Gives (λ s. s) result (shares_in pair.now) }
{
    let numbers = number_cells(alloc, pair)?;
    Ok(checked_shares(&numbers)?)
}
