ghost use Rattle.std.specs.Prelude.{◌≡◌, ◌==◌, ◌+◌, ◌<◌, ◌≤◌, ◌++◌, ◌^◌, map, length, IfOk, OnOk, OnErr};
ghost use Rattle.rg_bytes.specs.Keeps.{Keeps};
ghost use Rattle.rg_bytes.specs.Reading.{list_bytes};
ghost use Rattle.rg_column.specs.Widths.{AgreesList, difference_bytes};
ghost use Rattle.rg_column.specs.Numbers.{AreOf, number_of, least, greatest, width_of, differences_bytes, numbers_bytes, differences_at, numbers_at, raised, is_packed as packed_test};

use crate::fault::ColumnFault;
use crate::series::Series;
use crate::width::Width;
use rg_bytes::{ByteReader, Memory, put_u8, put_u64};
use rg_event::Event;
use std::alloc::Global;

/// The least and the greatest number of some events in a column.
struct Range {
    /// The least of them, and the greatest of all numbers where there is none.
    least: u64,
    /// The greatest of them, and 0 where there is none.
    greatest: u64,
}

/// Writes a column of numbers of these events at the end. An error leaves it begun.
pub(crate) fn put_numbers(series: Series, events: &[Event], out: &mut Vec<u8>) -> Result<(), Memory>
    ensures ok { OnOk result (out.new.items ≡ out.old.items ++ numbers_bytes series (map (number_of series) events.now)) }
    ensures err { OnErr result (Keeps out.old.items out.new.items) }
{
    let Range { least, greatest } = range_of(series, events);
    let width = Width::least(greatest.saturating_sub(least));
    put_u64(out, series.base_bits(least))?;
    put_u8(out, width.byte())?;
    put_differences(series, width, least, events, out)
}

/// The range of the numbers of these events in a column.
fn range_of(series: Series, events: &[Event]) -> Range
    ensures least { result.least ≡ least (map (number_of series) events.now) }
    ensures greatest { result.greatest ≡ greatest (map (number_of series) events.now) }
{
    let mut least = u64::MAX;
    let mut greatest = 0;
    for event in events {
        let number = series.number(event);
        if number < least {
            least = number;
        }
        if number > greatest {
            greatest = number;
        }
    }
    Range { least, greatest }
}

/// Writes how far the number of each event is above the least of them. An error leaves some of them.
fn put_differences(
    series: Series,
    width: Width,
    base: u64,
    events: &[Event],
    out: &mut Vec<u8>,
) -> Result<(), Memory>
    requires base { base ≡ least (map (number_of series) events.now) }
    requires width { width ≡ width_of (map (number_of series) events.now) }
    ensures ok { OnOk result (out.new.items ≡ out.old.items ++ differences_bytes width base (map (number_of series) events.now)) }
    ensures err { OnErr result (Keeps out.old.items out.new.items) }
{
    for event in events {
        width.put(series.number(event) - base, out)?;
    }
    Ok(())
}

/// Takes a column of so many numbers. A refusal may leave the reader in mid-way.
pub(crate) fn take_numbers(
    alloc: Global,
    series: Series,
    count: u32,
    from: &mut ByteReader<'_>,
) -> Result<Vec<u64>, ColumnFault>
    ensures agrees { AgreesList (numbers_at series count from.old) result from.new }
    ensures ok { IfOk result (λ numbers. from.old ≡ numbers_bytes series numbers.items ++ from.new) }
    ensures legal { IfOk result (λ numbers. AreOf series numbers.items) }
    ensures count { IfOk result (λ numbers. length numbers.items ≡ count) }
{
    let base = series.base_bits(from.u64()?);
    let width = match Width::from_byte(from.u8()?) {
        Some(width) => width,
        None => return Err(ColumnFault::BadColumn(series.field())),
    };
    let differences = match take_differences(alloc, width, count, from) {
        Ok(differences) => differences,
        Err(fault) => return Err(fault),
    };
    if !is_packed(series, base, width, &differences) {
        return Err(ColumnFault::BadColumn(series.field()));
    }
    Ok(raise(base, differences))
}

/// Takes so many differences of this width.
fn take_differences(
    alloc: Global,
    width: Width,
    count: u32,
    from: &mut ByteReader<'_>,
) -> Result<Vec<u64>, ColumnFault>
    ensures agrees { AgreesList (differences_at width count from.old) result from.new }
    ensures ok { IfOk result (λ differences. from.old ≡ list_bytes (difference_bytes width) differences.items ++ from.new) }
    ensures count { IfOk result (λ differences. length differences.items ≡ count) }
{
    let mut differences = Vec::with_capacity(alloc, count as usize)?;
    for done in 0..count {
        let difference = match width.take(from) {
            Ok(difference) => difference,
            Err(_) => return Err(ColumnFault::Short),
        };
        differences.push(difference)?;
    }
    Ok(differences)
}

/// Whether the base is the least number, the width the least one, and each number one of the column.
fn is_packed(series: Series, base: u64, width: Width, differences: &[u64]) -> bool
    ensures { result ≡ packed_test series base width differences.now }
{
    let greatest = greatest_difference(differences);
    let most = match base.checked_add(greatest) {
        Some(most) => most,
        None => return false,
    };
    has_zero(differences)
        && width.byte() == Width::least(greatest).byte()
        && series.lowest() <= base
        && most <= series.highest()
}

/// Whether one of these differences is 0.
fn has_zero(differences: &[u64]) -> bool
    ensures { result ≡ (least differences.now == 0) }
{
    for difference in differences {
        if *difference == 0 {
            return true;
        }
    }
    false
}

/// The greatest of these differences, and 0 where there is none.
fn greatest_difference(differences: &[u64]) -> u64
    ensures { result ≡ greatest differences.now }
{
    let mut greatest = 0;
    for difference in differences {
        if *difference > greatest {
            greatest = *difference;
        }
    }
    greatest
}

/// The numbers that are so far above this base.
fn raise(base: u64, differences: Vec<u64>) -> Vec<u64>
    requires { base + greatest differences.items < 2 ^ 64 }
    ensures { result.items ≡ raised base differences.items }
{
    let mut numbers = differences;
    for number in numbers.iter_mut() {
        *number += base;
    }
    numbers
}
