//! Functions over the features of a result.

ghost use Rattle.std.specs.Prelude.{◌≡◌, [], ◌++◌, map, IfOk, OnOk};
ghost use Rattle.std.specs.List.{cons_option};
ghost use Rattle.std.specs.Map.Iter.{deref};
ghost use Rattle.un_geom.specs.Places.{least_of, greatest_of};
ghost use Rattle.un_defs.specs.Result.{int_sum, least_value, greatest_value};
ghost use Rattle.un_trace.specs.Functions.{values_of, total_of};

use std::alloc::{AllocError, Global};
use un_ask::{Func, Totals};
use un_defs::PackedSpot;

fn push_value(values: &mut Vec<i64>, value: Option<i64>) -> Result<(), AllocError>
    ensures { OnOk result (values.new.items ≡ values.old.items ++ cons_option value []) }
{
    if let Some(value) = value {
        values.push(value)?;
    }
    Ok(())
}

/// The values of an attribute over the entries that have it. An unknown attribute has none.
fn values_of(
    alloc: Global,
    spots: &[&PackedSpot],
    attribute: Option<u8>,
) -> Result<Vec<i64>, AllocError>
    ensures { IfOk result (λ values. values.items ≡ values_of (map deref spots.now) attribute) }
{
    let mut values = Vec::new(alloc);
    let Some(attribute) = attribute else {
        return Ok(values);
    };
    for spot in spots {
        push_value(&mut values, spot.attribute(attribute))?;
    }
    Ok(values)
}

/// The sum. It has room: fewer than 2^63 values, each of 64 bits, sum to less than 2^126 either way.
fn sum(values: &[i64]) -> i128
    ensures { result ≡ int_sum values.now }
{
    let mut sum = 0i128;
    for value in values {
        sum += i128::from(*value);
    }
    sum
}

fn least_from(first: i64, rest: &[i64]) -> i64
    ensures { result ≡ least_of first rest.now }
{
    let mut least = first;
    for value in rest {
        least = least.min(*value);
    }
    least
}

fn least(values: &[i64]) -> Option<i64>
    ensures { result ≡ least_value values.now }
{
    let (first, rest) = values.split_first()?;
    Some(least_from(*first, rest))
}

fn greatest_from(first: i64, rest: &[i64]) -> i64
    ensures { result ≡ greatest_of first rest.now }
{
    let mut greatest = first;
    for value in rest {
        greatest = greatest.max(*value);
    }
    greatest
}

fn greatest(values: &[i64]) -> Option<i64>
    ensures { result ≡ greatest_value values.now }
{
    let (first, rest) = values.split_first()?;
    Some(greatest_from(*first, rest))
}

/// A function, given the first entries of the features and how many features there are.
fn total(
    alloc: Global,
    spots: &[&PackedSpot],
    count: usize,
    function: Func,
) -> Result<Option<i128>, AllocError>
    ensures { IfOk result (λ total. total ≡ total_of (map deref spots.now) count function) }
{
    match function {
        Func::Count => Ok(Some(count as i128)),
        Func::Sum(attribute) => {
            let values = values_of(alloc, spots, attribute)?;
            Ok(Some(sum(values.as_slice())))
        }
        Func::Least(attribute) => {
            let values = values_of(alloc, spots, attribute)?;
            Ok(least(values.as_slice()).map(i128::from))
        }
        Func::Greatest(attribute) => {
            let values = values_of(alloc, spots, attribute)?;
            Ok(greatest(values.as_slice()).map(i128::from))
        }
    }
}

/// The values of the functions, in their order.
pub(crate) fn totals(
    alloc: Global,
    spots: &[&PackedSpot],
    count: usize,
    functions: &[Func],
) -> Result<Totals, AllocError>
    ensures { IfOk result (λ totals. totals ≡ map (total_of (map deref spots.now) count) functions.now) }
{
    let mut totals = Vec::new(alloc);
    for function in functions {
        totals.push(total(alloc, spots, count, *function)?)?;
    }
    Ok(Totals::new(totals))
}
