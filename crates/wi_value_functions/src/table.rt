//! The functions by their names.

ghost use Rattle.std.specs.Prelude.{◌≡◌, ◌&&◌, nat_le, List, length, map, IfOk, IfErr, IfSome, IfNone, Some, None};
ghost use Rattle.std.specs.Cmp.Lexicographic.{slice_cmp};
ghost use Rattle.std.specs.Ordering.{nat_cmp};
ghost use Rattle.wi_values.specs.declared.value.Value.TheVariants.{Fault};
ghost use Rattle.wi_standard_functions.specs.Arguments.{Argument};
ghost use Rattle.wi_standard_functions.specs.Functions.{call_value, functions};
ghost use Rattle.wi_value_functions.specs.Applied.{applied_to_arguments};
ghost use Rattle.wi_value_functions.specs.Inner.Rows.{function_named, function_of, is_not_above};

use crate::function::FoldFunction::{And, Average, Count, CountA, Max, Min, Or, Product, Sum};
use crate::function::Function::{self, Lazy, References, Values};
use crate::function::LazyFunction::{Choose, If, IfError, IfNa};
use crate::function::LookupFunction::{CountIf, HLookup, Index, Match, SumIf, SumProduct, VLookup};
use crate::function::ReferenceFunction::{Fold, Lookup};
use crate::function::Test;
use crate::function::TextFunction::{Concatenate, Exact, Find, Left, Len, Mid, Rept, Right};
use crate::function::ValueFunction::{
    Abs, False, Int, Is, Mod, Na, Not, Power, Quotient, Round, Sign, Text, True, Value,
};
use std::cmp::Ordering;
use wi_fraction::Mode;
use wi_values::ErrorKind;

/// A function, its name in capitals, and how many parameters it has at least and at most, where `None` is any number.
struct Row {
    name: &'static str,
    least: usize,
    greatest: Option<usize>,
    function: Function,
}

macro_rules! row {
    ($name:expr, $least:expr, $greatest:expr, $function:expr) => {
        Row {
            name: $name,
            least: $least,
            greatest: $greatest,
            function: $function,
        }
    };
}

static ROWS: [Row; 51] = [
    row!("ABS", 1, Some(1), Values(Abs)),
    row!("AND", 1, None, References(Fold(And))),
    row!("AVERAGE", 1, None, References(Fold(Average))),
    row!("CHOOSE", 2, None, Lazy(Choose)),
    row!("CONCATENATE", 1, None, Values(Text(Concatenate))),
    row!("COUNT", 1, None, References(Fold(Count))),
    row!("COUNTA", 1, None, References(Fold(CountA))),
    row!("COUNTIF", 2, Some(2), References(Lookup(CountIf))),
    row!("EXACT", 2, Some(2), Values(Text(Exact))),
    row!("FALSE", 0, Some(0), Values(False)),
    row!("FIND", 2, Some(3), Values(Text(Find))),
    row!("HLOOKUP", 3, Some(4), References(Lookup(HLookup))),
    row!("IF", 1, Some(3), Lazy(If)),
    row!("IFERROR", 2, Some(2), Lazy(IfError)),
    row!("IFNA", 2, Some(2), Lazy(IfNa)),
    row!("INDEX", 2, Some(3), References(Lookup(Index))),
    row!("INT", 1, Some(1), Values(Int)),
    row!("ISBLANK", 1, Some(1), Values(Is(Test::Blank))),
    row!("ISERR", 1, Some(1), Values(Is(Test::Err))),
    row!("ISERROR", 1, Some(1), Values(Is(Test::Error))),
    row!("ISLOGICAL", 1, Some(1), Values(Is(Test::Logical))),
    row!("ISNA", 1, Some(1), Values(Is(Test::Na))),
    row!("ISNONTEXT", 1, Some(1), Values(Is(Test::NonText))),
    row!("ISNUMBER", 1, Some(1), Values(Is(Test::Number))),
    row!("ISTEXT", 1, Some(1), Values(Is(Test::Text))),
    row!("LEFT", 1, Some(2), Values(Text(Left))),
    row!("LEN", 1, Some(1), Values(Text(Len))),
    row!("MATCH", 2, Some(3), References(Lookup(Match))),
    row!("MAX", 1, None, References(Fold(Max))),
    row!("MID", 3, Some(3), Values(Text(Mid))),
    row!("MIN", 1, None, References(Fold(Min))),
    row!("MOD", 2, Some(2), Values(Mod)),
    row!("NA", 0, Some(0), Values(Na)),
    row!("NOT", 1, Some(1), Values(Not)),
    row!("OR", 1, None, References(Fold(Or))),
    row!("POWER", 2, Some(2), Values(Power)),
    row!("PRODUCT", 1, None, References(Fold(Product))),
    row!("QUOTIENT", 2, Some(2), Values(Quotient)),
    row!("REPT", 2, Some(2), Values(Text(Rept))),
    row!("RIGHT", 1, Some(2), Values(Text(Right))),
    row!("ROUND", 1, Some(2), Values(Round(Mode::HalfAway))),
    row!("ROUNDDOWN", 1, Some(2), Values(Round(Mode::Toward))),
    row!("ROUNDUP", 1, Some(2), Values(Round(Mode::Away))),
    row!("SIGN", 1, Some(1), Values(Sign)),
    row!("SUM", 1, None, References(Fold(Sum))),
    row!("SUMIF", 2, Some(3), References(Lookup(SumIf))),
    row!("SUMPRODUCT", 1, None, References(Lookup(SumProduct))),
    row!("TRUE", 0, Some(0), Values(True)),
    row!("TRUNC", 1, Some(2), Values(Round(Mode::Toward))),
    row!("VALUE", 1, Some(1), Values(Value)),
    row!("VLOOKUP", 3, Some(4), References(Lookup(VLookup))),
];

/// The function that a call with that name, in capitals, and so many parameters is a call of: `UnknownName` where none
/// has the name, else `BadValue` where it doesn't take so many. Six comparisons of names at most.
pub fn function_for(name: &str, count: usize) -> Result<Function, ErrorKind>
    ensures found { IfOk result (λ f. (args : List Argument) → length args ≡ count
        → call_value name.now args ≡ applied_to_arguments f args) }
    ensures refused { IfErr result
        (λ e. (args : List Argument) → length args ≡ count → call_value name.now args ≡ Fault e) }
{
    let Some(row) = row_of(name) else {
        return Err(ErrorKind::UnknownName);
    };
    if is_between(count, row.least, row.greatest) {
        Ok(row.function)
    } else {
        Err(ErrorKind::BadValue)
    }
}

/// The row with that name, if one has it. Unlike a slice's own, the search ends where the names are equal: of at most
/// six comparisons IF takes two.
fn row_of(name: &str) -> Option<&'static Row>
    ensures some { IfSome result (λ row. function_named name.now ≡ Some (function_of row.now)) }
    ensures none { IfNone result (function_named name.now ≡ None) }
{
    let rows = rows();
    let mut from = 0;
    let mut to = rows.len();
    while from < to {
        let middle = (from + to) / 2;
        match compare(rows[middle].name, name) {
            Ordering::Less => from = middle + 1,
            Ordering::Equal => return Some(&rows[middle]),
            Ordering::Greater => to = middle,
        }
    }
    None
}

/// The rows, in the order of their names.
fn rows() -> &'static [Row]
    ensures { map function_of result.now ≡ functions }
{
    &ROWS
}

/// The order of two names, as texts have it. Names mostly differ in one of their first bytes, so a comparison byte by
/// byte, which ends there, is shorter than one that reads many bytes at once.
fn compare(name: &str, other: &str) -> Ordering
    ensures { result ≡ slice_cmp nat_cmp name.now other.now }
{
    let xs = name.as_bytes();
    let ys = other.as_bytes();
    let both = xs.len().min(ys.len());
    for i in 0..both {
        let order = xs[i].cmp(&ys[i]);
        if order.is_ne() {
            return order;
        }
    }
    xs.len().cmp(&ys.len())
}

/// Whether a count is neither below the least nor above the greatest.
fn is_between(count: usize, least: usize, greatest: Option<usize>) -> bool
    ensures { result ≡ (nat_le least count && is_not_above count greatest) }
{
    least <= count && greatest.is_none_or(|greatest| count <= greatest)
}
