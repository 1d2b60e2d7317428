//! A search along one row or one column.

ghost use Rattle.std.specs.Prelude.{◌≡◌, ◌<◌, length, map, ok_or, true, IfOk, IfErr, IfSome};
ghost use Rattle.std.specs.Ordering.{is_eq};
ghost use Rattle.wi_values.specs.Address.{cells_of};
ghost use Rattle.wi_values.specs.declared.value.ErrorKind.TheVariants.{NotAvailable};
ghost use Rattle.wi_standard_functions.specs.Matching.{is_match};
ghost use Rattle.wi_lookup_functions.specs.Inner.Finding.{Agrees, IsMissingIn};
ghost use Rattle.wi_lookup_functions.specs.Inner.Lines.{is_line};
ghost use Rattle.wi_lookup_functions.specs.Inner.Search.{HasFound, is_decided, passes, position_by};

use crate::matching::match_order;
use crate::region::steps;
use crate::rule::Rule;
use std::ops::ControlFlow;
use wi_arguments::{Lookup, TakesCells, take_cells};
use wi_value_functions::NoValue;
use wi_values::{Address, ErrorKind, Rect, Value};

/// A search, and what it has found so far.
#[derive(Drop)]
struct Search<'a> {
    sought: &'a Value,
    rule: Rule,
    found: Option<Address>,
}

impl<'a> Search<'a> {
    /// Whether nothing that follows is found instead.
    fn is_decided(&self) -> bool
        ensures { result ≡ is_decided self.now.rule self.now.found }
    {
        match self.rule {
            Rule::FirstEqual => self.found.is_some(),
            Rule::LastAtMost => false,
            Rule::LastAtLeast => false,
        }
    }
}

impl<'a> TakesCells for Search<'a> {
    ghost use Rattle.std.specs.Prelude.{refl};
    ghost use Rattle.wi_lookup_functions.specs.Inner.Search.{found_after};

    ghost after = { λ s c v. record s { found = found_after s.rule s.sought.now s.found c v } };

    #[inline(always)]
    fn take(&mut self, at: Address, value: &Value) -> ControlFlow<()> {
        if !is_match(self.rule, value, self.sought) || self.is_decided() {
            return ControlFlow::Continue(());
        }
        self.found = Some(at);
        if self.is_decided() {
            ControlFlow::Break(())
        } else {
            ControlFlow::Continue(())
        }
    }

    ghost passes_empty = { λ s c. refl };
}

/// Whether a value stands to the one sought in the order that is asked for.
#[inline(always)]
fn is_match(rule: Rule, value: &Value, sought: &Value) -> bool
    ensures { result ≡ is_match (passes rule) sought.now value.now }
{
    match rule {
        Rule::FirstEqual => is_equal(value, sought),
        _ => is_match_in_order(rule, value, sought),
    }
}

/// Whether a value is equal to the one sought. Numbers are compared part by part.
#[inline(always)]
fn is_equal(value: &Value, sought: &Value) -> bool
    ensures { result ≡ is_match is_eq sought.now value.now }
{
    match (value, sought) {
        (Value::Number(x), Value::Number(y)) => *x == *y,
        _ => is_match_any(Rule::FirstEqual, value, sought),
    }
}

/// As `is_match`, by the order of numbers.
#[inline(always)]
fn is_match_in_order(rule: Rule, value: &Value, sought: &Value) -> bool
    ensures { result ≡ is_match (passes rule) sought.now value.now }
{
    match (value, sought) {
        (Value::Number(x), Value::Number(y)) => rule.passes(x.cmp(y)),
        _ => is_match_any(rule, value, sought),
    }
}

/// As `is_match`, of values of any kinds. It stands apart, so that numbers are compared at once.
#[inline(never)]
fn is_match_any(rule: Rule, value: &Value, sought: &Value) -> bool
    ensures { result ≡ is_match (passes rule) sought.now value.now }
{
    match match_order(value, sought) {
        Some(order) => rule.passes(order),
        None => false,
    }
}

/// The place, from 0, of the value sought along one row or one column. The work is that of `Lookup::first_equal` where
/// that tells it, and else grows with the count of filled cells up to the one after which nothing is found instead.
pub(crate) fn place_along<L: Lookup>(
    rule: Rule,
    sought: &Value,
    line: Rect,
    lookup: &L,
) -> Result<u32, NoValue<Address>>
    requires { is_line line ≡ true }
    ensures within { IfOk result (λ i. i < length (cells_of line)) }
    ensures place { Agrees (L.known_cell lookup.now) (IsMissingIn (L.known_cell lookup.now) line)
        (λ i. i)
        (λ cells. ok_or (position_by rule sought.now (map cells (cells_of line))) NotAvailable)
        result }
{
    match found_along(rule, sought, line, lookup) {
        Ok(Some(cell)) => Ok(steps(line, cell)),
        Ok(None) => Err(NoValue::Error(ErrorKind::NotAvailable)),
        Err(cell) => Err(NoValue::Stopped(cell)),
    }
}

/// The cell of the value sought along one row or one column, or the one that is missing. The work is that of
/// `place_along`.
fn found_along<L: Lookup>(
    rule: Rule,
    sought: &Value,
    line: Rect,
    lookup: &L,
) -> Result<Option<Address>, Address>
    ensures found { IfOk result (HasFound (L.known_cell lookup.now) line rule sought.now) }
    ensures missing { IfErr result (IsMissingIn (L.known_cell lookup.now) line) }
{
    if let Some(first) = first_told(rule, sought, line, lookup) {
        return Ok(first);
    }
    let mut search = Search {
        sought,
        rule,
        found: None,
    };
    take_cells(line, lookup, &mut search)?;
    Ok(search.found)
}

/// The first cell with the number sought, where that is asked for and told without a search.
fn first_told<L: Lookup>(
    rule: Rule,
    sought: &Value,
    line: Rect,
    lookup: &L,
) -> Option<Option<Address>>
    ensures { IfSome result (HasFound (L.known_cell lookup.now) line rule sought.now) }
{
    match (rule, sought) {
        (Rule::FirstEqual, Value::Number(_)) => lookup.first_equal(line, sought),
        _ => None,
    }
}
