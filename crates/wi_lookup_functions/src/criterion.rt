//! Criteria (OpenFormula, "Criterion").

ghost use Rattle.std.specs.Prelude.{◌≡◌, IfOk};
ghost use Rattle.std.specs.Ordering.{int_cmp};
ghost use Rattle.wi_fraction.specs.Order.{cross_cmp};
ghost use Rattle.wi_standard_functions.specs.Criterion.{constant_of, operators};
ghost use Rattle.wi_standard_functions.specs.Inner.Criteria.{criterion_by, criterion_of, equal_to};
ghost use Rattle.wi_lookup_functions.specs.Inner.Meeting.{criterion_held, holds, holds_between_kinds, is_met, to_constant, IsRestAfter};

use crate::matching::{can_be_found, match_order};
use std::alloc::{AllocError, Global};
use std::cmp::Ordering;
use wi_fraction::Fraction;
use wi_value_functions::zero;
use wi_values::{FieldFault, Text, Value, imported_value};

/// How a value stands to the operand of a criterion.
#[derive(Clone, Copy)]
enum Relation {
    Equal,
    Unequal,
    Less,
    AtMost,
    Greater,
    AtLeast,
}

/// A criterion: a value meets it that stands in the relation to the operand.
#[derive(Drop)]
pub(crate) struct Criterion {
    relation: Relation,
    operand: Value,
}

impl Criterion {
    /// The criterion that a value is. Linear in the length of a text.
    pub(crate) fn of(alloc: Global, value: &Value) -> Result<Criterion, AllocError>
        ensures { IfOk result (λ c. criterion_held c ≡ criterion_of value.now) }
    {
        match value {
            Value::Text(text) => of_text(alloc, text.as_str()),
            Value::Empty => Ok(equal_to(Value::Number(zero()))),
            _ => Ok(equal_to(value.copy(alloc)?)),
        }
    }

    /// Whether a value meets it. Linear in the shorter of two texts.
    #[tactic(auto, using(crate::proofs::Meeting::met_by_number))]
    #[inline(always)]
    pub(crate) fn meets(&self, value: &Value) -> bool
        ensures { result ≡ is_met self.now value.now }
    {
        match (value, &self.operand) {
            (Value::Number(x), Value::Number(y)) => self.relation.holds_of(x, y),
            _ => self.meets_any(value),
        }
    }

    /// As `meets`, of any value. It stands apart, so that numbers are compared at once.
    #[tactic(auto, using(crate::proofs::Meeting::met_by))]
    #[inline(never)]
    fn meets_any(&self, value: &Value) -> bool
        ensures { result ≡ is_met self.now value.now }
    {
        match match_order(value, &self.operand) {
            Some(order) => self.relation.holds(order),
            None => self.relation.is_unequal() && can_be_found(value),
        }
    }
}

impl Relation {
    /// Whether it holds of values of one kind that are in this order.
    fn holds(self, order: Ordering) -> bool
        ensures { result ≡ holds self order }
    {
        match self {
            Relation::Equal => order.is_eq(),
            Relation::Unequal => order.is_ne(),
            Relation::Less => order.is_lt(),
            Relation::AtMost => order.is_le(),
            Relation::Greater => order.is_gt(),
            Relation::AtLeast => order.is_ge(),
        }
    }

    /// Whether it holds of two numbers.
    #[inline(always)]
    fn holds_of(self, x: &Fraction, y: &Fraction) -> bool
        ensures { result ≡ holds self (cross_cmp x.now y.now) }
    {
        if x.denominator() == y.denominator() {
            self.holds_between(x.numerator(), y.numerator())
        } else {
            self.holds(x.cmp(y))
        }
    }

    /// Whether it holds of two whole numbers.
    #[inline(always)]
    fn holds_between(self, m: i128, n: i128) -> bool
        ensures { result ≡ holds self (int_cmp m n) }
    {
        match self {
            Relation::Equal => m == n,
            Relation::Unequal => m != n,
            Relation::Less => m < n,
            Relation::AtMost => m <= n,
            Relation::Greater => m > n,
            Relation::AtLeast => m >= n,
        }
    }

    /// Whether it holds of values of different kinds.
    fn is_unequal(self) -> bool
        ensures { result ≡ holds_between_kinds self }
    {
        match self {
            Relation::Equal => false,
            Relation::Unequal => true,
            Relation::Less => false,
            Relation::AtMost => false,
            Relation::Greater => false,
            Relation::AtLeast => false,
        }
    }
}

/// Equality to a value.
fn equal_to(operand: Value) -> Criterion
    ensures { criterion_held result ≡ equal_to operand }
{
    Criterion {
        relation: Relation::Equal,
        operand,
    }
}

/// The criterion of a text.
fn of_text(alloc: Global, text: &str) -> Result<Criterion, AllocError>
    ensures { IfOk result (λ c. criterion_held c ≡ criterion_by operators text.now) }
{
    let (relation, rest) = relation_first(text);
    let operand = constant(alloc, rest)?;
    Ok(Criterion { relation, operand })
}

/// The relation whose operator a text begins with, and the text behind that; equality and the whole where it begins
/// with none.
fn relation_first(text: &str) -> (Relation, &str)
    ensures { criterion_by operators text.now ≡ to_constant result.0 result.1.now }
{
    if let Some(rest) = after("<>", text) {
        (Relation::Unequal, rest)
    } else if let Some(rest) = after("<=", text) {
        (Relation::AtMost, rest)
    } else if let Some(rest) = after(">=", text) {
        (Relation::AtLeast, rest)
    } else if let Some(rest) = after("=", text) {
        (Relation::Equal, rest)
    } else if let Some(rest) = after("<", text) {
        (Relation::Less, rest)
    } else if let Some(rest) = after(">", text) {
        (Relation::Greater, rest)
    } else {
        (Relation::Equal, text)
    }
}

/// What stands behind an operator, where the text begins with it.
fn after<'a>(sign: &str, text: &'a str) -> Option<&'a str>
    ensures { IsRestAfter sign.now text.now result }
{
    text.strip_prefix(sign)
}

/// The constant that a text is taken for.
fn constant(alloc: Global, text: &str) -> Result<Value, AllocError>
    ensures { IfOk result (λ v. v ≡ constant_of text.now) }
{
    match imported_value(alloc, text) {
        Ok(value) => Ok(value),
        Err(FieldFault::TooLong) => Ok(Value::Text(Text::from_str(alloc, text)?)),
        Err(FieldFault::Memory) => Err(AllocError),
    }
}
