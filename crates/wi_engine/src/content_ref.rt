//! What stands in a cell under replacements.

ghost use Rattle.std.specs.Prelude.{◌≡◌, false, Some, IfSome, IfNone};
ghost use Rattle.wi_parser.specs.Sheet.{Sheet, constant, content_of, has_formula, put_all};
ghost use Rattle.wi_engine.specs.Inner.ContentRef.{as_content};

use wi_parser::{Content, Formula};
use wi_store::Store;
use wi_values::{Address, Value};
use wi_worlds::World;

/// What stands in a cell.
#[derive(Clone, Copy)]
pub enum ContentRef<'a> {
    Nothing,
    Constant(&'a Value),
    Formula(&'a Formula),
}

/// What stands in a cell under the replacements of a world. The work grows with the logarithms of the counts of
/// replacements and of occupied cells.
pub(crate) fn content_in<'a>(store: &'a Store, world: &'a World, at: Address) -> ContentRef<'a>
    ensures { as_content result ≡ content_of (put_all store.now.sheet world.now) at }
{
    match replaced(world, at) {
        Some(value) => constant(value),
        None => stored(store, at),
    }
}

/// The formula that a cell has under the replacements of a world, if it has one. The work grows with the
/// logarithms of the counts of replacements and of occupied cells.
pub(crate) fn formula_in<'a>(store: &'a Store, world: &World, at: Address) -> Option<&'a Formula>
    ensures found { IfSome result (λ f. content_of (put_all store.now.sheet world.now) at
        ≡ Some (Content.Formula f.now)) }
    ensures none { IfNone result
        (has_formula (content_of (put_all store.now.sheet world.now) at) ≡ false) }
{
    match replaced(world, at) {
        Some(_) => None,
        None => formula_at(store, at),
    }
}

/// The value that is put into a cell, if one is. The work grows with the logarithm of the count of replacements.
pub(crate) fn replaced(world: &World, at: Address) -> Option<&Value>
    ensures some { IfSome result (λ v. (s : Sheet)
        → content_of (put_all s world.now) at ≡ constant v.now) }
    ensures none { IfNone result ((s : Sheet)
        → content_of (put_all s world.now) at ≡ content_of s at) }
{
    // They stand in order, so that one is the last for its address.
    let _ = world.replacements();
    world.replacement(at)
}

/// What a cell has where a constant is put.
pub(crate) fn constant(value: &Value) -> ContentRef<'_>
    ensures { as_content result ≡ constant value.now }
{
    match value {
        Value::Empty => ContentRef::Nothing,
        Value::Number(_) => ContentRef::Constant(value),
        Value::Text(_) => ContentRef::Constant(value),
        Value::Logical(_) => ContentRef::Constant(value),
        Value::Fault(_) => ContentRef::Constant(value),
    }
}

/// What stands in a cell.
pub(crate) fn stored(store: &Store, at: Address) -> ContentRef<'_>
    ensures { as_content result ≡ content_of store.now.sheet at }
{
    match store.get(at) {
        None => ContentRef::Nothing,
        Some(content) => content_ref(content),
    }
}

/// A content, as it is seen.
pub(crate) fn content_ref(content: &Content) -> ContentRef<'_>
    ensures { as_content result ≡ Some content.now }
{
    match content {
        Content::Constant(value) => ContentRef::Constant(value),
        Content::Formula(formula) => ContentRef::Formula(formula),
    }
}

/// The formula in a cell, if it has one.
pub(crate) fn formula_at(store: &Store, at: Address) -> Option<&Formula>
    ensures found { IfSome result (λ f.
        content_of store.now.sheet at ≡ Some (Content.Formula f.now)) }
    ensures none { IfNone result (has_formula (content_of store.now.sheet at) ≡ false) }
{
    match stored(store, at) {
        ContentRef::Nothing => None,
        ContentRef::Constant(_) => None,
        ContentRef::Formula(formula) => Some(formula),
    }
}
