//! Values as words, addresses as texts, and the one comparison of texts. A function that compares has as many ways out
//! as it has comparisons, and each is a branch over all it holds: so what is compared is told by one function, and
//! compared by another.

use std::alloc::Global;
use std::process::Abort;
use wi_values::{Address, Text, Value};

/// The value that a word stands for; the empty word stands for Empty.
pub fn value(rt: &impl Abort, alloc: Global, word: &str) -> Value {
    match word {
        "" => Value::Empty,
        "TRUE" => Value::Logical(true),
        "FALSE" => Value::Logical(false),
        _ => Value::Text(Text::from_str(alloc, word).expect(rt, word)),
    }
}

/// The word for a value, a dash where there is none. Of texts only one has a word, behind an apostrophe.
pub fn word(value: Option<&Value>) -> &'static str {
    match value {
        None => "-",
        Some(Value::Empty) => "",
        Some(Value::Logical(true)) => "TRUE",
        Some(Value::Logical(false)) => "FALSE",
        Some(Value::Text(text)) if text.as_str() == "three" => "'three",
        Some(_) => "another",
    }
}

fn push_address(rt: &impl Abort, at: Address, text: &mut String) {
    at.push_text(text).expect(rt, "memory for an address");
    text.push(' ').expect(rt, "memory for a space");
}

/// Addresses, a space behind each.
fn addresses(rt: &impl Abort, alloc: Global, addresses: &[Address]) -> String {
    let mut text = String::new(alloc);
    for at in addresses {
        push_address(rt, *at, &mut text);
    }
    text
}

/// Of something a text is told, and this is wanted.
pub fn expect_text(rt: &impl Abort, of: &str, told: &str, wanted: &str) {
    assert!(rt; told == wanted, "{of}: {told}");
}

/// Of something these addresses are found, and those are wanted, a space behind each.
pub fn expect_addresses(rt: &impl Abort, alloc: Global, of: &str, found: &[Address], wanted: &str) {
    expect_text(rt, of, &addresses(rt, alloc, found), wanted);
}

/// What has to be so, with a word that a failure tells.
pub fn expect_that(rt: &impl Abort, holds: bool, of: &str) {
    assert!(rt; holds, "{of}");
}
