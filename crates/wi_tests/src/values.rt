//! Values: copies and equality.

use crate::texts::expect_text;
use std::alloc::Global;
use std::process::Abort;
use wi_fraction::Fraction;
use wi_values::{Address, Replacement, Text, Value};

fn expect_text_copied(rt: &impl Abort, alloc: Global, text: &Text, wanted: &str) {
    let copy = text.copy().expect(rt, wanted);
    expect_text(rt, "copy", copy.as_str(), wanted);
}

fn expect_copied(rt: &impl Abort, alloc: Global, value: &Value) {
    let copy = value.copy(alloc).expect(rt, "a copy");
    assert!(rt; copy == *value);
    drop(copy);
}

#[test]
fn copies_are_equal(rt: HostRuntime) {
    let text = Text::from_str(rt.alloc(), "1/3").expect(&rt, "a text");
    expect_text_copied(&rt, rt.alloc(), &text, "1/3");
    let word = Value::Text(text);
    let number = Value::Number(Fraction::new(1, 3).expect(&rt, "a third"));
    expect_copied(&rt, rt.alloc(), &word);
    expect_copied(&rt, rt.alloc(), &number);
    assert!(rt; word != number);
    drop(word);
    drop(number);
}

#[test]
fn replacements_are_compared(rt: HostRuntime) {
    let emptied = Replacement {
        at: Address::at(3, 4),
        value: Value::Empty,
    };
    let denied = Replacement {
        at: Address::at(3, 4),
        value: Value::Logical(false),
    };
    assert!(rt; emptied == emptied);
    assert!(rt; emptied != denied);
    drop(emptied);
    drop(denied);
}
