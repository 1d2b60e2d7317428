//! Reads cases of values and formulas, and prints them. A line such as `@values` begins a section, and the lines below
//! it are its cases; in the head of each section stands its notation. Each line is written as it stands, and a case
//! with its answer behind an arrow.
#![tactic(auto)]

mod areas;
mod cells;
mod contents;
mod formulas;
mod numbers;
mod text_spelling;
mod tokens;
mod trees;
mod values;

use std::alloc::Global;
use std::io;
use text_spelling::spelled;

/// What the cases of a section are about.
#[derive(Clone, Copy)]
enum Section {
    Values,
    Formulas,
}

/// The section that a line begins.
fn begun(line: &str) -> Option<Section> {
    match line {
        "@values" => Some(Section::Values),
        "@formulas" => Some(Section::Formulas),
        _ => None,
    }
}

fn is_case(line: &str) -> bool {
    !line.is_empty() && !line.starts_with("#") && !line.starts_with("@")
}

/// Appends the answer to a case of formulas whose operand is one text.
fn push_of_text(alloc: Global, operation: &str, text: &str, line: &mut String) -> Option<()> {
    match operation {
        "tokens" | "reference" | "corners" | "unquoted" => {
            tokens::push(alloc, operation, text, line)
        }
        "content" | "constant" | "field" | "imported" | "shown" => {
            contents::push(alloc, operation, text, line)
        }
        _ => formulas::push(alloc, operation, text, line).ok(),
    }
}

/// Appends the answer to a case of formulas.
fn push_of_formulas(
    alloc: Global,
    operation: &str,
    operands: &str,
    line: &mut String,
) -> Option<()> {
    match operation {
        "value" | "count" => cells::push(alloc, operation, operands, line),
        "move" => formulas::push_moved(alloc, operands, line),
        _ => push_of_text(alloc, operation, &spelled(alloc, operands)?, line),
    }
}

/// Appends the answer to a case of a section.
fn push_answer(alloc: Global, section: Section, case: &str, line: &mut String) -> Option<()> {
    let (operation, operands) = case.split_once(' ')?;
    match section {
        Section::Values => areas::push(operation, operands, line),
        Section::Formulas => push_of_formulas(alloc, operation, operands, line),
    }
}

/// Appends an arrow and the answer to a case, or `none` where it has none.
fn push_case(alloc: Global, section: Section, case: &str, line: &mut String) -> io::Result<()> {
    line.push_str(" -> ")?;
    if push_answer(alloc, section, case, line).is_none() {
        line.push_str("none")?;
    }
    Ok(())
}

/// Appends a line of a section as it is to be written.
fn push_line(alloc: Global, section: Section, line: &str, out: &mut String) -> io::Result<()> {
    out.push_str(line)?;
    if is_case(line) {
        push_case(alloc, section, line, out)?;
    }
    Ok(out.push('\n')?)
}

/// Takes a line of a section, or one that begins another, and appends it as it is to be written.
fn take(alloc: Global, line: &str, section: &mut Section, out: &mut String) -> io::Result<()> {
    *section = begun(line).unwrap_or(*section);
    push_line(alloc, *section, line, out)
}

/// Takes the lines of standard input, and writes each, a case with its answer.
fn take_all(rt: &HostRuntime) -> io::Result<()> {
    let mut section = Section::Values;
    for line in rt.lines(rt.alloc()) {
        let mut out = String::new(rt.alloc());
        take(rt.alloc(), &line?, &mut section, &mut out)?;
        rt.print(out)?;
    }
    Ok(())
}

fn main(rt: HostRuntime) -> io::Result<()> {
    take_all(&rt)
}
