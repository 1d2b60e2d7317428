//! What a line asks for.

ghost use Rattle.std.specs.Prelude.{◌≡◌, ◌||◌, true, false, Some};
ghost use Rattle.std.specs.Str.{is_utf8};
ghost use Rattle.wi_scenarios.specs.Commands.Command.{Unreadable};
ghost use Rattle.wi_cli.specs.Lines.{without_cr};
ghost use Rattle.wi_cli.specs.Inner.Operands.{is_all_spaces};
ghost use Rattle.wi_cli.specs.Inner.Script.{csv_by_name, csv_text, csv_line, is_comment, text_command, line_command};
ghost use Rattle.wi_cli.specs.Inner.Forms.{named_command, spelled_command};
ghost use Rattle.wi_cli.specs.Inner.Data.{IsAsked};

use crate::command::Command;
use crate::csv_line::{CsvLine, read_csv_bytes};
use crate::edit_commands::{read_edit, read_forced, read_set};
use crate::lines::MAX_LINE;
use crate::look_commands::{read_changes, read_compare, read_export, read_formula, read_show};
use crate::scenario_commands::{read_as, read_base, read_drop, read_scenario, read_use};
use crate::table_command::read_table;
use crate::words::{is_all_spaces, split_word};
use wi_scenarios::Refusal;

/// What a line asks for.
#[derive(Clone, Copy)]
pub enum Line<'a> {
    /// Nothing: it is passed over.
    Passed,
    /// Data lines.
    Csv(CsvLine),
    /// A command, or one that is refused as it is read.
    Command(Result<Command<'a>, Refusal>),
}

/// What this name and these operands ask for.
fn read_named<'a>(name: &str, operands: &'a str) -> Line<'a>
    ensures { IsAsked (csv_by_name name.now operands.now) true
        (Some (named_command name.now operands.now)) result }
{
    match name {
        "force" => read_forced(operands),
        "scenario" => Line::Command(read_scenario(operands)),
        "drop" => Line::Command(read_drop(operands)),
        "base" => Line::Command(read_base(operands)),
        "use" => Line::Command(read_use(operands)),
        "as" => Line::Command(read_as(operands)),
        "show" => Line::Command(read_show(operands)),
        "export" => Line::Command(read_export(operands)),
        "changes" => Line::Command(read_changes(operands)),
        "compare" => Line::Command(read_compare(operands)),
        "table" => Line::Command(read_table(operands)),
        "formula" => Line::Command(read_formula(operands)),
        _ => read_edit(false, name, operands),
    }
}

/// What a text asks for that isn't passed over. Most commands set a cell, so that name is compared before all others.
#[inline(always)]
fn read_command(text: &str) -> Line<'_>
    ensures { IsAsked (csv_text text.now) true (Some (spelled_command text.now)) result }
{
    let (name, operands) = split_word(text);
    match name {
        "set" => Line::Command(read_set(false, operands)),
        _ => read_named(name, operands),
    }
}

/// Whether the line begins with `#`.
fn is_comment(text: &str) -> bool
    ensures { result ≡ is_comment text.now }
{
    text.starts_with('#')
}

/// Whether a line of this text is passed over.
fn is_passed_over(text: &str) -> bool
    ensures { result ≡ (is_all_spaces text.now || is_comment text.now) }
{
    is_all_spaces(text.as_bytes()) || is_comment(text)
}

/// What a text asks for.
#[tactic(auto, using(crate::proofs::AskedLemmas::passed_asked, crate::proofs::AskedLemmas::kept_asked))]
#[inline(always)]
fn read_text(text: &str) -> Line<'_>
    ensures { IsAsked (csv_text text.now) true (text_command text.now) result }
{
    if is_passed_over(text) {
        return Line::Passed;
    }
    read_command(text)
}

/// What bytes that aren't UTF-8 ask for: data lines, or what can't be read.
fn read_bytes(bytes: &[u8]) -> Line<'_>
    ensures { IsAsked (csv_text bytes.now) false (Some Unreadable) result }
{
    match read_csv_bytes(bytes) {
        Some(csv) => Line::Csv(CsvLine {
            is_text: false,
            ..csv
        }),
        None => Line::Command(Err(Refusal::BadLine)),
    }
}

/// Without the CR at the end, if there is one.
#[tactic(auto, using(crate::proofs::WordLemmas::cr_off, crate::proofs::WordLemmas::no_cr))]
fn without_cr(line: &[u8]) -> &[u8]
    ensures { result.now ≡ without_cr line.now }
{
    match line.strip_suffix(b"\r") {
        Some(text) => text,
        None => line,
    }
}

/// What a line without its LF asks for. Its bytes are tested for UTF-8 once, and its words cut once.
#[inline(always)]
pub(crate) fn read_line(line: &[u8]) -> Line<'_>
    ensures { IsAsked (csv_line line.now)
        (is_utf8 (without_cr line.now)) (line_command line.now) result }
{
    if line.len() > MAX_LINE {
        return Line::Command(Err(Refusal::BadLine));
    }
    let bytes = without_cr(line);
    match str::from_utf8(bytes) {
        Ok(text) => read_text(text),
        Err(_) => read_bytes(bytes),
    }
}
