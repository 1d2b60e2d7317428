//! What is told of the runs of a script.

ghost use Rattle.std.specs.Prelude.{◌≤◌};

use crate::case::Case;
use crate::runs::{KEEP, Run, run_kept, run_plain};
use std::alloc::Global;
use std::io;
use std::io::Write;

/// How many equal lines of replies are printed one by one at most.
const ONE_BY_ONE: usize = 9;

/// Appends lines; many equal ones are told once, with their number.
fn push_lines(lines: &[u8], text: &mut Vec<u8>) -> io::Result<()> {
    let (mut last, mut count) = (b"".as_slice(), 0usize);
    for line in lines.split_inclusive(|byte| *byte == b'\n') {
        if line != last {
            push_equal(last, count, text)?;
            (last, count) = (line, 0);
        }
        count = count.saturating_add(1);
    }
    push_equal(last, count, text)
}

/// Appends a line so many times, or once behind their number.
fn push_equal(line: &[u8], count: usize, text: &mut Vec<u8>) -> io::Result<()> {
    if count > ONE_BY_ONE {
        write!(text, "{count} times ")?;
        return Ok(text.extend_from_slice(line)?);
    }
    for _ in 0..count {
        text.extend_from_slice(line)?;
    }
    Ok(())
}

/// Appends by how much a number rose from each count to the next, where so many values are kept.
fn push_rises(name: &str, keep: usize, numbers: &[u64], text: &mut Vec<u8>) -> io::Result<()> {
    write!(text, "-- {name}")?;
    if keep > 0 {
        write!(text, " keeping {keep}")?;
    }
    write!(text, ":")?;
    let mut before = 0;
    for number in numbers {
        write!(text, " {}", number.saturating_sub(before))?;
        before = *number;
    }
    writeln!(text)
}

/// Appends what was counted in a run, where there are counts: the evaluations, and the restarts where these are asked
/// for. With two kept values the contracts leave some counts open, so these aren't told.
fn push_counted(case: &Case, run: &Run, keep: usize, text: &mut Vec<u8>) -> io::Result<()> {
    if run.counted.is_empty() || keep == 2 {
        return Ok(());
    }
    push_rises("counted", keep, &run.counted, text)?;
    if case.restarts {
        push_rises("begun again", keep, &run.restarted, text)?;
    }
    Ok(())
}

/// Appends the replies of a run where so many values are kept, if those where none is are others, and what was counted.
fn push_compared(
    case: &Case,
    plain: &Run,
    kept: &Run,
    keep: usize,
    text: &mut Vec<u8>,
) -> io::Result<()> {
    if kept.replies != plain.replies {
        writeln!(text, "-- otherwise keeping {keep}:")?;
        push_lines(&kept.replies, text)?;
    }
    push_counted(case, kept, keep, text)
}

/// Appends what is to be told of the run on the calculator that keeps so many values.
fn push_kept(
    alloc: Global,
    case: &Case,
    plain: &Run,
    keep: usize,
    text: &mut Vec<u8>,
) -> io::Result<()>
    requires { 1 ≤ keep }
{
    let kept = run_kept(alloc, case, keep)?;
    push_compared(case, plain, &kept, keep, text)
}

/// Appends what is to be told of the run where no value is kept, and of those where 1, 2 and 65,536 are.
fn push_runs(alloc: Global, case: &Case, plain: &Run, text: &mut Vec<u8>) -> io::Result<()> {
    push_lines(&plain.replies, text)?;
    push_counted(case, plain, 0, text)?;
    push_kept(alloc, case, plain, 1, text)?;
    push_kept(alloc, case, plain, 2, text)?;
    push_kept(alloc, case, plain, KEEP, text)
}

/// Appends the case's title, and what is told of its runs.
pub fn push_told(alloc: Global, case: &Case, text: &mut Vec<u8>) -> io::Result<()> {
    writeln!(text, "== {}", case.title)?;
    let plain = run_plain(alloc, case)?;
    push_runs(alloc, case, &plain, text)
}
