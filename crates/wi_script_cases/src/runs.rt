//! Runs of a case's script, each on a new workbook.

ghost use Rattle.std.specs.Prelude.{◌≤◌};

use crate::byte_spelling::misspelled;
use crate::case::Case;
use std::alloc::Global;
use std::io;
use wi_cli::{ReadFrom, WriteTo, run};
use wi_propagate::{Calculator, KeptCalculator, PlainCalculator};
use wi_scenarios::Workbook;

/// How many values the program keeps.
pub const KEEP: usize = 65_536;

/// What a run wrote, and how often formulas were evaluated and begun again.
#[derive(Drop)]
pub struct Run {
    /// The evaluations up to each count.
    pub counted: Vec<u64>,
    /// The restarts up to each count.
    pub restarted: Vec<u64>,
    pub replies: Vec<u8>,
}

impl Run {
    /// A run of nothing.
    fn new(alloc: Global) -> Run {
        Run {
            counted: Vec::new(alloc),
            restarted: Vec::new(alloc),
            replies: Vec::new(alloc),
        }
    }
}

/// Runs a part of a script on a workbook, and appends the replies.
fn run_part<C: Calculator + Drop>(
    alloc: Global,
    part: &[u8],
    book: &mut Workbook<C>,
    replies: &mut Vec<u8>,
) -> io::Result<()> {
    let mut source = ReadFrom::new(part);
    match run(alloc, &mut source, &mut WriteTo::new(replies), book) {
        Ok(()) => Ok(()),
        Err(_) => Err(misspelled()),
    }
}

/// Runs a case's script part by part, and notes the evaluations and restarts after each that ends with a count.
fn run_parts<C: Calculator + Drop>(
    alloc: Global,
    case: &Case,
    book: &mut Workbook<C>,
    told: &mut Run,
) -> io::Result<()> {
    for part in &case.counted {
        run_part(alloc, part, book, &mut told.replies)?;
        told.counted.push(book.calculator().evaluations())?;
        told.restarted.push(book.calculator().restarts())?;
    }
    run_part(alloc, &case.script, book, &mut told.replies)
}

/// Runs a case's script on an empty sheet.
fn run_on<C: Calculator + Drop>(
    alloc: Global,
    case: &Case,
    calculator: C,
    told: &mut Run,
) -> io::Result<()> {
    let mut book = Workbook::new(alloc, calculator)?;
    let outcome = run_parts(alloc, case, &mut book, told);
    drop(book);
    outcome
}

/// Runs a case's script on the plain calculator.
pub fn run_plain(alloc: Global, case: &Case) -> io::Result<Run> {
    let calculator = PlainCalculator::new(alloc, case.limits);
    let mut told = Run::new(alloc);
    run_on(alloc, case, calculator, &mut told)?;
    Ok(told)
}

/// Runs a case's script on the calculator that keeps so many values.
pub fn run_kept(alloc: Global, case: &Case, keep: usize) -> io::Result<Run>
    requires { 1 ≤ keep }
{
    let calculator = KeptCalculator::new(alloc, case.limits, keep)?;
    let mut told = Run::new(alloc);
    run_on(alloc, case, calculator, &mut told)?;
    Ok(told)
}
