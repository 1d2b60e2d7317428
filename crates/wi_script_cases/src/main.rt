//! Reads scripts, some of them with their replies. Of the ones it prints what they show on calculators that keep values
//! and on one that keeps none, and how many formulas these evaluate; of the others what becomes of them where a stream
//! fails. A line such as `@scripts` begins a section, and the lines below it are its cases; in the head of each section
//! stands its notation.
#![tactic(auto)]

mod byte_spelling;
mod case;
mod device_faults;
mod device_runs;
mod exchange;
mod failing_devices;
mod runs;
mod scripts;

use case::Case;
use exchange::Exchange;
use std::alloc::Global;
use std::io;
use std::io::Write;

/// What the cases of a section are about.
#[derive(Clone, Copy)]
enum Section {
    Scripts,
    Devices,
}

/// The cases, line by line, which are run once all lines are read, and in which section they are.
#[derive(Drop)]
struct Cases {
    section: Section,
    scripts: Vec<Case>,
    exchanges: Vec<Exchange>,
}

/// The section that a line begins.
fn begun(line: &str) -> Option<Section> {
    match line {
        "@scripts" => Some(Section::Scripts),
        "@devices" => Some(Section::Devices),
        _ => None,
    }
}

/// Takes a line of a script, or a title, with which a case begins; what stands before the first title is a comment.
fn take_script_line(alloc: Global, line: &str, cases: &mut Vec<Case>) -> io::Result<()> {
    if let Some(title) = line.strip_prefix("== ") {
        cases.push(Case::new(alloc, title)?)?;
    } else if let Some(case) = cases.last_mut() {
        case.take(alloc, line)?;
    }
    Ok(())
}

/// Takes a line of a script and its replies, or a title, with which a case begins.
fn take_exchange_line(alloc: Global, line: &str, exchanges: &mut Vec<Exchange>) -> io::Result<()> {
    if let Some(title) = line.strip_prefix("== ") {
        exchanges.push(Exchange::new(alloc, title)?)?;
    } else if let Some(exchange) = exchanges.last_mut() {
        exchange.take(line)?;
    }
    Ok(())
}

impl Cases {
    /// No cases yet.
    fn new(alloc: Global) -> Cases {
        Cases {
            section: Section::Scripts,
            scripts: Vec::new(alloc),
            exchanges: Vec::new(alloc),
        }
    }

    /// Takes a line that begins a section, or one of a case.
    fn take(&mut self, alloc: Global, line: &str) -> io::Result<()> {
        if let Some(section) = begun(line) {
            self.section = section;
            return Ok(());
        }
        match self.section {
            Section::Scripts => take_script_line(alloc, line, &mut self.scripts),
            Section::Devices => take_exchange_line(alloc, line, &mut self.exchanges),
        }
    }

    /// Runs the scripts, and writes what they show.
    fn run_all(&self, rt: &HostRuntime) -> io::Result<()> {
        for case in &self.scripts {
            let mut text = Vec::new(rt.alloc());
            scripts::push_told(rt.alloc(), case, &mut text)?;
            io::writer(rt).write_all(&text)?;
        }
        for exchange in &self.exchanges {
            let mut text = Vec::new(rt.alloc());
            device_faults::push_told(rt.alloc(), exchange, &mut text)?;
            io::writer(rt).write_all(&text)?;
        }
        io::writer(rt).flush()
    }

    /// Takes the lines of standard input, and then runs the scripts among them.
    fn take_all(&mut self, rt: &HostRuntime) -> io::Result<()> {
        for line in rt.lines(rt.alloc()) {
            self.take(rt.alloc(), &line?)?;
        }
        self.run_all(rt)
    }
}

fn main(rt: HostRuntime) -> io::Result<()> {
    let mut cases = Cases::new(rt.alloc());
    let outcome = cases.take_all(&rt);
    drop(cases);
    outcome
}
