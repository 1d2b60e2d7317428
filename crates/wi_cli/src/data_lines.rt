//! The data lines behind a line that asks for them.

ghost use Rattle.std.specs.Prelude.{◌≡◌, ◌+◌, ◌<◌, ◌≤◌, ◌++◌, ◌∷◌, ◌&&◌, ◌||◌, nat_lt, [], List, ℕ, false, true, length, MatchResult, IfOk, OnOk, vec_capacity};
ghost use Rattle.wi_cli.specs.Lines.{raw_lines, is_whole};
ghost use Rattle.wi_cli.specs.Lines.{max_lines};
ghost use Rattle.wi_cli.specs.Inner.Reading.{raw, line_front, CanRead, ReadsOn, place_of, IsOver};
ghost use Rattle.wi_cli.specs.Inner.Data.{wants, Holds, HoldsLines, AddedTo, TookData, BrokeData};

use crate::again::{forget, free_bytes};
use crate::csv_line::CsvLine;
use crate::fault::RunFault;
use crate::lines::{LineReader, MAX_LINE, next_line};
use std::alloc::{AllocError, Global};
use wi_devices::Source;
use wi_propagate::Calculator;
use wi_scenarios::Workbook;

/// What became of the data lines that were taken.
#[derive(Clone, Copy)]
pub enum Held {
    /// All are held, where they are wanted.
    All,
    /// Memory ran out.
    Lacking,
    /// One is too long.
    TooLong,
}

/// The data lines of a line, as they are taken.
#[derive(Drop)]
pub struct DataLines {
    pub wanted: bool,
    pub missing: u32,
    pub held: Held,
    pub bytes: Vec<u8>,
}

/// Whether the data lines are wanted. They aren't where the line is refused whatever they are.
fn wants(csv: &CsvLine) -> bool
    ensures { result ≡ wants csv.now }
{
    csv.is_text && csv.at.is_ok()
}

/// Appends the bytes of a line.
fn append(bytes: &mut Vec<u8>, line: &[u8], whole: bool) -> Result<(), AllocError>
    ensures { OnOk result (bytes.new.items ≡ bytes.old.items ++ raw whole line.now) }
{
    bytes.extend_from_slice(line)?;
    if whole {
        bytes.push(b'\n')?;
    }
    Ok(())
}

/// Makes room for so many bytes more. Where memory runs out, what can be found again is freed, and memory is asked for
/// once more when they are appended.
fn reserve_bytes<C: Calculator>(
    bytes: &mut Vec<u8>,
    count: usize,
    book: &mut Workbook<C>,
    spare: &mut Vec<u8>,
)
    ensures items { bytes.new.items ≡ bytes.old.items }
    ensures book { book.new ≡ book.old }
{
    if bytes.reserve(count).is_err() {
        forget(book, spare);
    }
}

/// Holds one more line, if lines are wanted and it is not too long. Where memory runs out, what can be found again is
/// freed; where it runs out still, the lines before go too.
fn hold<C: Calculator>(
    bytes: &mut Vec<u8>,
    wanted: bool,
    line: &[u8],
    whole: bool,
    book: &mut Workbook<C>,
    spare: &mut Vec<u8>,
) -> Held
    ensures held { (content : List ℕ) → is_whole content ≡ false → line.now ≡ line_front content
        → (before : List (List ℕ)) → Holds wanted Held.All bytes.old.items before
        → Holds wanted result bytes.new.items (before ++ raw whole content ∷ []) }
    ensures book { book.new ≡ book.old }
{
    if line.len() > MAX_LINE {
        return Held::TooLong;
    }
    if !wanted {
        return Held::All;
    }
    reserve_bytes(bytes, line.len() + 1, book, spare);
    match append(bytes, line, whole) {
        Ok(()) => Held::All,
        Err(_) => {
            free_bytes(bytes);
            Held::Lacking
        }
    }
}

/// Whether these are the bytes of a line. Behind the last LF there may be none.
fn is_line(line: &[u8], whole: bool) -> bool
    ensures { result ≡ (whole || nat_lt 0 (length line.now)) }
{
    whole || !line.is_empty()
}

impl DataLines {
    /// Those of no line.
    pub(crate) fn new(alloc: Global) -> Self {
        DataLines {
            wanted: false,
            missing: 0,
            held: Held::All,
            bytes: Vec::new(alloc),
        }
    }

    /// Makes ready for the data lines of this line.
    fn begin(&mut self, csv: &CsvLine)
        ensures wanted { self.new.wanted ≡ wants csv.now }
        ensures missing { self.new.missing ≡ csv.now.lines }
        ensures held { HoldsLines self.new [] }
    {
        self.wanted = wants(csv);
        self.missing = csv.lines;
        self.held = Held::All;
        self.bytes.clear();
    }

    /// Adds a line, if these are the bytes of one.
    fn add<C: Calculator>(
        &mut self,
        line: &[u8],
        whole: bool,
        book: &mut Workbook<C>,
        spare: &mut Vec<u8>,
    )
        requires { 0 < self.old.missing }
        ensures added { (content : List ℕ) → is_whole content ≡ false
            → line.now ≡ line_front content
            → AddedTo self.old self.new (raw_lines (raw whole content)) }
        ensures book { book.new ≡ book.old }
    {
        if !is_line(line, whole) {
            return;
        }
        self.missing -= 1;
        if let Held::All = self.held {
            self.held = hold(&mut self.bytes, self.wanted, line, whole, book, spare);
        }
    }

    /// Whether a line is missing that may still come.
    fn goes_on(&self, whole: bool) -> bool
        ensures { result ≡ (whole && nat_lt 0 self.now.missing) }
    {
        whole && self.missing > 0
    }
}

/// Takes the data lines that a line asks for, as far as there are any, and tells whether the last LF came. The line's
/// own is told by `whole`. Where memory runs out for them, all that can be found again is freed, with the memory of
/// bytes that aren't used any more.
pub(crate) fn read_data<R: Source, C: Calculator>(
    script: &mut LineReader,
    source: &mut R,
    data_lines: &mut DataLines,
    csv: &CsvLine,
    mut whole: bool,
    book: &mut Workbook<C>,
    spare: &mut Vec<u8>,
) -> Result<bool, RunFault>
    requires reads { CanRead (R.has_failed source.old) (vec_capacity script.old.line) }
    requires few { script.old.lines ≤ max_lines }
    requires at_end { whole ≡ false → IsOver (place_of R.remaining script.old source.old) }
    ensures took { let place = place_of R.remaining in
        let old = place script.old source.old in let new = place script.new source.new in
        MatchResult result (λ end. TookData csv.now.lines data_lines.new whole end old new)
        (λ e. BrokeData csv.now.lines whole e old new) }
    ensures all { IfOk result (λ end. end ≡ true → data_lines.new.missing ≡ 0) }
    ensures wanted { OnOk result (data_lines.new.wanted ≡ wants csv.now) }
    ensures book { book.new ≡ book.old }
    ensures reads { ReadsOn result (R.has_failed source.new) (vec_capacity script.new.line) }
{
    data_lines.begin(csv);
    'taking: while data_lines.goes_on(whole) {
        whole = next_line(script, source)?;
        data_lines.add(&script.line, whole, book, spare);
    }
    Ok(whole)
}
