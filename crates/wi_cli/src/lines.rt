//! The lines of a source.

ghost use Rattle.std.specs.Prelude.{◌++◌, List, ℕ, ◌≡◌, ◌+◌, ◌≤◌, MatchResult, nat_lt, vec_capacity};
ghost use Rattle.wi_cli.specs.Lines.{max_lines};
ghost use Rattle.wi_cli.specs.Inner.Reading.{CanRead, ReadsOn, TookLine, TookPart, Broke, line_front, place_of, TookNext, BrokeNext};

use crate::chunk::Chunk;
use crate::fault::RunFault;
use memchr::memchr;
use wi_devices::Source;

/// The greatest length of a line in bytes, without its LF.
pub const MAX_LINE: usize = 65_536;

/// How many lines a script may have.
pub const MAX_LINES: u32 = 1_000_000;

/// What reads the lines of a script.
#[derive(Drop)]
pub struct LineReader {
    /// The bytes that were read and not yet taken.
    pub chunk: Chunk,
    /// The line that was taken last; of one over the limit its front.
    pub line: Vec<u8>,
    /// How many lines were taken whole.
    pub lines: u32,
}

/// Takes the next line, without its LF, and tells whether its LF came. Of a line over the limit
/// the front is kept, one byte more than the limit. With no LF and no byte the input has ended.
fn take_line<R: Source>(
    chunk: &mut Chunk,
    source: &mut R,
    line: &mut Vec<u8>,
    allowed: bool,
) -> Result<bool, RunFault>
    requires { CanRead (R.has_failed source.old) (vec_capacity line.old) }
    ensures took { MatchResult result
        (λ whole. TookLine allowed whole chunk.old (R.remaining source.old)
        chunk.new (R.remaining source.new) line.new.items)
        (λ e. Broke e allowed chunk.old (R.remaining source.old)
        chunk.new (R.remaining source.new)) }
    ensures reads { ReadsOn result (R.has_failed source.new) (vec_capacity line.new) }
{
    line.clear();
    if !chunk.fill(source)? {
        return Ok(false);
    }
    if !allowed {
        chunk.skip(1);
        return Err(RunFault::ScriptLimit);
    }
    while !take_part(chunk, line) {
        if !chunk.fill(source)? {
            return Ok(false);
        }
    }
    Ok(true)
}

/// Takes the bytes that are left up to the next LF, and with it, or all of them, and adds them to the line without the
/// LF. Tells whether the LF came.
fn take_part(chunk: &mut Chunk, line: &mut Vec<u8>) -> bool
    requires { MAX_LINE + 1 ≤ vec_capacity line.old }
    ensures took { TookPart result chunk.old chunk.new line.old.items line.new.items }
    ensures headroom { MAX_LINE + 1 ≤ vec_capacity line.new }
{
    let rest = chunk.rest();
    match memchr(b'\n', rest) {
        Some(count) => {
            keep(line, &rest[..count]);
            chunk.skip(count + 1);
            true
        }
        None => {
            let count = rest.len();
            keep(line, rest);
            chunk.skip(count);
            false
        }
    }
}

/// Adds bytes to the front of a line, up to one byte more than the limit.
fn keep(line: &mut Vec<u8>, bytes: &[u8])
    requires { MAX_LINE + 1 ≤ vec_capacity line.old }
    ensures kept { (content : List ℕ) → line.old.items ≡ line_front content
        → line.new.items ≡ line_front (content ++ bytes.now) }
    ensures headroom { MAX_LINE + 1 ≤ vec_capacity line.new }
{
    let headroom = (MAX_LINE + 1).saturating_sub(line.len());
    let count = headroom.min(bytes.len());
    let _ = line.extend_from_slice(&bytes[..count]);
}

/// Whether a run that has taken so many lines may take one more.
fn may_go_on(lines: u32) -> bool
    ensures { result ≡ nat_lt lines max_lines }
{
    lines < MAX_LINES
}

/// Takes the next line as `take_line` does, where the script may have one more, and counts it if its LF came.
pub(crate) fn next_line<R: Source>(
    script: &mut LineReader,
    source: &mut R,
) -> Result<bool, RunFault>
    requires { CanRead (R.has_failed source.old) (vec_capacity script.old.line) }
    ensures took { let place = place_of R.remaining in
        let old = place script.old source.old in let new = place script.new source.new in
        MatchResult result (λ whole. TookNext whole old new script.new.line.items)
        (λ e. BrokeNext e old new) }
    ensures reads { ReadsOn result (R.has_failed source.new) (vec_capacity script.new.line) }
{
    let allowed = may_go_on(script.lines);
    let whole = take_line(&mut script.chunk, source, &mut script.line, allowed)?;
    if whole {
        script.lines += 1;
    }
    Ok(whole)
}
