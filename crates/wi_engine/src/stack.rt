//! The frames that wait for one another.

ghost use Rattle.std.specs.Prelude.{◌≡◌, ◌<◌, ◌++◌, ◌∷◌, [], true, None, IfSome, MatchOption, OnOk, vec_len, vec_capacity};
ghost use Rattle.wi_engine.specs.Inner.Frames.{IsNewFrame};
ghost use Rattle.wi_engine.specs.Inner.Stacked.{HasSpaceForOne, stacked, waits_for_one};
ghost use Rattle.wi_engine.specs.Inner.StackLists.{HasLast, HaveRests, HaveSpace, IsWithFrame, count_more, frames_in};

use crate::findings::Findings;
use crate::frame::{Frame, Unvalued, Waiting};
use crate::pool::Pool;
use crate::scan::Scan;
use std::alloc::{AllocError, Global};
use std::marker::Model;
use std::mem;
use wi_cache::Key;
use wi_parser::Formula;
use wi_values::Address;

/// What a frame has beside its key and its formula.
#[derive(Clone, Copy)]
enum Beside {
    /// The one cell that it waits for. Nothing was found for it.
    OneCell(Address),
    /// What stands for it in the second list.
    More,
}

/// What the first list has of a frame.
#[derive(Drop)]
struct Entry<'a> {
    key: Key,
    formula: &'a Formula,
    beside: Beside,
}

/// What the second list has of a frame that waits for more than a cell, or for which something was found.
#[derive(Drop)]
struct Rest {
    found: Findings,
    waiting: Waiting,
    scans: Vec<Scan>,
}

/// Frames of which each waits for the next one, and the last for one that isn't here. Those of a long chain all wait at
/// once, and nearly all of them for one cell, with nothing found yet. So what only few have stands in a list of its
/// own, and a frame takes 64 bytes, half of what it takes else. None has a block of memory for itself.
#[derive(Drop)]
pub struct Stack<'a> {
    entries: Vec<Entry<'a>>,
    // Those of the entries that have more, in the same order.
    rests: Vec<Rest>,
    alloc: Global,
}

impl<'a> Model for Stack<'a> {
    ghost use Rattle.wi_engine.specs.Inner.Stacked.{StackState, frame_code, stack_code};
    ghost use Rattle.wi_cache.specs.contracts.key.Key as key;
    ghost use Rattle.wi_parser.specs.Inner.TreeCode.{tree_code};
    ghost use Rattle.wi_engine.specs.contracts.findings.Findings as findings;
    ghost use Rattle.wi_engine.specs.contracts.frame.Waiting as waiting;
    ghost use Rattle.wi_engine.specs.contracts.scan.Scan as scan;

    ghost Value = { StackState };

    ghost coded = { stack_code (frame_code key.the_row.coded tree_code findings.the_row.coded
        waiting.the_row.coded scan.the_row.coded) };

    ghost use Rattle.wi_engine.specs.Inner.StackLists.{HaveRests, stack_state};

    ghost view = { λ s. stack_state s.entries s.rests };

    ghost invariant = { λ s. HaveRests s.entries.items s.rests.items };
}

impl<'a> Stack<'a> {
    /// No frames. Takes no memory.
    pub(crate) fn new(alloc: Global) -> Stack<'a>
        ensures { result.frames ≡ [] }
    {
        Stack {
            entries: Vec::new(alloc),
            rests: Vec::new(alloc),
            alloc,
        }
    }

    /// Makes room for one frame more, whatever it has. If memory runs out, the frames are as before.
    #[inline(always)]
    pub(crate) fn reserve(&mut self) -> Result<(), AllocError>
        ensures frames { self.new.frames ≡ self.old.frames }
        ensures space { OnOk result (HasSpaceForOne self.new) }
    {
        make_space(&mut self.entries, &mut self.rests)
    }

    /// Puts what a frame is on top, and lets the frame begin with another formula. Takes no memory.
    #[inline(always)]
    pub(crate) fn push_reserved(&mut self, frame: &mut Frame<'a>, next: Unvalued<'a>)
        requires { HasSpaceForOne self.old }
        ensures frames { self.new.frames ≡ self.old.frames ++ stacked frame.old ∷ [] }
        ensures begins { IsNewFrame frame.new next.entry.key next.entry.formula.now }
    {
        let alloc = self.alloc;
        put_on(alloc, &mut self.entries, &mut self.rests, frame, next);
    }

    /// Takes what stands on top, if anything does, into a frame that is done, and gives the key that this had. Its
    /// arrays are put into a pool, or go. The work grows with the count of their values.
    #[inline(always)]
    pub(crate) fn pop(&mut self, frame: &mut Frame<'a>, pool: &mut Pool) -> Option<Key>
        ensures key { MatchOption result (frame.new ≡ frame.old) (λ k. k ≡ frame.old.key) }
        ensures frames { MatchOption result (self.old.frames ≡ [])
            (λ _. self.old.frames ≡ self.new.frames ++ stacked frame.new ∷ []) }
    {
        take_off(&mut self.entries, &mut self.rests, frame, pool)
    }
}

/// Makes room for one more in both lists. If memory runs out, what they have is as before.
#[inline(always)]
fn make_space(entries: &mut Vec<Entry>, rests: &mut Vec<Rest>) -> Result<(), AllocError>
    ensures entries { entries.new.items ≡ entries.old.items }
    ensures rests { rests.new.items ≡ rests.old.items }
    ensures space { OnOk result (HaveSpace entries.new rests.new) }
{
    entries.reserve(1)?;
    rests.reserve(1)?;
    Ok(())
}

/// Puts what a frame is on top, into the first list alone where that has all of it, and lets the frame begin with
/// another formula.
#[inline(always)]
fn put_on<'a>(
    alloc: Global,
    entries: &mut Vec<Entry<'a>>,
    rests: &mut Vec<Rest>,
    frame: &mut Frame<'a>,
    next: Unvalued<'a>,
)
    requires space { HaveSpace entries.old rests.old }
    requires rests { HaveRests entries.old.items rests.old.items }
    ensures rests { HaveRests entries.new.items rests.new.items }
    ensures frames { frames_in entries.new.items rests.new.items
        ≡ frames_in entries.old.items rests.old.items ++ stacked frame.old ∷ [] }
    ensures begins { IsNewFrame frame.new next.entry.key next.entry.formula.now }
{
    match only_cell(frame) {
        Some(at) => put_one_cell(entries, frame, at, next),
        None => {
            let above = Frame::new(alloc, next.key, next.formula);
            put_with_rest(entries, rests, mem::replace(frame, above));
        }
    }
}

/// The cell that a frame waits for, where that is all that it has beside its key and its formula.
#[inline(always)]
fn only_cell(frame: &Frame) -> Option<Address>
    ensures { IfSome result (λ a.
        stacked frame.now ≡ waits_for_one frame.now.key frame.now.formula.now a) }
{
    if !is_bare(frame) {
        return None;
    }
    let Waiting::Cells(at, others) = &frame.waiting else {
        return None;
    };
    if !others.is_empty() {
        return None;
    }
    Some(*at)
}

/// Whether no value was found for a frame, and it keeps no scan.
#[inline(always)]
fn is_bare(frame: &Frame) -> bool
    ensures found { result ≡ true → frame.now.found.lists ≡ None }
    ensures scans { result ≡ true → frame.now.scans.items ≡ [] }
{
    match frame.found.lists {
        Some(_) => false,
        None => frame.scans.is_empty(),
    }
}

/// Puts what a frame is on top, which has nothing but the cell that it waits for. Its lists are empty, and stay for the
/// other formula.
#[inline(always)]
fn put_one_cell<'a>(
    entries: &mut Vec<Entry<'a>>,
    frame: &mut Frame<'a>,
    at: Address,
    next: Unvalued<'a>,
)
    requires space { vec_len entries.old < vec_capacity entries.old }
    requires alone { stacked frame.old ≡ waits_for_one frame.old.key frame.old.formula.now at }
    ensures rests { count_more entries.new.items ≡ count_more entries.old.items }
    ensures frames { IsWithFrame entries.old.items entries.new.items frame.old }
    ensures begins { IsNewFrame frame.new next.entry.key next.entry.formula.now }
{
    let formula = frame.formula;
    frame.formula = next.formula;
    frame.waiting = Waiting::Nothing;
    entries.push_reserved(Entry {
        key: mem::replace(&mut frame.key, next.key),
        formula,
        beside: Beside::OneCell(at),
    });
}

/// Puts a frame on top that has more.
#[inline(always)]
fn put_with_rest<'a>(entries: &mut Vec<Entry<'a>>, rests: &mut Vec<Rest>, frame: Frame<'a>)
    requires space { HaveSpace entries.old rests.old }
    requires rests { HaveRests entries.old.items rests.old.items }
    ensures rests { HaveRests entries.new.items rests.new.items }
    ensures frames { frames_in entries.new.items rests.new.items
        ≡ frames_in entries.old.items rests.old.items ++ stacked frame.entry ∷ [] }
{
    rests.push_reserved(Rest {
        found: frame.found,
        waiting: frame.waiting,
        scans: frame.scans,
    });
    entries.push_reserved(Entry {
        key: frame.key,
        formula: frame.formula,
        beside: Beside::More,
    });
}

/// Takes what stands on top, if anything does, into a frame that is done, and gives the key that this had.
#[inline(always)]
fn take_off<'a>(
    entries: &mut Vec<Entry<'a>>,
    rests: &mut Vec<Rest>,
    frame: &mut Frame<'a>,
    pool: &mut Pool,
) -> Option<Key>
    requires { HaveRests entries.old.items rests.old.items }
    ensures rests { HaveRests entries.new.items rests.new.items }
    ensures key { MatchOption result (frame.new ≡ frame.old) (λ k. k ≡ frame.old.key) }
    ensures frames { MatchOption result (frames_in entries.old.items rests.old.items ≡ [])
        (λ _. frames_in entries.old.items rests.old.items
        ≡ frames_in entries.new.items rests.new.items ++ stacked frame.new ∷ []) }
{
    let Entry {
        key,
        formula,
        beside,
    } = entries.pop()?;
    match beside {
        Beside::OneCell(at) => Some(take_one_cell(frame, pool, key, formula, at)),
        Beside::More => {
            let below = with_last(key, formula, rests);
            Some(mem::replace(frame, below).retire(pool))
        }
    }
}

/// Lets a frame that is done be the one that waits for a cell, with nothing found, and gives the key that it had. Takes
/// no memory but for the pool, into which its arrays are put.
#[inline(always)]
fn take_one_cell<'a>(
    frame: &mut Frame<'a>,
    pool: &mut Pool,
    key: Key,
    formula: &'a Formula,
    at: Address,
) -> Key
    ensures key { result ≡ frame.old.key }
    ensures frame { stacked frame.new ≡ waits_for_one key formula.now at }
{
    let alloc = pool.allocator();
    mem::replace(&mut frame.found, Findings { lists: None }).recycle(pool);
    pool.put_scans(mem::replace(&mut frame.scans, Vec::new(alloc)));
    frame.waiting = Waiting::Cells(at, Vec::new(alloc));
    frame.formula = formula;
    mem::replace(&mut frame.key, key)
}

/// The frame with what stands last in the second list, which is taken away there.
#[inline(always)]
fn with_last<'a>(key: Key, formula: &'a Formula, rests: &mut Vec<Rest>) -> Frame<'a>
    requires { 0 < vec_len rests.old }
    ensures { HasLast rests.old.items rests.new.items key formula.now result }
{
    match rests.pop() {
        Some(rest) => Frame {
            key,
            formula,
            found: rest.found,
            waiting: rest.waiting,
            scans: rest.scans,
        },
        None => unreachable!(),
    }
}
