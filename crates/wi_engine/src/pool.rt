//! Arrays of frames that are done, for those to come.

ghost use Rattle.std.specs.Prelude.{◌≡◌, ℕ, [], None, IfOk};
ghost use Rattle.wi_engine.specs.Inner.Lists.{listed_value};

use crate::lists::Lists;
use crate::scan::Scan;
use std::alloc::{AllocError, Global};
use std::mem;
use wi_values::Value;

/// How many lists of values are kept, and of scans. Formulas that are evaluated one after another seldom stand deeper
/// in one another.
const MAX_KEPT: usize = 64;

/// How many values or scans an array may have that is kept. A pool takes less than a megabyte then.
const MAX_FILLED: usize = 64;

/// How many values the list may have that is kept for a plan.
const MAX_VALUES: usize = 4096;

/// Arrays whose memory is used again, by later formulas of a question and by later questions.
#[derive(Drop)]
pub struct Pool {
    lists: Vec<Box<Lists>>,
    scans: Vec<Vec<Scan>>,
    values: Vec<Value>,
    alloc: Global,
}

impl Pool {
    /// No arrays. Takes no memory.
    pub fn new(alloc: Global) -> Pool {
        Pool {
            lists: Vec::new(alloc),
            scans: Vec::new(alloc),
            values: Vec::new(alloc),
            alloc,
        }
    }

    /// Where its arrays have their memory.
    pub fn allocator(&self) -> Global {
        self.alloc
    }

    /// The lists that were put in last, or new ones, without values.
    #[inline(always)]
    pub(crate) fn take(&mut self) -> Result<Box<Lists>, AllocError>
        ensures cells { IfOk result (λ lists. (c : ℕ) → listed_value lists.value c ≡ None) }
        ensures what_ifs { IfOk result (λ lists. lists.value.what_ifs.items ≡ []) }
    {
        match self.lists.pop() {
            Some(mut lists) => {
                if !lists.are_empty() {
                    lists.clear();
                }
                Ok(lists)
            }
            None => Ok(Box::new(self.alloc, Lists::new(self.alloc))?),
        }
    }

    /// Puts lists in, without their values. They go where there are many already or they are large, and where memory
    /// runs out. The work grows with the count of their values; the pool may take memory for more.
    #[inline(always)]
    pub(crate) fn put(&mut self, mut lists: Box<Lists>) {
        if self.lists.len() < MAX_KEPT && lists.is_within(MAX_FILLED) {
            lists.clear();
            let _ = self.lists.push(lists);
        }
    }

    /// The scans that were put in last, or a new list, without scans. Takes no memory.
    pub(crate) fn take_scans(&mut self) -> Vec<Scan> {
        match self.scans.pop() {
            Some(scans) => scans,
            None => Vec::new(self.alloc),
        }
    }

    /// Puts a list of scans in, as `put`, if it has any.
    #[inline(always)]
    pub(crate) fn put_scans(&mut self, mut scans: Vec<Scan>) {
        if scans.is_empty() {
            return;
        }
        if self.scans.len() < MAX_KEPT && scans.len() <= MAX_FILLED {
            scans.clear();
            let _ = self.scans.push(scans);
        }
    }

    /// The list of values that was put in last, or a new one, without values. Takes no memory.
    pub(crate) fn take_values(&mut self) -> Vec<Value>
        ensures { result.items ≡ [] }
    {
        let mut values = mem::replace(&mut self.values, Vec::new(self.alloc));
        values.clear();
        values
    }

    /// Puts a list of values in, without them. They go where they are many.
    pub(crate) fn put_values(&mut self, mut values: Vec<Value>) {
        if values.len() <= MAX_VALUES {
            values.clear();
            self.values = values;
        }
    }
}
