//! Which values have a place in a list that is too small, by what they cost.

use std::alloc::Global;
use wi_cache::Key;
use wi_store::Store;
use wi_values::Address;

/// The least cost for a place, where not all values have one.
const LEAST: u64 = 100;

/// After so many turns one way the other is tried again.
const MOST_TURNS: u64 = 64;

/// All have a place again where so many times as many questions are answered so: what is asked differs from turn to
/// turn, and what had its place for its cost is lost then.
const FAR_MORE: u64 = 4;

/// For how many keys the memory is used again. It is then 24 KB at most.
const MOST_REUSED: usize = 1_024;

/// A key that was made, and how many values had been found before.
#[derive(Clone, Copy)]
struct Begun {
    cell: Address,
    digest: u64,
    found: u64,
}

/// What values cost that come to a full list: the cost of one is how many were found on the way to it, itself among
/// them. In a list that is too small for what is asked for, each value is evicted before it is asked for again, and
/// those that cost most are missed most. So there are two ways: all values have a place, or those alone that cost much.
/// After an edit it is all, for a turn: as many values as the sheet has cells, or the list places. Then the other way
/// is tried, and goes on unless far fewer questions are answered in a turn so, as where each asks for what was found
/// just before it. This only chooses which values have a place: it costs evaluations and makes no value wrong.
#[derive(Drop)]
pub struct Costs {
    // Whether those alone have a place that cost much.
    choosy: bool,
    // How many values there are in a turn, and how many are still to come in this one.
    turn: u64,
    left: u64,
    // How many turns went this way in a row.
    turns: u64,
    // How many questions came in this turn, and in the last one that went the other way.
    asked: u64,
    others: u64,
    // While costs are counted: the keys that were made for formulas that may still wait, the last last, and how many
    // values were found.
    begun: Vec<Begun>,
    found: u64,
    // How many values the list has, and how many edits there were at the last question.
    keep: u64,
    edits: u64,
}

impl Costs {
    /// Nothing counted yet, for a list of so many values. Takes no memory.
    pub(crate) fn new(alloc: Global, keep: usize) -> Costs {
        Costs {
            choosy: false,
            turn: keep as u64,
            left: keep as u64,
            turns: 0,
            asked: 0,
            others: u64::MAX,
            begun: Vec::new(alloc),
            found: 0,
            keep: keep as u64,
            edits: 0,
        }
    }

    /// Frees the memory. Takes none.
    pub(crate) fn forget(&mut self) {
        self.begun.clear();
        self.begun.shrink_to_fit();
    }

    /// Goes on to the next question. Takes no memory.
    #[inline(always)]
    pub(crate) fn begin(&mut self, store: &Store) {
        if self.edits != store.edits() {
            self.begin_anew(store);
        }
        self.asked = self.asked.saturating_add(1);
        if !self.begun.is_empty() {
            self.forget_begun();
        }
    }

    /// Notes that a key was made. Where memory runs out it isn't noted, and its value has a place.
    #[inline(always)]
    pub(crate) fn note(&mut self, key: &Key) {
        if self.choosy {
            self.put_begun(key);
        }
    }

    /// Whether a value that was found is worth a place in a full list.
    #[inline(always)]
    pub(crate) fn is_worth(&mut self, key: &Key) -> bool {
        if self.left == 0 {
            self.end_turn();
        }
        self.left = self.left.saturating_sub(1);
        !self.choosy || self.count(key) >= LEAST
    }

    /// Notes that a value was found that has no place.
    #[inline(always)]
    pub(crate) fn pass(&mut self, key: &Key) {
        if self.choosy {
            self.count(key);
        }
    }

    /// Gives a place to all for a turn.
    fn begin_anew(&mut self, store: &Store) {
        self.edits = store.edits();
        self.choosy = false;
        self.turn = self.keep.max(store.occupied());
        self.left = self.turn;
        self.turns = 0;
        self.asked = 0;
        self.others = u64::MAX;
    }

    /// Goes on to the next turn: the other way if that is better, or wasn't tried for long.
    #[inline(never)]
    fn end_turn(&mut self) {
        self.turns = self.turns.saturating_add(1);
        if self.asked < self.enough() || self.turns >= MOST_TURNS {
            self.choosy = !self.choosy;
            self.turns = 0;
            self.others = self.asked;
        }
        self.asked = 0;
        self.left = self.turn;
    }

    /// How many questions in a turn are enough to go on this way.
    fn enough(&self) -> u64 {
        if self.choosy {
            self.others / FAR_MORE
        } else {
            self.others.saturating_mul(FAR_MORE)
        }
    }

    /// Lets the keys of an earlier question go. Their memory is used again, unless it is for many.
    #[inline(never)]
    fn forget_begun(&mut self) {
        self.begun.clear();
        if self.begun.capacity() > MOST_REUSED {
            self.begun.shrink_to_fit();
        }
    }

    #[inline(never)]
    fn put_begun(&mut self, key: &Key) {
        let _ = self.begun.push(Begun {
            cell: key.cell,
            digest: key.world.digest(),
            found: self.found,
        });
    }

    /// Counts a value that was found, and gives its cost, or the least for a place where its key wasn't noted. The keys
    /// that were made after its own go.
    #[inline(never)]
    fn count(&mut self, key: &Key) -> u64 {
        self.found = self.found.wrapping_add(1);
        match last_begun(self.begun.as_slice(), key) {
            Some((place, found)) => {
                self.begun.truncate(place);
                self.found.wrapping_sub(found)
            }
            None => {
                self.begun.clear();
                LEAST
            }
        }
    }
}

/// Where a key stands among those that were made, and how many values had been found before: the last, if it was made
/// more than once.
fn last_begun(begun: &[Begun], key: &Key) -> Option<(usize, u64)> {
    let digest = key.world.digest();
    for i in (0..begun.len()).rev() {
        let one = &begun[i];
        if one.cell == key.cell && one.digest == digest {
            return Some((i, one.found));
        }
    }
    None
}
