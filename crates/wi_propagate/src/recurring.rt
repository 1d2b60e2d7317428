//! Which replacements come back from one question to another.

use std::alloc::{AllocError, Global};
use wi_worlds::World;

/// One sighting is kept for so many places of the list.
const VALUES_PER_SIGHTING: usize = 4;

/// Of how many new worlds the values are kept after one came back.
const HOPED: u32 = 8;

/// A world that came: its digest, and the number of the question in which it came first.
#[derive(Clone, Copy)]
struct Sighting {
    digest: u64,
    question: u64,
}

/// Which worlds came of late. A table of what-ifs asks for each of its worlds once, so that a value that takes a place
/// in a full list is never found again; of others, as of several formulas over the same inputs, each comes back. This
/// only chooses which values have a place, so that a world that is taken for another one, or whose sighting another one
/// took, costs evaluations and makes no value wrong.
#[derive(Drop)]
pub struct Recurring {
    sightings: Vec<Sighting>,
    places: usize,
    question: u64,
    // The digest of the world that was asked for last in this question, and the answer.
    last: u64,
    answer: bool,
    // Of how many new worlds to come the values are kept.
    hoped: u32,
}

impl Recurring {
    /// No worlds yet, for a list of so many values. Takes no memory.
    pub(crate) fn new(alloc: Global, keep: usize) -> Recurring {
        Recurring {
            sightings: Vec::new(alloc),
            places: keep / VALUES_PER_SIGHTING + 1,
            question: 0,
            last: 0,
            answer: true,
            hoped: 0,
        }
    }

    /// Frees the memory of the sightings. Takes none.
    pub(crate) fn forget(&mut self) {
        self.sightings.clear();
        self.sightings.shrink_to_fit();
    }

    /// Goes on to the next question.
    pub(crate) fn begin(&mut self) {
        self.question = self.question.wrapping_add(1);
        self.last = 0;
        self.answer = true;
    }

    /// Whether the values of a world are worth a place: it came in an earlier question, or it is new, and one that was
    /// new of late came back. For the first world memory for all sightings is taken, four bytes for each value of the
    /// list. If it runs out, all stays as it was.
    #[inline(always)]
    pub(crate) fn comes_back(&mut self, world: &World) -> Result<bool, AllocError> {
        let digest = world.digest();
        if digest != self.last {
            self.answer = self.look_up(digest)?;
            self.last = digest;
        }
        Ok(self.answer)
    }

    #[inline(never)]
    fn look_up(&mut self, digest: u64) -> Result<bool, AllocError> {
        if self.sightings.is_empty() {
            let none = Sighting {
                digest: 0,
                question: 0,
            };
            self.sightings.resize_with(self.places, || none)?;
        }
        let place = digest % (self.sightings.len() as u64).max(1);
        let Some(sighting) = self.sightings.get_mut(place as usize) else {
            return Ok(true);
        };
        if sighting.digest != digest {
            *sighting = Sighting {
                digest,
                question: self.question,
            };
            self.hoped = self.hoped.saturating_sub(1);
        } else if sighting.question != self.question {
            self.hoped = HOPED;
            return Ok(true);
        }
        Ok(self.hoped > 0)
    }
}
