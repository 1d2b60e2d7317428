//! Where to look for the cells that are pending for a session.

ghost use Rattle.std.specs.Prelude.{◌≡◌, ◌<◌, ℕ, List, true, length, [], OnOk};
ghost use Rattle.wi_values.specs.Address.{is_one_of};
ghost use Rattle.wi_sessions.specs.Inner.Unread.{is_unread, HavePlaces, AreLookedAt};

use std::alloc::{AllocError, Global};
use wi_values::Address;

/// Where the cells stand that are pending for a session or have room only: behind a place of the list of changed cells,
/// or in a list of its own. They may stand anywhere where it hasn't looked for long.
#[derive(Drop)]
pub(crate) struct Unread {
    pub(crate) anywhere: bool,
    pub(crate) from: usize,
    pub(crate) own: Vec<Address>,
}

impl Unread {
    /// Nothing before a place, and nothing of its own. Takes no memory.
    pub(crate) fn new(alloc: Global, from: usize) -> Unread
        ensures { result.from ≡ from }
    {
        Unread {
            anywhere: false,
            from,
            own: Vec::new(alloc),
        }
    }

    /// Tracks cells of its own; where there are more than so many, they may stand anywhere.
    pub(crate) fn track(&mut self, cells: &[Address], limit: usize) -> Result<(), AllocError>
        ensures from { self.new.from ≡ self.old.from }
        ensures stay { (changed : List ℕ) (c : ℕ) → is_unread changed self.old c ≡ true
            → is_unread changed self.new c ≡ true }
        ensures own { OnOk result ((changed : List ℕ) (c : ℕ) → is_one_of cells.now c ≡ true
            → is_unread changed self.new c ≡ true) }
    {
        if is_longer(self.own.len(), cells.len(), limit) {
            self.anywhere = true;
            self.own.clear();
            return Ok(());
        }
        self.own.extend_from_slice(cells)?;
        Ok(())
    }

    /// Its cells may stand anywhere. Takes no memory.
    fn look_anywhere(&mut self)
        ensures anywhere { self.new.anywhere ≡ true }
        ensures from { self.new.from ≡ self.old.from }
    {
        self.anywhere = true;
    }

    /// Whether nothing stands behind its place in a list of this length.
    fn has_read(&self, count: usize) -> bool
        ensures { result ≡ true → self.now.from ≡ count }
    {
        self.from == count
    }

    /// The list of changed cells, which had this length, is empty now. Takes no memory.
    fn begin_anew(&mut self, count: usize)
        ensures from { self.new.from ≡ 0 }
        ensures stay { (changed : List ℕ) (c : ℕ) → length changed ≡ count
            → is_unread changed self.old c ≡ true → is_unread ([]) self.new c ≡ true }
    {
        if self.has_read(count) {
            self.from = 0;
            return;
        }
        self.anywhere = true;
        self.own.clear();
        self.from = 0;
    }

    /// All is read up to a place. Takes no memory.
    pub(crate) fn read(&mut self, count: usize)
        ensures { self.new.from ≡ count }
    {
        self.anywhere = false;
        self.from = count;
        self.own.clear();
    }
}

/// Whether two counts together are more than so many.
fn is_longer(count: usize, more: usize, limit: usize) -> bool {
    count.saturating_add(more) > limit
}

/// The list of changed cells, which had this length, is empty now.
fn begin_anew(unread: &mut Vec<Unread>, count: usize)
    ensures lists { length unread.new.items ≡ length unread.old.items }
    ensures places { (words : List (ℕ × ℕ)) (changed : List ℕ) → length changed ≡ count
        → HavePlaces words changed unread.old.items → HavePlaces words ([]) unread.new.items }
{
    for i in 0..unread.len() {
        unread[i].begin_anew(count);
    }
}

/// A session that is alone looks anywhere: all cells are pending for it, so that no list of them is wanted. Takes no
/// memory.
fn track_alone(unread: &mut Vec<Unread>)
    requires { length unread.old.items ≡ 1 }
    ensures lists { length unread.new.items ≡ length unread.old.items }
    ensures places { (words : List (ℕ × ℕ)) (changed : List ℕ)
        → HavePlaces words changed unread.old.items → HavePlaces words changed unread.new.items }
    ensures looked { (cells changed : List ℕ) → AreLookedAt cells changed unread.new.items }
{
    unread[0].look_anywhere();
}

/// Tracks changed cells. Where their list would be longer than so many, it begins anew, and who hasn't read it has to
/// look anywhere.
pub(crate) fn track(
    changed: &mut Vec<Address>,
    unread: &mut Vec<Unread>,
    cells: &[Address],
    limit: usize,
) -> Result<(), AllocError>
    ensures lists { length unread.new.items ≡ length unread.old.items }
    ensures places { (words : List (ℕ × ℕ)) → HavePlaces words changed.old.items unread.old.items
        → HavePlaces words changed.new.items unread.new.items }
    ensures looked { OnOk result
        ((words : List (ℕ × ℕ)) → HavePlaces words changed.old.items unread.old.items
        → AreLookedAt cells.now changed.new.items unread.new.items) }
{
    let count = unread.len();
    if count == 1 {
        track_alone(unread);
        return Ok(());
    }
    if is_longer(changed.len(), cells.len(), limit) {
        return track_anew(changed, unread, cells);
    }
    changed.extend_from_slice(cells)?;
    Ok(())
}

/// Tracks changed cells in a list that begins anew with them; who hasn't read the old list has to look anywhere.
fn track_anew(
    changed: &mut Vec<Address>,
    unread: &mut Vec<Unread>,
    cells: &[Address],
) -> Result<(), AllocError>
    ensures lists { length unread.new.items ≡ length unread.old.items }
    ensures places { (words : List (ℕ × ℕ)) → HavePlaces words changed.old.items unread.old.items
        → HavePlaces words changed.new.items unread.new.items }
    ensures looked { OnOk result
        ((words : List (ℕ × ℕ)) → HavePlaces words changed.old.items unread.old.items
        → AreLookedAt cells.now changed.new.items unread.new.items) }
{
    begin_anew(unread, changed.len());
    changed.clear();
    changed.extend_from_slice(cells)?;
    Ok(())
}
