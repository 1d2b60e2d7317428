//! A rectangle of cells.

ghost use Rattle.std.specs.Prelude.{◌≡◌, ◌==◌, ◌<◌, ◌≤◌, ℕ, true, length, IfSome};
ghost use Rattle.std.specs.List.{position};
ghost use Rattle.std.specs.Str.{byte};
ghost use Rattle.wi_values.specs.Address.{rect_of, is_within, height, width, size_of, is_column, is_row};
ghost use Rattle.wi_values.specs.AddressReading.{corners, read_rect};
ghost use Rattle.wi_values.specs.Inner.Cells.{IsAtOrBefore};

use crate::address::{Address, AddressFault};
use std::marker::Model;

/// A rectangle of cells, seen as its upper left and its lower right. The default is that of A1 alone.
#[derive(Clone, Copy, PartialEq, Eq, Default)]
pub struct Rect {
    first: Address,
    last: Address,
}

impl Model for Rect {
    ghost use Rattle.wi_values.specs.Address.{Area, HasCornersInOrder};

    ghost Value = { Area };

    ghost view = { λ r. record { first = r.first; last = r.last } };

    ghost invariant = { λ r. HasCornersInOrder (record { first = r.first; last = r.last }) };

    ghost inverse = { λ a. record { first = a.first; last = a.last } };
}

impl Rect {
    /// The rectangle with these corners, which may stand in any order.
    pub fn new(a: Address, b: Address) -> Rect
        ensures { result ≡ rect_of a b }
    {
        Rect {
            first: Address::at(a.row().min(b.row()), a.column().min(b.column())),
            last: Address::at(a.row().max(b.row()), a.column().max(b.column())),
        }
    }

    /// The rectangle of one cell.
    pub fn of(cell: Address) -> Rect
        ensures { result ≡ rect_of cell cell }
    {
        Rect {
            first: cell,
            last: cell,
        }
    }

    /// The rectangle that a text such as `B2:A1` or `B2` names.
    #[tactic(auto, unfolding(crate::specs::AddressReading::read_rect))]
    pub fn read(bytes: &[u8]) -> Result<Rect, AddressFault>
        ensures { result ≡ read_rect bytes.now }
    {
        match colon_at(bytes) {
            None => {
                let cell = Address::read(bytes)?;
                Ok(Rect::of(cell))
            }
            Some(colon) => between(
                Address::read(&bytes[..colon]),
                Address::read(&bytes[colon + 1..]),
            ),
        }
    }

    /// The upper left.
    pub fn first(self) -> Address
        ensures { result ≡ self.first }
    {
        self.first
    }

    /// The lower right.
    pub fn last(self) -> Address
        ensures { result ≡ self.last }
    {
        self.last
    }

    /// Whether a cell lies in it.
    pub fn contains(self, at: Address) -> bool
        ensures { result ≡ is_within self at }
    {
        (self.first.row() <= at.row() && at.row() <= self.last.row())
            && (self.first.column() <= at.column() && at.column() <= self.last.column())
    }

    /// The first of its cells after a cell, in row-major order, if one comes after it.
    pub fn cell_after(self, at: Address) -> Option<Address>
        requires { at ≤ self.last }
        ensures after { IfSome result (λ a. (at < a) × (a ≤ self.last)) }
        ensures within { IfSome result (λ a. is_within self a ≡ true) }
        ensures first { (a : ℕ) → is_within self a ≡ true → at < a → IsAtOrBefore result a }
    {
        let left = self.first.column();
        if at < self.first {
            Some(self.first)
        } else if at.column() < left {
            Some(Address::at(at.row(), left))
        } else if at.column() < self.last.column() {
            Some(Address::at(at.row(), at.column() + 1))
        } else if at.row() < self.last.row() {
            Some(Address::at(at.row() + 1, left))
        } else {
            None
        }
    }

    /// The least rectangle that has each cell of both.
    pub fn around(self, other: Rect) -> Rect
        ensures first { result.first ≡ (rect_of self.first other.first).first }
        ensures last { result.last ≡ (rect_of self.last other.last).last }
        ensures one { (a : ℕ) → is_within self a ≡ true → is_within result a ≡ true }
        ensures other { (a : ℕ) → is_within other a ≡ true → is_within result a ≡ true }
    {
        Rect {
            first: Address::at(
                self.first.row().min(other.first.row()),
                self.first.column().min(other.first.column()),
            ),
            last: Address::at(
                self.last.row().max(other.last.row()),
                self.last.column().max(other.last.column()),
            ),
        }
    }

    /// How many rows it has.
    pub fn height(self) -> u32
        ensures value { result ≡ height self }
        ensures some { 0 < result }
    {
        self.last.row() + 1 - self.first.row()
    }

    /// How many columns it has.
    pub fn width(self) -> u32
        ensures value { result ≡ width self }
        ensures some { 0 < result }
    {
        self.last.column() + 1 - self.first.column()
    }

    /// How many cells it has.
    pub fn size(self) -> u64
        ensures { result ≡ size_of self }
    {
        u64::from(self.height()) * u64::from(self.width())
    }

    /// Whether all its cells stand in one column.
    pub fn is_column(self) -> bool
        ensures { result ≡ is_column self }
    {
        self.first.column() == self.last.column()
    }

    /// Whether all its cells stand in one row.
    pub fn is_row(self) -> bool
        ensures { result ≡ is_row self }
    {
        self.first.row() == self.last.row()
    }
}

/// Where the first colon stands.
fn colon_at(bytes: &[u8]) -> Option<usize>
    ensures value { result ≡ position (λ c. c == byte ":") bytes.now }
    ensures within { IfSome result (λ k. k < length bytes.now) }
{
    bytes.iter().position(|c| *c == b':')
}

/// The rectangle with these corners. The wrong shape of either comes before a cell outside the sheet.
fn between(
    a: Result<Address, AddressFault>,
    b: Result<Address, AddressFault>,
) -> Result<Rect, AddressFault>
    ensures { result ≡ corners a b }
{
    match (a, b) {
        (Ok(a), Ok(b)) => Ok(Rect::new(a, b)),
        (Err(AddressFault::Outside), Err(fault)) => Err(fault),
        (Err(fault), _) => Err(fault),
        (Ok(_), Err(fault)) => Err(fault),
    }
}
