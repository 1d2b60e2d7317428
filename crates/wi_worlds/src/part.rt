//! The replacements of a world that are of some cells.

ghost use Rattle.std.specs.Prelude.{◌≡◌, filter, IfOk, length};
ghost use Rattle.std.specs.List.Sorted.{IsStrictlyIncreasing};
ghost use Rattle.wi_values.specs.Replacements.{IsInOrder, same_replacements};
ghost use Rattle.wi_worlds.specs.Reached.{is_of};
ghost use Rattle.wi_worlds.specs.Inner.Picked.{picked};

use crate::entries::copied;
use crate::lookup::found_at;
use crate::rising::has_next;
use std::alloc::{AllocError, Global};
use wi_values::{Address, Replacement};

/// Some of the replacements.
#[derive(Clone, Copy)]
pub(crate) struct Part {
    /// How many they are.
    pub(crate) count: usize,
    /// Whether they are the last part once more.
    pub(crate) is_last: bool,
}

/// Where there are at least so many replacements for each cell, the cells are searched for among the replacements.
const MANY: usize = 4;

/// Whether a search for each of the cells among the replacements is less work than one for each replacement among the
/// cells.
fn cells_lead(replacements: &[Replacement], cells: &[Address]) -> bool {
    cells.len() < replacements.len() / MANY
}

/// The replacements that are of one of the cells, compared with the last part. The work grows with the count of the
/// fewer, times the logarithm of that of the others.
#[inline(always)]
pub(crate) fn part_of(replacements: &[Replacement], cells: &[Address], last: &[Replacement]) -> Part
    requires order { IsInOrder replacements.now }
    requires rise { IsStrictlyIncreasing cells.now }
    ensures count { result.count ≡ length (filter (is_of cells.now) replacements.now) }
    ensures last { result.is_last
        ≡ same_replacements last.now (filter (is_of cells.now) replacements.now) }
{
    if cells_lead(replacements, cells) {
        part_by_cells(replacements, cells, last)
    } else {
        part_by_replacements(replacements, cells, last)
    }
}

/// The replacements that are of one of the cells, compared with the last part. Each replacement is searched for among
/// the cells.
#[inline(always)]
fn part_by_replacements(
    replacements: &[Replacement],
    cells: &[Address],
    last: &[Replacement],
) -> Part
    requires { IsStrictlyIncreasing cells.now }
    ensures count { result.count ≡ length (filter (is_of cells.now) replacements.now) }
    ensures last { result.is_last
        ≡ same_replacements last.now (filter (is_of cells.now) replacements.now) }
{
    let mut count = 0;
    let mut is_last = true;
    let mut likely = 0;
    for replacement in replacements {
        if has_next(cells, &mut likely, replacement.at) {
            is_last = is_last && last.get(count) == Some(replacement);
            count += 1;
        }
    }
    Part {
        count,
        is_last: is_last && count == last.len(),
    }
}

/// The replacements that are of one of the cells, compared with the last part. Each cell is searched for among the
/// replacements.
fn part_by_cells(replacements: &[Replacement], cells: &[Address], last: &[Replacement]) -> Part
    requires { IsInOrder replacements.now }
    ensures count { result.count ≡ length (picked replacements.now cells.now) }
    ensures last { result.is_last
        ≡ same_replacements last.now (picked replacements.now cells.now) }
{
    let mut count = 0;
    let mut is_last = true;
    for cell in cells {
        if let Some(replacement) = found_at(replacements, *cell) {
            is_last = is_last && last.get(count) == Some(replacement);
            count += 1;
        }
    }
    Part {
        count,
        is_last: is_last && count == last.len(),
    }
}

/// Copies of the replacements that are of one of the cells, in a list with room for their count.
pub(crate) fn copies_of(
    alloc: Global,
    count: usize,
    replacements: &[Replacement],
    cells: &[Address],
) -> Result<Vec<Replacement>, AllocError>
    requires order { IsInOrder replacements.now }
    requires rise { IsStrictlyIncreasing cells.now }
    ensures { IfOk result (λ rs. rs.items ≡ filter (is_of cells.now) replacements.now) }
{
    if cells_lead(replacements, cells) {
        copies_by_cells(alloc, count, replacements, cells)
    } else {
        copies_by_replacements(alloc, count, replacements, cells)
    }
}

/// Copies of the replacements that are of one of the cells, in a list with room for their count. Each replacement is
/// searched for among the cells.
fn copies_by_replacements(
    alloc: Global,
    count: usize,
    replacements: &[Replacement],
    cells: &[Address],
) -> Result<Vec<Replacement>, AllocError>
    requires { IsStrictlyIncreasing cells.now }
    ensures { IfOk result (λ rs. rs.items ≡ filter (is_of cells.now) replacements.now) }
{
    let mut kept = Vec::with_capacity(alloc, count)?;
    let mut likely = 0;
    for replacement in replacements {
        if has_next(cells, &mut likely, replacement.at) {
            kept.push(copied(alloc, replacement)?)?;
        }
    }
    Ok(kept)
}

/// Copies of the replacements that are of one of the cells, in a list with room for their count. Each cell is searched
/// for among the replacements.
fn copies_by_cells(
    alloc: Global,
    count: usize,
    replacements: &[Replacement],
    cells: &[Address],
) -> Result<Vec<Replacement>, AllocError>
    requires { IsInOrder replacements.now }
    ensures { IfOk result (λ rs. rs.items ≡ picked replacements.now cells.now) }
{
    let mut kept = Vec::with_capacity(alloc, count)?;
    for cell in cells {
        if let Some(replacement) = found_at(replacements, *cell) {
            kept.push(copied(alloc, replacement)?)?;
        }
    }
    Ok(kept)
}
