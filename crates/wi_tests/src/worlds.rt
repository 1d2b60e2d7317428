//! Worlds.

ghost use Rattle.std.specs.Prelude.{All, IsSome, IsTrue};
ghost use Rattle.std.specs.BTreeMap.{get};
ghost use Rattle.std.specs.Ordering.{nat_cmp};

use crate::cells::{cell, cells};
use crate::texts::{expect_text, expect_that, value, word};
use std::alloc::{AllocError, Global};
use std::collections::{BTreeMap, BTreeSet, HashMap};
use std::process::Abort;
use wi_values::{Address, Replacement};
use wi_worlds::{Reaches, World};

/// The replacement of a cell by the value of a word.
fn replacement(rt: &impl Abort, alloc: Global, at: &str, word: &str) -> Replacement {
    Replacement {
        at: cell(rt, at),
        value: value(rt, alloc, word),
    }
}

/// Appends replacements by the values of words, as `A2=TRUE C3=`.
fn push_all(rt: &impl Abort, alloc: Global, words: &str, replacements: &mut Vec<Replacement>) {
    for text in words.split_whitespace() {
        if let Some((at, word)) = text.split_once('=') {
            let replacement = replacement(rt, alloc, at, word);
            replacements.push(replacement).expect(rt, text);
        }
    }
}

/// A world with the values of these words in the place of contents.
fn with(rt: &impl Abort, alloc: Global, world: &World, words: &str) -> World {
    let mut others = Vec::new(alloc);
    push_all(rt, alloc, words, &mut others);
    let world = world.with(&others);
    drop(others);
    world.expect(rt, words)
}

/// The world after these changes, one after another.
pub fn after(rt: &impl Abort, alloc: Global, changes: &[&str]) -> World {
    let mut world = World::new(alloc);
    for words in changes {
        world = with(rt, alloc, &world, words);
    }
    world
}

/// A2 is TRUE and C3 is emptied.
const OLD: &str = "C3= A2=TRUE";

/// C3 gets a text, A1 is TRUE, then emptied.
const NEWER: &str = "C3=three A1=TRUE A1=";

fn push_replacement(replacement: &Replacement, text: &mut String) -> Result<(), AllocError> {
    replacement.at.push_text(text)?;
    text.push('=')?;
    text.push_str(word(Some(&replacement.value)))?;
    text.push(' ')
}

/// The replacements of a world, in their order.
fn told(rt: &impl Abort, alloc: Global, world: &World) -> String {
    let mut text = String::new(alloc);
    for replacement in world.replacements() {
        push_replacement(replacement, &mut text).expect(rt, "memory for a replacement");
    }
    text
}

/// These are the replacements of a world, in their order.
fn expect_world(rt: &impl Abort, alloc: Global, of: &str, world: &World, wanted: &str) {
    expect_text(rt, of, &told(rt, alloc, world), wanted);
}

fn expect(rt: &impl Abort, alloc: Global, changes: &[&str], wanted: &str) {
    let world = after(rt, alloc, changes);
    expect_world(rt, alloc, "world", &world, wanted);
    drop(world);
}

#[test]
fn later_replacements_count(rt: HostRuntime) {
    expect(&rt, rt.alloc(), &[], "");
    expect(&rt, rt.alloc(), &[OLD], "A2=TRUE C3= ");
    expect(&rt, rt.alloc(), &[OLD, NEWER], "A1= A2=TRUE C3='three ");
}

/// What stands in the place of cells' contents after these changes.
fn expect_replaced(rt: &impl Abort, world: &World, rows: &[(&str, &str)]) {
    for (at, wanted) in rows {
        let found = world.replacement(cell(rt, at));
        expect_text(rt, at, word(found), wanted);
    }
}

#[test]
fn replacements_by_address(rt: HostRuntime) {
    let world = after(&rt, rt.alloc(), &["A2=TRUE C3=three A1="]);
    expect_replaced(
        &rt,
        &world,
        &[
            ("A1", ""),
            ("B1", "-"),
            ("A2", "TRUE"),
            ("C3", "'three"),
            ("D3", "-"),
        ],
    );
    drop(world);
}

#[test]
fn a_new_world_replaces_nothing(rt: HostRuntime) {
    let world = after(&rt, rt.alloc(), &[""]);
    expect_replaced(&rt, &world, &[("A1", "-")]);
    drop(world);
}

type Cones = BTreeMap<Address, BTreeSet<Address>>;

/// The cone of a cell has these cells.
fn put_cone(rt: &impl Abort, alloc: Global, cones: &mut Cones, at: &str, names: &str) {
    let mut cone = BTreeSet::new(alloc);
    for name in names.split_whitespace() {
        cone.insert(cell(rt, name)).expect(rt, name);
    }
    expect_that(rt, cones.insert(cell(rt, at), cone).is_ok(), at);
}

/// Whether each replaced address has a cone.
fn all_have_cones(world: &World, cones: &BTreeMap<Address, BTreeSet<Address>>) -> bool
    ensures { IsTrue result → All (λ r. IsSome (get nat_cmp cones.now r.at)) world.now }
{
    for replacement in world.replacements() {
        if !cones.contains_key(&replacement.at) {
            return false;
        }
    }
    true
}

/// By what it is known which cells a cell reaches.
#[derive(Clone, Copy)]
enum Known<'a> {
    Cones(&'a Cones),
    Told(&'a Reaches),
}

/// A world, and by what it is known which cells a cell reaches.
#[derive(Clone, Copy)]
struct Asked<'a> {
    world: &'a World,
    known: Known<'a>,
}

/// The replacements of a world whose cell reaches a cell.
fn reaching(rt: &impl Abort, asked: Asked<'_>, last: &mut World, at: &str) -> World {
    let world = asked.world;
    match asked.known {
        Known::Cones(cones) => {
            assert!(rt; all_have_cones(world, cones));
            world.reaching(cell(rt, at), cones, last).expect(rt, at)
        }
        Known::Told(told) => world.reaching_by(cell(rt, at), told, last).expect(rt, at),
    }
}

/// These are the replacements of a world whose cell reaches a cell.
fn expect_reaching_cell(
    rt: &impl Abort,
    alloc: Global,
    asked: Asked<'_>,
    last: &mut World,
    at: &str,
    wanted: &str,
) {
    let found = reaching(rt, asked, last, at);
    expect_world(rt, alloc, at, &found, wanted);
    drop(found);
}

fn expect_reaching(rt: &impl Abort, alloc: Global, asked: Asked<'_>, rows: &[(&str, &str)]) {
    let mut last = World::new(alloc);
    for (at, wanted) in rows {
        expect_reaching_cell(rt, alloc, asked, &mut last, at, wanted);
    }
    drop(last);
}

/// A2 reaches itself and D4; C3 reaches itself, D4 and E5.
#[test]
fn cones_that_have_a_cell(rt: HostRuntime) {
    let mut cones = BTreeMap::new(rt.alloc());
    put_cone(&rt, rt.alloc(), &mut cones, "A2", "A2 D4");
    put_cone(&rt, rt.alloc(), &mut cones, "C3", "D4 C3 E5");
    let world = after(&rt, rt.alloc(), &[OLD]);
    let asked = Asked {
        world: &world,
        known: Known::Cones(&cones),
    };
    expect_reaching(
        &rt,
        rt.alloc(),
        asked,
        &[
            ("A1", ""),
            ("A2", "A2=TRUE "),
            ("C3", "C3= "),
            ("D4", "A2=TRUE C3= "),
            ("E5", "C3= "),
        ],
    );
    drop(world);
    drop(cones);
}

/// Tells that these cells reach a cell.
fn tell(rt: &impl Abort, alloc: Global, reaches: &mut Reaches, at: &str, names: &str) {
    let cone = cells(rt, alloc, names);
    reaches.add(cell(rt, at), &cone).expect(rt, at);
}

/// The cells of which it is known which cells reach them, of the two that the world replaces, C3 told first.
fn expect_known(rt: &impl Abort, alloc: Global, reaches: &mut Reaches, world: &World) {
    expect_that(rt, reaches.is_empty(), "nothing yet");
    tell(rt, alloc, reaches, "C3", "D4 C3 E5");
    expect_that(rt, !reaches.knows_all(world), "one of two");
    tell(rt, alloc, reaches, "A2", "A2 D4");
    expect_that(rt, reaches.knows_all(world), "both");
    expect_that(rt, reaches.len() == 2, "two");
    expect_that(rt, !reaches.knows(cell(rt, "D4")), "one that reaches them");
}

#[test]
fn cells_that_are_told_to_reach(rt: HostRuntime) {
    let mut reaches = Reaches::new(rt.alloc());
    let world = after(&rt, rt.alloc(), &[OLD]);
    expect_known(&rt, rt.alloc(), &mut reaches, &world);
    let asked = Asked {
        world: &world,
        known: Known::Told(&reaches),
    };
    expect_reaching(
        &rt,
        rt.alloc(),
        asked,
        &[
            ("A1", ""),
            ("A2", "A2=TRUE "),
            ("C3", "C3= "),
            ("D4", "A2=TRUE C3= "),
            ("E5", "C3= "),
        ],
    );
    drop(world);
    drop(reaches);
}

/// Tells of each of these cells that it reaches itself.
fn tell_each(rt: &impl Abort, alloc: Global, reaches: &mut Reaches, names: &str) {
    for at in names.split_whitespace() {
        tell(rt, alloc, reaches, at, at);
    }
}

/// A column of replaced cells, of which the middle one alone reaches D4.
#[test]
fn few_of_many_are_told(rt: HostRuntime) {
    let all = "A1=TRUE A2= A3= A4=FALSE A5= A6= A7= A8=";
    let world = after(&rt, rt.alloc(), &[all]);
    let mut reaches = Reaches::new(rt.alloc());
    tell_each(&rt, rt.alloc(), &mut reaches, "A1 A2 A3 A4 A5 A6 A7 A8");
    tell(&rt, rt.alloc(), &mut reaches, "A4", "D4");
    let asked = Asked {
        world: &world,
        known: Known::Told(&reaches),
    };
    let rows = [("D4", "A4=FALSE "), ("D5", ""), ("A8", "A8= ")];
    expect_reaching(&rt, rt.alloc(), asked, &rows);
    drop(world);
    drop(reaches);
}

type Numbers = HashMap<World, u32>;

/// Keeps a number for the world after these changes.
fn keep(rt: &impl Abort, alloc: Global, kept: &mut Numbers, changes: &[&str], number: u32) {
    let world = after(rt, alloc, changes);
    expect_that(rt, kept.insert(world, number).is_ok(), "memory");
}

/// This number is kept for the world after these changes.
fn expect_number(
    rt: &impl Abort,
    alloc: Global,
    kept: &Numbers,
    changes: &[&str],
    wanted: Option<u32>,
) {
    let world = after(rt, alloc, changes);
    let found = kept.get(&world).copied();
    drop(world);
    expect_that(rt, found == wanted, "the number");
}

/// A number is kept for the newer world when it was made once, and another when it was made twice.
fn expect_one_key(rt: &impl Abort, alloc: Global, kept: &mut Numbers) {
    keep(rt, alloc, kept, &[OLD, NEWER], 1);
    keep(rt, alloc, kept, &[OLD, NEWER, NEWER], 2);
    expect_that(rt, kept.len() == 1, "one key");
    expect_number(rt, alloc, kept, &[OLD, NEWER], Some(2));
    expect_number(rt, alloc, kept, &[OLD], None);
}

#[test]
fn equal_worlds_are_one_key(rt: HostRuntime) {
    expect_one_key(&rt, rt.alloc(), &mut HashMap::new(rt.alloc()));
}

/// Whether the worlds after these changes are equal.
fn is_one(rt: &impl Abort, alloc: Global, changes: &[&str], others: &[&str]) -> bool {
    let one = after(rt, alloc, changes);
    let other = after(rt, alloc, others);
    let is_one = one == other;
    drop(one);
    drop(other);
    is_one
}

#[test]
fn a_change_made_again_changes_nothing(rt: HostRuntime) {
    assert!(rt; is_one(&rt, rt.alloc(), &[OLD, NEWER], &[OLD, NEWER, NEWER]));
    assert!(rt; !is_one(&rt, rt.alloc(), &[OLD, NEWER], &[OLD]));
}
