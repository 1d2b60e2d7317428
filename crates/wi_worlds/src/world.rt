//! Replacements, one for each address.

ghost use Rattle.std.specs.Prelude.{◌≡◌, ◌∷◌, ℕ, [], All, filter, map, None, IsSome, IsTrue, IfOk, OnErr, length, if◌then◌else◌};
ghost use Rattle.std.specs.BTreeMap.{get};
ghost use Rattle.std.specs.List.Sorted.{IsStrictlyIncreasing};
ghost use Rattle.std.specs.Option.{option_copied, option_or};
ghost use Rattle.std.specs.Ordering.{nat_cmp};
ghost use Rattle.wi_values.specs.Replacements.{IsInOrder, as_map, last_for, overridden, replaced};
ghost use Rattle.wi_worlds.specs.Inner.Compared.{digest_of};
ghost use Rattle.wi_worlds.specs.Reached.{is_of, is_reached_by, reached_by};
ghost use Rattle.wi_worlds.specs.Reaching.{cone_has, is_reached};

use crate::entries::{copied, insert_copies, listed};
use crate::lookup::value_at;
use crate::part::{copies_of, part_of};
use crate::reaches::Reaches;
use std::alloc::{AllocError, Global};
use std::collections::{BTreeMap, BTreeSet};
use std::hash::{FoldHasher, Hash, Hasher};
use std::marker::Model;
use std::rc::RcSlice;
use wi_values::{Address, Replacement, Value};

/// Replacements, one for each address, in row-major order. A replacement by Empty is one like others. Copies share what
/// they hold.
#[derive(Drop)]
pub struct World {
    /// Nothing where there are no replacements.
    shared: Option<RcSlice<Replacement>>,
    /// A hash of the replacements.
    digest: u64,
    alloc: Global,
}

impl Model for World {
    ghost use Rattle.std.specs.Prelude.{List, ◌≡◌};
    ghost use Rattle.wi_values.specs.declared.replacement.Replacement.{Replacement};
    ghost use Rattle.std.specs.Coded.{coded_list};
    ghost use Rattle.wi_values.specs.contracts.replacement.Replacement as replacement;

    ghost Value = { List Replacement };

    ghost coded = { coded_list replacement.the_row.coded };

    ghost use Rattle.wi_values.specs.Replacements.{IsInOrder};
    ghost use Rattle.wi_worlds.specs.Inner.Compared.{digest_of};
    ghost use Rattle.wi_worlds.specs.Inner.Shared.{shared_items};

    ghost view = { λ w. shared_items w.shared };

    ghost invariant = { λ w. IsInOrder (shared_items w.shared)
        × (w.digest ≡ digest_of (shared_items w.shared)) };
}

impl World {
    /// No replacements. Takes no memory.
    pub fn new(alloc: Global) -> World
        ensures { result ≡ [] }
    {
        World {
            shared: None,
            digest: digest(&[]),
            alloc,
        }
    }

    /// These replacements. Takes no memory where there are none.
    fn of(alloc: Global, replacements: Vec<Replacement>) -> Result<World, AllocError>
        requires order { IsInOrder replacements.items }
        ensures { IfOk result (λ w. w ≡ replacements.items) }
    {
        if replacements.is_empty() {
            return Ok(World::new(alloc));
        }
        let digest = digest(&replacements);
        let shared = RcSlice::from_vec(replacements)?;
        Ok(World {
            shared: Some(shared),
            digest,
            alloc,
        })
    }

    /// The replacements, in row-major order.
    pub fn replacements(&self) -> &[Replacement]
        ensures value { result.now ≡ self.now }
        ensures order { IsInOrder self.now }
    {
        match &self.shared {
            Some(shared) => shared.as_slice(),
            None => &[],
        }
    }

    /// A copy that shares the replacements: whatever their count, it takes the same work, and no memory.
    pub fn copy(&self) -> Result<World, AllocError>
        ensures { IfOk result (λ w. w ≡ self.now) }
    {
        let shared = self.shared.clone()?;
        Ok(World {
            shared,
            digest: self.digest,
            alloc: self.alloc,
        })
    }

    /// A hash of the replacements, found when the world was made: worlds of the same replacements have the same.
    pub fn digest(&self) -> u64
        ensures { result ≡ digest_of self.now }
    {
        self.digest
    }

    /// The replacements with others put in, each in the place of an earlier one for its address. Of two others for
    /// one address the later counts. The work for each replacement, the old ones too, grows with the logarithm of
    /// the count of all.
    pub fn with(&self, others: &[Replacement]) -> Result<World, AllocError>
        ensures list { IfOk result (λ w. as_map w ≡ overridden (as_map self.now) others.now) }
        ensures each { IfOk result (λ w.
            (a : ℕ) → replaced w a ≡ option_or (last_for others.now a) (replaced self.now a)) }
    {
        if is_lone(self.replacements(), others) {
            return World::one(self.alloc, &others[0]);
        }
        self.with_all(others)
    }

    /// One replacement.
    fn one(alloc: Global, replacement: &Replacement) -> Result<World, AllocError>
        ensures { IfOk result (λ w. w ≡ replacement.now ∷ []) }
    {
        let mut one = Vec::with_capacity(alloc, 1)?;
        one.push(copied(alloc, replacement)?)?;
        World::of(alloc, one)
    }

    /// The replacements with others put in, however many there are, each in the place of an earlier one for its
    /// address. Of two others for one address the later counts. All are copied.
    fn with_all(&self, others: &[Replacement]) -> Result<World, AllocError>
        ensures list { IfOk result (λ w. as_map w ≡ overridden (as_map self.now) others.now) }
        ensures each { IfOk result (λ w.
            (a : ℕ) → replaced w a ≡ option_or (last_for others.now a) (replaced self.now a)) }
    {
        let alloc = self.alloc;
        let mut all = BTreeMap::new(alloc);
        insert_copies(alloc, &mut all, self.replacements())?;
        insert_copies(alloc, &mut all, others)?;
        let replacements = listed(alloc, all)?;
        World::of(alloc, replacements)
    }

    /// The value that stands in the place of a cell's content, if one does. The work grows with the logarithm of the
    /// count of replacements.
    pub fn replacement(&self, at: Address) -> Option<&Value>
        ensures { option_copied result ≡ replaced self.now at }
    {
        value_at(self.replacements(), at)
    }

    /// The replacements that a cell reaches, where each replaced address has its cone, shared as by `reaching_by`. The
    /// cells of those are listed first, in memory of the list's length. If memory runs out, the last stay as they were.
    /// The work for each replacement grows with the logarithms of the count of cones and of the count of cells in its
    /// own; texts are compared with the last byte by byte.
    pub fn reaching(
        &self,
        at: Address,
        cones: &BTreeMap<Address, BTreeSet<Address>>,
        last: &mut World,
    ) -> Result<World, AllocError>
        requires cones { All (λ r. IsSome (get nat_cmp cones.now r.at)) self.now }
        ensures list { IfOk result (λ w. w ≡ filter (is_reached cones.now at) self.now) }
        ensures each { IfOk result (λ w. (a : ℕ) → replaced w a
            ≡ (if cone_has cones.now a at then replaced self.now a else None)) }
        ensures last { OnErr result (last.new ≡ last.old) }
    {
        let cells = reached_cells(self.alloc, self.replacements(), at, cones)?;
        self.restricted(&cells, last)
    }

    /// The replacements of the cells that a cell is recorded to reach. What an earlier call gave is remembered, where
    /// it was neither all nor none: the same again, and all and none, are shared, without memory and without a hash;
    /// any other is copied and hashed, and remembered. The answer is the same whatever is remembered. If memory runs
    /// out, that stays as it was. What the cell reaches is looked up once; then the work grows with the count of the
    /// fewer, replacements or such cells, times the logarithm of that of the others; texts are compared with the last
    /// byte by byte.
    #[inline(always)]
    pub fn reaching_by(
        &self,
        at: Address,
        reaches: &Reaches,
        last: &mut World,
    ) -> Result<World, AllocError>
        ensures list { IfOk result (λ w. w ≡ filter (is_reached_by reaches.now at) self.now) }
        ensures each { IfOk result (λ w. (a : ℕ) → replaced w a
            ≡ (if reached_by reaches.now at a then replaced self.now a else None)) }
        ensures last { OnErr result (last.new ≡ last.old) }
    {
        if self.replacements().is_empty() {
            return self.copy();
        }
        self.restricted(reaches.reached(at), last)
    }

    /// The replacements of these cells, in row-major order, shared as `reaching_by` says.
    #[inline(always)]
    fn restricted(&self, cells: &[Address], last: &mut World) -> Result<World, AllocError>
        requires rise { IsStrictlyIncreasing cells.now }
        ensures list { IfOk result (λ w. w ≡ filter (is_of cells.now) self.now) }
        ensures last { OnErr result (last.new ≡ last.old) }
    {
        let all = self.replacements();
        let part = part_of(all, cells, last.replacements());
        if part.count == all.len() {
            return self.copy();
        }
        if part.count == 0 {
            return Ok(World::new(self.alloc));
        }
        if part.is_last {
            return last.copy();
        }
        let kept = copies_of(self.alloc, part.count, all, cells)?;
        let world = World::of(self.alloc, kept)?;
        *last = world.copy()?;
        Ok(world)
    }
}

/// Whether there is one other replacement, and nothing else.
fn is_lone(replacements: &[Replacement], others: &[Replacement]) -> bool
    ensures { IsTrue result → (replacements.now ≡ []) × (length others.now ≡ 1) }
{
    replacements.is_empty() && others.len() == 1
}

/// A hash of replacements.
fn digest(replacements: &[Replacement]) -> u64
    ensures { result ≡ digest_of replacements.now }
{
    let mut hasher = FoldHasher::default();
    replacements.hash(&mut hasher);
    hasher.finish()
}

/// The replaced cells whose cone has a cell, in the order of the replacements.
fn reached_cells(
    alloc: Global,
    replacements: &[Replacement],
    at: Address,
    cones: &BTreeMap<Address, BTreeSet<Address>>,
) -> Result<Vec<Address>, AllocError>
    requires cones { All (λ r. IsSome (get nat_cmp cones.now r.at)) replacements.now }
    ensures { IfOk result (λ cells. cells.items
        ≡ map (λ r. r.at) (filter (is_reached cones.now at) replacements.now)) }
{
    let mut cells = Vec::new(alloc);
    for replacement in replacements {
        if is_reached(replacement.at, at, cones) {
            cells.push(replacement.at)?;
        }
    }
    Ok(cells)
}

/// Whether the cone of a replaced address has a cell.
fn is_reached(replaced: Address, at: Address, cones: &BTreeMap<Address, BTreeSet<Address>>) -> bool
    requires { IsSome (get nat_cmp cones.now replaced) }
    ensures { result ≡ cone_has cones.now replaced at }
{
    cones[&replaced].contains(&at)
}
