//! Scenarios by name.

ghost use Rattle.std.specs.Prelude.{◌≡◌, ◌↔◌, ◌∷◌, [], true, false, Some, Err, IfOk, OnOk, OnErr};
ghost use Rattle.std.specs.List.{list_any};
ghost use Rattle.indexmap.specs.IndexMap.{values};
ghost use Rattle.std.specs.Option.{option_copied, option_map};
ghost use Rattle.std.specs.Rc.{rc_str_bytes};
ghost use Rattle.wi_values.specs.Replacements.{IsInOrder, as_map};
ghost use Rattle.wi_scenario_list.specs.Scenarios.{chain_within, scenario_of, has_scenario, layered, with_scenario, without_scenario, scenario_for, with_own, without_own, is_full};
ghost use Rattle.wi_scenario_list.specs.Inner.Chains.{effective, is_in_chain};
ghost use Rattle.wi_scenario_list.specs.Bases.{rests_on, is_base, is_name_of, based_on};
ghost use Rattle.wi_scenario_list.specs.Inner.Stored.{base_of, stored, with_name};
ghost use Rattle.wi_scenario_list.specs.declared.fault.ScenarioFault.TheVariants.{TooMany};

use crate::entries::{ValueMap, with_entries};
use crate::fault::ScenarioFault;
use crate::layer::Layer;
use indexmap::IndexMap;
use std::alloc::{AllocError, Global};
use std::collections::BTreeMap;
use std::marker::Model;
use std::rc::RcStr;
use wi_values::{Address, Replacement, Value};
use wi_worlds::listed;

/// The greatest count of scenarios.
pub const MAX_SCENARIOS: usize = 64;

/// Scenarios by name, in the order of making, each with replacements of its own and perhaps a base scenario. Whether a
/// base scenario is there, and whether scenarios are based on one another in a loop, is the caller's concern.
#[derive(Drop)]
pub struct Scenarios {
    layers: IndexMap<RcStr, Layer>,
    alloc: Global,
}

impl Model for Scenarios {
    ghost use Rattle.std.specs.Prelude.{List};
    ghost use Rattle.wi_scenario_list.specs.Scenarios.{Scenario};

    ghost Value = { List Scenario };

    ghost use Rattle.std.specs.Coded.{codes};
    ghost use Rattle.wi_values.specs.contracts.replacement.Replacement as replacement;

    ghost coded = { Prim.hlevel (codes, replacement.the_row.coded) };

    ghost use Rattle.wi_scenario_list.specs.Inner.Stored.{stored};

    ghost view = { λ s. stored s.layers.entries };
}

impl Scenarios {
    /// No scenarios. Takes no memory.
    pub fn new(alloc: Global) -> Scenarios
        ensures { result ≡ [] }
    {
        Scenarios {
            layers: IndexMap::new(alloc),
            alloc,
        }
    }

    /// A copy of the scenarios. The work grows with their count: what each holds is shared, and a later change of one
    /// copy touches that one alone.
    pub fn copy(&self) -> Result<Scenarios, AllocError>
        ensures { IfOk result (λ s. s ≡ self.now) }
    {
        let layers = self.layers.clone()?;
        Ok(Scenarios {
            layers,
            alloc: self.alloc,
        })
    }

    /// Whether there is a scenario of this name.
    pub fn contains(&self, name: &str) -> bool
        ensures { result ≡ has_scenario self.now name.now }
    {
        self.layers.contains_key(name)
    }

    /// Whether some scenario has this one as its base scenario. The work grows with the count of scenarios.
    pub fn is_base(&self, name: &str) -> bool
        ensures { result ≡ is_base self.now name.now }
    {
        any_based_on(&self.layers, name)
    }

    /// Whether a scenario is the other, or is based on the other at any remove. The work grows with the count of
    /// scenarios that it is based on.
    pub fn rests_on(&self, name: &str, other: &str) -> bool
        ensures { result ≡ rests_on self.now name.now other.now }
    {
        self.has_below(MAX_SCENARIOS, Some(name), other)
    }

    /// What a scenario puts in, in row-major order, each address once: what its base scenario puts in, overridden by
    /// its own replacements. Nothing where none is named, or where none has the name. The work for each replacement of
    /// the scenario and of those that it is based on grows with the logarithm of their count.
    pub fn effective(&self, name: Option<&str>) -> Result<Vec<Replacement>, AllocError>
        ensures value { IfOk result (λ rs.
            rs.items ≡ effective self.now (option_copied name.entry)) }
        ensures order { IfOk result (λ rs. IsInOrder rs.items) }
    {
        let all = self.layered(MAX_SCENARIOS, name)?;
        listed(self.alloc, all)
    }

    /// Whether a replacement put into this scenario, which is made if need be, would make a scenario too many, or one
    /// replacement of its own too many.
    pub fn is_full(&self, name: &str, at: Address) -> bool
        ensures { result ≡ is_full self.now name.now at }
    {
        match self.find(name) {
            Some(layer) => layer.is_full(at),
            None => self.layers.len() >= MAX_SCENARIOS,
        }
    }

    /// Puts a replacement into a scenario, in the place of the one that it has for the address; a scenario that isn't
    /// there is made. `TooMany` where there would be more than `MAX_SCENARIOS`, or more than `MAX_REPLACEMENTS` of the
    /// scenario's own, as `is_full` tells, and there alone; `Memory` if memory runs out. After each all is as before.
    /// The work grows with the count of the scenario's own replacements.
    pub fn put(&mut self, name: &str, at: Address, value: Value) -> Result<(), ScenarioFault>
        ensures ok { OnOk result (self.new ≡ with_scenario self.old
            (with_own (scenario_for self.old name.now) (record { at = at; value = value } ∷ []))) }
        ensures too_many { (result ≡ Err TooMany) ↔ (is_full self.old name.now at ≡ true) }
        ensures err { OnErr result (self.new ≡ self.old) }
    {
        if self.is_full(name, at) {
            return Err(ScenarioFault::TooMany);
        }
        self.set_value(name, at, value)?;
        Ok(())
    }

    /// Takes a scenario's own replacement for an address away, if there is one; the scenario stays. Nothing happens
    /// where there is no such scenario. On an error all is as before. The work grows with the count of the scenario's
    /// own replacements.
    pub fn take_away(&mut self, name: &str, at: Address) -> Result<(), AllocError>
        ensures ok { has_scenario self.old name.now ≡ true → OnOk result (self.new
            ≡ with_scenario self.old (without_own (scenario_for self.old name.now) at)) }
        ensures absent { has_scenario self.old name.now ≡ false → self.new ≡ self.old }
        ensures err { OnErr result (self.new ≡ self.old) }
    {
        let Some(layer) = self.find(name) else {
            return Ok(());
        };
        let layer = layer.without(self.alloc, at)?;
        self.set(name, layer)
    }

    /// Bases a scenario on another, or on none. Nothing happens where there is no such scenario. On an error all is as
    /// before.
    pub fn set_base(&mut self, name: &str, other: Option<&str>) -> Result<(), AllocError>
        ensures ok { has_scenario self.old name.now ≡ true
            → OnOk result (self.new ≡ with_scenario self.old
            (based_on (scenario_for self.old name.now) (option_copied other.entry))) }
        ensures absent { has_scenario self.old name.now ≡ false → self.new ≡ self.old }
        ensures err { OnErr result (self.new ≡ self.old) }
    {
        let Some(layer) = self.find(name) else {
            return Ok(());
        };
        let layer = layer.based_on(self.alloc, other)?;
        self.set(name, layer)
    }

    /// Removes a scenario, if it is there. Takes no memory. The work grows with the count of scenarios.
    pub fn remove(&mut self, name: &str)
        ensures { self.new ≡ without_scenario self.old name.now }
    {
        self.layers.shift_remove(name);
    }

    /// What the scenario of a name holds, if it is there.
    fn find(&self, name: &str) -> Option<&Layer>
        ensures { option_map (λ l. with_name name.now l.now) result
            ≡ scenario_of self.now (Some name.now) }
    {
        self.layers.get(name)
    }

    /// Whether the first so many, of the scenario of a name and those that it is based on, have the other.
    fn has_below(&self, bound: usize, name: Option<&str>, other: &str) -> bool
        ensures { result ≡ is_in_chain bound self.now (option_copied name.entry) other.now }
    {
        if bound == 0 {
            return false;
        }
        let Some(name) = name else {
            return false;
        };
        match self.find(name) {
            Some(layer) => name == other || self.has_below(bound - 1, layer.base_name(), other),
            None => false,
        }
    }

    /// What the first so many, of the scenario of a name and those that it is based on, put in.
    fn layered(&self, bound: usize, name: Option<&str>) -> Result<ValueMap, AllocError>
        ensures { IfOk result (λ m. m.entries ≡ as_map (layered (chain_within bound self.now
            (scenario_of self.now (option_copied name.entry))))) }
    {
        if bound == 0 {
            return Ok(BTreeMap::new(self.alloc));
        }
        let Some(name) = name else {
            return Ok(BTreeMap::new(self.alloc));
        };
        match self.find(name) {
            Some(layer) => {
                let below = self.layered(bound - 1, layer.base_name())?;
                with_entries(self.alloc, below, &layer.own)
            }
            None => Ok(BTreeMap::new(self.alloc)),
        }
    }

    /// Puts a replacement into a scenario, however many there are. If memory runs out, all is as before.
    fn set_value(&mut self, name: &str, at: Address, value: Value) -> Result<(), AllocError>
        ensures ok { OnOk result (self.new ≡ with_scenario self.old
            (with_own (scenario_for self.old name.now) (record { at = at; value = value } ∷ []))) }
        ensures err { OnErr result (self.new ≡ self.old) }
    {
        let layer = self.layer_with(name, at, value)?;
        self.set(name, layer)
    }

    /// What the scenario of this name, or else a new one, holds once a replacement is put in.
    fn layer_with(&self, name: &str, at: Address, value: Value) -> Result<Layer, AllocError>
        ensures { IfOk result (λ l. with_name name.now l
            ≡ with_own (scenario_for self.now name.now) (record { at = at; value = value } ∷ [])) }
    {
        self.layer_for(name)?.with(self.alloc, at, value)
    }

    /// What the scenario of this name holds, or else what a new one holds.
    fn layer_for(&self, name: &str) -> Result<Layer, AllocError>
        ensures { IfOk result (λ l. with_name name.now l ≡ scenario_for self.now name.now) }
    {
        match self.find(name) {
            Some(layer) => layer.clone(),
            None => Layer::new(self.alloc),
        }
    }

    /// Puts a scenario in the place of the one of its name, or at the end.
    fn set(&mut self, name: &str, layer: Layer) -> Result<(), AllocError>
        ensures ok { OnOk result (self.new ≡ with_scenario self.old (with_name name.now layer)) }
        ensures err { OnErr result (self.new ≡ self.old) }
    {
        let name = RcStr::from_str(self.alloc, name)?;
        insert(&mut self.layers, name, layer)
    }
}

/// Puts a layer in the place of the one of its name, or at the end.
fn insert(layers: &mut IndexMap<RcStr, Layer>, name: RcStr, layer: Layer) -> Result<(), AllocError>
    ensures ok { OnOk result (stored layers.new.entries
        ≡ with_scenario (stored layers.old.entries) (with_name (rc_str_bytes name) layer)) }
    ensures err { OnErr result (layers.new.entries ≡ layers.old.entries) }
{
    layers.insert(name, layer)?;
    Ok(())
}

/// Whether some layer has a base scenario of this name.
fn any_based_on(layers: &IndexMap<RcStr, Layer>, name: &str) -> bool
    ensures { result ≡ list_any (λ l. is_name_of name.now (base_of l)) (values layers.now) }
{
    layers.values().any(|layer| layer.is_based_on(name))
}
