//! What a scenario holds beside its name.

ghost use Rattle.std.specs.Prelude.{◌≡◌, ◌&&◌, [], ◌∷◌, not, nat_le, length, IfOk, None};
ghost use Rattle.std.specs.Option.{option_copied};
ghost use Rattle.wi_values.specs.Replacements.{is_replaced};
ghost use Rattle.wi_scenario_list.specs.Scenarios.{max_replacements, with_replacements};
ghost use Rattle.wi_scenario_list.specs.Inner.Parts.{without_replacement};
ghost use Rattle.wi_scenario_list.specs.Bases.{is_name_of};
ghost use Rattle.wi_scenario_list.specs.Inner.Stored.{base_of, own_of};

use crate::entries::{ValueMap, copied};
use std::alloc::{AllocError, Global};
use std::collections::BTreeMap;
use std::rc::{Rc, RcStr};
use wi_values::{Address, Value};

/// The greatest count of a scenario's own replacements.
pub const MAX_REPLACEMENTS: usize = 256;

/// What a scenario holds beside its name. A clone shares both parts.
#[derive(Drop)]
pub(crate) struct Layer {
    /// Its own replacements.
    pub own: Rc<ValueMap>,
    /// The name of its base scenario.
    pub base: Option<RcStr>,
}

impl Clone for Layer {
    ghost use Rattle.wi_scenario_list.specs.Inner.Stored.{IsSame};

    ghost is_clone = { IsSame };

    fn clone(&self) -> Result<Layer, AllocError> {
        let own = self.own.clone()?;
        let base = self.base.clone()?;
        Ok(Layer { own, base })
    }
}

impl Layer {
    /// No replacements, and no base scenario.
    pub(crate) fn new(alloc: Global) -> Result<Layer, AllocError>
        ensures own { IfOk result (λ l. own_of l ≡ []) }
        ensures base { IfOk result (λ l. base_of l ≡ None) }
    {
        let own = Rc::new(alloc, BTreeMap::new(alloc))?;
        Ok(Layer { own, base: None })
    }

    /// The name of the base scenario.
    pub(crate) fn base_name(&self) -> Option<&str>
        ensures { option_copied result ≡ base_of self.now }
    {
        match &self.base {
            Some(name) => Some(name.as_str()),
            None => None,
        }
    }

    /// Whether a name is that of the base scenario.
    pub(crate) fn is_based_on(&self, name: &str) -> bool
        ensures { result ≡ is_name_of name.now (base_of self.now) }
    {
        match &self.base {
            Some(base) => name == base.as_str(),
            None => false,
        }
    }

    /// Whether a replacement for an address would be one too many.
    pub(crate) fn is_full(&self, at: Address) -> bool
        ensures { result ≡ (not (is_replaced (own_of self.now) at)
            && nat_le max_replacements (length (own_of self.now))) }
    {
        !self.own.contains_key(&at) && self.own.len() >= MAX_REPLACEMENTS
    }

    /// A layer with this one's replacements and base scenario, and with a replacement put in, in the place of an
    /// earlier one for its address. It copies all replacements.
    pub(crate) fn with(&self, alloc: Global, at: Address, value: Value) -> Result<Layer, AllocError>
        ensures own { IfOk result (λ l. own_of l
            ≡ with_replacements (own_of self.now) (record { at = at; value = value } ∷ [])) }
        ensures base { IfOk result (λ l. base_of l ≡ base_of self.now) }
    {
        let mut own = copied(alloc, &self.own)?;
        own.insert(at, value)?;
        self.with_own(alloc, own)
    }

    /// A layer with this one's replacements, but for the one for an address, and with its base scenario. It copies all
    /// replacements.
    pub(crate) fn without(&self, alloc: Global, at: Address) -> Result<Layer, AllocError>
        ensures own { IfOk result (λ l. own_of l ≡ without_replacement (own_of self.now) at) }
        ensures base { IfOk result (λ l. base_of l ≡ base_of self.now) }
    {
        let mut own = copied(alloc, &self.own)?;
        own.remove(&at);
        self.with_own(alloc, own)
    }

    /// A layer with these replacements, and with this one's base scenario.
    fn with_own(&self, alloc: Global, own: ValueMap) -> Result<Layer, AllocError>
        ensures own { IfOk result (λ l. l.own.value ≡ own) }
        ensures base { IfOk result (λ l. base_of l ≡ base_of self.now) }
    {
        let own = Rc::new(alloc, own)?;
        let base = self.base.clone()?;
        Ok(Layer { own, base })
    }

    /// A layer with this one's replacements, which both share, and with another base scenario, or with none.
    pub(crate) fn based_on(&self, alloc: Global, base: Option<&str>) -> Result<Layer, AllocError>
        ensures own { IfOk result (λ l. own_of l ≡ own_of self.now) }
        ensures base { IfOk result (λ l. base_of l ≡ option_copied base.entry) }
    {
        let own = self.own.clone()?;
        let base = match base {
            Some(name) => Some(RcStr::from_str(alloc, name)?),
            None => None,
        };
        Ok(Layer { own, base })
    }
}
