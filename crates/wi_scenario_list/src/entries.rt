//! Replacements as entries of a map.

ghost use Rattle.std.specs.Prelude.{◌≡◌, IfOk, OnOk};
ghost use Rattle.wi_values.specs.Replacements.{IsInOrder, as_replacements, overridden};

use std::alloc::{AllocError, Global};
use std::collections::BTreeMap;
use wi_values::{Address, Value};

/// Values by addresses.
pub(crate) type ValueMap = BTreeMap<Address, Value>;

/// Puts copies of a map's entries into another, in the place of what it had at their addresses. If memory runs out,
/// those put in so far stay.
pub(crate) fn merge(alloc: Global, map: &mut ValueMap, others: &ValueMap) -> Result<(), AllocError>
    ensures put { OnOk result (map.new.entries
        ≡ overridden map.old.entries (as_replacements others.now.entries)) }
    ensures order { OnOk result (IsInOrder (as_replacements others.now.entries)) }
{
    for (at, value) in others {
        let value = value.copy(alloc)?;
        map.insert(*at, value)?;
    }
    Ok(())
}

/// A copy of a map, with a copy of each value. The work for each entry grows with the logarithm of the count of all.
pub(crate) fn copied(alloc: Global, map: &ValueMap) -> Result<ValueMap, AllocError>
    ensures { IfOk result (λ m. m.entries ≡ map.now.entries) }
{
    let mut copy = BTreeMap::new(alloc);
    merge(alloc, &mut copy, map)?;
    Ok(copy)
}

/// A map with another's entries put in, each in the place of the one that its address had.
pub(crate) fn with_entries(
    alloc: Global,
    map: ValueMap,
    others: &ValueMap,
) -> Result<ValueMap, AllocError>
    ensures { IfOk result (λ m.
        m.entries ≡ overridden map.entries (as_replacements others.now.entries)) }
{
    let mut all = map;
    merge(alloc, &mut all, others)?;
    Ok(all)
}
