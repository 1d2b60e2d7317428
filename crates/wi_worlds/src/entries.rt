//! Replacements as entries of a map, and back.

ghost use Rattle.std.specs.Prelude.{◌≡◌, IfOk, OnOk};
ghost use Rattle.wi_values.specs.Replacements.{IsInOrder, as_map, overridden};

use std::alloc::{AllocError, Global};
use std::collections::BTreeMap;
use wi_values::{Address, Replacement, Value};

/// Values by addresses.
type ValueMap = BTreeMap<Address, Value>;

/// A copy of a replacement, with a copy of its value.
pub(crate) fn copied(alloc: Global, replacement: &Replacement) -> Result<Replacement, AllocError>
    ensures { IfOk result (λ r. r ≡ replacement.now) }
{
    let value = replacement.value.copy(alloc)?;
    Ok(Replacement {
        at: replacement.at,
        value,
    })
}

/// Puts copies of replacements into a map, one after another. If memory runs out, those put in so far stay.
pub(crate) fn insert_copies(
    alloc: Global,
    map: &mut ValueMap,
    replacements: &[Replacement],
) -> Result<(), AllocError>
    ensures { OnOk result (map.new.entries ≡ overridden map.old.entries replacements.now) }
{
    for replacement in replacements {
        let value = replacement.value.copy(alloc)?;
        map.insert(replacement.at, value)?;
    }
    Ok(())
}

/// The entries of a map as replacements, in row-major order.
pub fn listed(alloc: Global, map: BTreeMap<Address, Value>) -> Result<Vec<Replacement>, AllocError>
    ensures value { IfOk result (λ rs. as_map rs.items ≡ map.entries) }
    ensures order { IfOk result (λ rs. IsInOrder rs.items) }
{
    let mut replacements = Vec::with_capacity(alloc, map.len())?;
    for (at, value) in map {
        replacements.push(Replacement { at, value })?;
    }
    Ok(replacements)
}
