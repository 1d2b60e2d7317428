//! The hash of a key.

ghost use Rattle.std.specs.Prelude.{◌≡◌};
ghost use Rattle.wi_cache.specs.Hashed.{key_input, key_number, same_key_hash};

use crate::key::Key;
use std::hash::{Hash, Hasher};
use wi_values::{COLUMNS, ROWS};

/// The work of a hash is that of one number, whatever the count of replacements.
impl Hash for Key {
    ghost hash_input = { key_input };

    ghost respects_eq = { same_key_hash };

    fn hash<H: Hasher>(&self, state: &mut H) {
        state.write_u64(number_of(self));
    }
}

/// How many cells a sheet has.
const CELLS: u64 = ROWS as u64 * COLUMNS as u64;

/// The digest of the replacements, with the low 30 bits of the generation and the cell added to it.
fn number_of(key: &Key) -> u64
    ensures { result ≡ key_number key.now }
{
    let cell = u64::from(key.cell.row()) * COLUMNS as u64 + u64::from(key.cell.column());
    let low = key.generation % (1 << 30) * CELLS + cell;
    key.world.digest().wrapping_add(low)
}
