//! The parameters of a call, as its function is given them.

ghost use Rattle.std.specs.Prelude.{◌≡◌, ℕ, IfOk, IfErr, [], ◌∷◌};
ghost use Rattle.wi_values.specs.declared.value.Value.{Value as Values};
ghost use Rattle.wi_arguments.specs.Arguments.{area_referred, argument_in, value_lent, KnownAgrees, IsMissing};

use crate::lookup::{LookedUp, Lookup};
use wi_values::{Address, ErrorKind, Rect, Value};

/// A parameter, as its function is given it.
#[derive(Drop)]
pub enum Argument {
    /// A reference: its cells are looked up where the function asks for them, and not before.
    Reference(Rect),
    Value(Value),
}

impl Argument {
    /// The rectangle that it refers to.
    pub fn area(&self) -> Result<Rect, ErrorKind>
        ensures { result ≡ area_referred self.now }
    {
        match self {
            Argument::Reference(area) => Ok(*area),
            Argument::Value(_) => Err(ErrorKind::BadValue),
        }
    }

    /// Its value: of a reference to one cell what that cell holds, and of one to more an error. If a cell's value isn't
    /// known, that cell is given.
    pub fn value<'a, L: Lookup>(
        &'a self,
        lookup: &'a L,
    ) -> Result<Result<&'a Value, ErrorKind>, Address>
        ensures done { IfOk result (λ r. (cells : ℕ → Values)
            → KnownAgrees (L.known_cell lookup.now) cells
            → value_lent r ≡ (argument_in cells self.now).value) }
        ensures missing { IfErr result (IsMissing (L.known_cell lookup.now) (self.now ∷ [])) }
    {
        match self {
            Argument::Value(value) => Ok(Ok(value)),
            Argument::Reference(area) => {
                if area.first() != area.last() {
                    return Ok(Err(ErrorKind::BadValue));
                }
                match lookup.cell(area.first()) {
                    LookedUp::Known(value) => Ok(Ok(value)),
                    LookedUp::Missing => Err(area.first()),
                }
            }
        }
    }
}
