//! The kinds of block, by the arguments that name them.
ghost use Rattle.std.specs.Prelude.{ℕ, List};
ghost use Rattle.calls.specs.Named.{GivesByKey};

use kinds::Kind;
use records::{Fill, Fwin, Glrm, Loca, Rcvi, Supi, Time};
use script::Fields;
use texts::{City, Sitd, Tool, Zone};

/// What is to be done with a kind, whichever it is.
pub trait ForKind: Drop {
    /// What comes of it.
    type Output;

    ghost gives: { Self → List ℕ → Self.Output → Type 0 };

    /// Does it with a kind.
    fn of<K: Kind>(self) -> Self::Output
    where
        K::Record: Fields,
        ensures { gives self K.kind.key result };
}

/// Does it with the kind whose key an argument is; nothing where the argument is the key of no
/// kind.
pub fn by_key<C: ForKind>(argument: &str, call: C) -> Option<C::Output>
    ensures { GivesByKey (C.gives call) argument.now result }
{
    match argument {
        "TIME" => Some(call.of::<Time>()),
        "LOCA" => Some(call.of::<Loca>()),
        "RCVI" => Some(call.of::<Rcvi>()),
        "GLRM" => Some(call.of::<Glrm>()),
        "SUPI" => Some(call.of::<Supi>()),
        "FWIN" => Some(call.of::<Fwin>()),
        "FILL" => Some(call.of::<Fill>()),
        "ZONE" => Some(call.of::<Zone>()),
        "CITY" => Some(call.of::<City>()),
        "TOOL" => Some(call.of::<Tool>()),
        "SITD" => Some(call.of::<Sitd>()),
        _ => None,
    }
}
