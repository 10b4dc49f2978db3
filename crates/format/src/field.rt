//! A field, by its number.
ghost use Rattle.std.specs.Prelude.{◌≤◌};
ghost use Rattle.format.specs.Header.{field_count};

/// A field of the header, by its number, which is one of 1 to 20.
#[derive(Clone, Copy, PartialEq, Eq, Debug)]
pub struct Field {
    pub(crate) number: usize,
    ghost known: { (1 ≤ number) × (number ≤ field_count) },
}
