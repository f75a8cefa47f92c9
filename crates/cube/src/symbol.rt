//! The symbol of one input.
/// What a cube asks of one input, in the order of rows: nothing (`-`), `0` or `1`.
///
/// `0` and `1` are the literals.
#[derive(Clone, Copy, Debug, PartialEq, Eq, PartialOrd, Ord)]
pub enum Symbol {
    Dash,
    Zero,
    One,
}

impl Symbol {
    ghost use Rattle.std.specs.Prelude.{◌≡◌};
    ghost use Rattle.cube.specs.Pattern.{agrees};

    /// Whether the symbol agrees with a bit.
    pub(crate) fn allows(self, bit: bool) -> bool
        ensures { result ≡ agrees self bit }
    {
        self as u8 != if bit { 1 } else { 2 }
    }
}
