//! Which cover is wanted, and what columns cost then.

ghost use Rattle.std.specs.Prelude.{◌≡◌};
ghost use Rattle.covering.specs.Cover.{counted, sum_over};

/// Which of the shortest covers is the least.
#[derive(Clone, Copy, Debug, PartialEq, Eq)]
pub enum Choice {
    /// The first, if the lists of columns are compared number by number.
    First,
    /// Of those with the fewest literals, the first.
    Literals,
}

/// The cost of a column: 0 under `First`, its number of literals under `Literals`, 0 past the end.
pub(crate) fn cost(choice: Choice, literals: &[u32], column: usize) -> u32
    ensures { result ≡ counted choice literals.now column }
{
    match choice {
        Choice::First => 0,
        Choice::Literals => literals.get(column).copied().unwrap_or(0),
    }
}

/// The cost of all columns of the list together.
pub(crate) fn total_cost(choice: Choice, literals: &[u32], columns: &[usize]) -> u128
    ensures { result ≡ sum_over (counted choice literals.now) columns.now }
{
    let mut total: u128 = 0;
    for column in columns {
        total += u128::from(cost(choice, literals, *column));
    }
    total
}
