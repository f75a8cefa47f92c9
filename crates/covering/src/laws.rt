//! Laws of the definitions, as contracts: there is one least cover, weights of rows bound covers, and the
//! least number in which two rising lists of one length differ decides which is first.

ghost use Rattle.covering.specs.Lagrange.{LagrangianHolds};
ghost use Rattle.covering.specs.Laws.{LeastDifferenceDecides, LeastIsUnique};

/// A table has one least cover at most, so that a contract that says `IsLeast` says which list is
/// answered.
pub fn least_is_unique()
    ensures { LeastIsUnique }
{}

/// The weight of all rows is at most the scaled costs of a list with a column of each row plus all
/// overloads, for any weights, also overloading ones. The slack of a column of the list, or the
/// overload of one outside it, can be added to the weight.
pub fn weights_bound_covers()
    ensures { LagrangianHolds }
{}

/// Of two rising lists of one length the one comes first that has the least number in which they
/// differ.
pub fn least_difference_decides()
    ensures { LeastDifferenceDecides }
{}
