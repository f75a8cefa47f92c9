//! Laws of the definitions, each as the contract of a function that does nothing: what a complete sum is,
//! that cubes with the same places are equal, and what the limits are.
ghost use Rattle.std.specs.Prelude.{◌≡◌};
ghost use Rattle.cube.specs.Laws.{CompleteSumIsMaximalCubes, MaximalCubesAreCompleteSum, CubesDifferInPlaces};
ghost use Rattle.cube.specs.Limits.{format_limits};

use crate::limits::{INPUTS, LINE_BYTES, LINES, OUTPUTS};

/// For each shape and set of places, the complete sum is the one list that rises strictly in row
/// order and whose members are the maximal cubes.
pub fn complete_sum_is_maximal_cubes()
    ensures it_is { CompleteSumIsMaximalCubes }
    ensures no_other { MaximalCubesAreCompleteSum }
{}

/// Two cubes of one shape that hold the same places are equal.
pub fn same_places_same_cube()
    ensures { CubesDifferInPlaces }
{}

/// The limits that contracts speak of are the constants of [`crate::limits`].
pub fn limits_are_constants()
    ensures { format_limits
        ≡ record { inputs = INPUTS; outputs = OUTPUTS; line_bytes = LINE_BYTES; lines = LINES } }
{}
