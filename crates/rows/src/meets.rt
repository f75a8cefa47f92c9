//! The meets of two lists, pair by pair. (`meets` of `sums` mostly looks at fewer.)
ghost use Rattle.std.specs.Prelude.{◌≡◌, List, ◌++◌, ◌∷◌, [], IfOk, OnOk, All};
ghost use Rattle.cube.specs.Size.{Size};
ghost use Rattle.cube.specs.Cube.{SameSize, IsCube, Cube as Row};
ghost use Rattle.rows.specs.Cubes.{AreCubes};
ghost use Rattle.rows.specs.Reduced.{IsMeets};
ghost use Rattle.rows.specs.Sizes.{ShareOneSize};

use cube::Cube;
use std::alloc::{AllocError, Global};

/// Adds the meets of a row with the others, in their order; one that is disjoint from it adds none.
pub fn push_meets(row: &Cube, others: &[Cube], all: &mut Vec<Cube>) -> Result<(), AllocError>
    requires { All (λ c. SameSize row.now c) others.now }
    ensures { OnOk result ((size : Size) → IsCube size row.now → AreCubes size others.now
        → (meets : List Row) × (all.new.items ≡ all.old.items ++ meets)
        × IsMeets size (row.now ∷ []) others.now meets) }
{
    for other in others {
        if let Some(met) = row.meet(other)? {
            all.push(met)?;
        }
    }
    Ok(())
}

/// The meets of a row of each list, pair by pair, those of the first row first. A disjoint pair
/// gives none, and equal meets are repeated.
pub fn meets_by_pairs(
    alloc: Global,
    rows: &[Cube],
    others: &[Cube],
) -> Result<Vec<Cube>, AllocError>
    requires { ShareOneSize rows.now others.now }
    ensures { IfOk result (λ all. (size : Size) → AreCubes size rows.now → AreCubes size others.now
        → IsMeets size rows.now others.now all.items) }
{
    let mut all = Vec::new(alloc);
    for row in rows {
        push_meets(row, others, &mut all)?;
    }
    Ok(all)
}
