//! Whether the places that two lists have in common lie in two others.
ghost use Rattle.std.specs.Prelude.{◌≡◌, ◌↔◌, ◌||◌, IsTrue, IfOk};
ghost use Rattle.cube.specs.Cube.{IsSubset, intersection};
ghost use Rattle.rows.specs.Places.{places};

use crate::list::Cover;
use crate::references::{references_to, references_to_both};
use regions::{are_meets_held_by_halves, rows_not_among};
use rows::clone_referents;
use std::alloc::AllocError;

/// Whether each place that is both in `list` and in `mask` is in `other` or in `dc`.
///
/// Rows that also stand in `other` or `dc`, in any order, take time in the lengths of the lists. So
/// do lists that share no place with the mask, if splits at inputs soon separate the two.
///
/// # Errors
///
/// [`AllocError`] if memory is refused.
pub fn are_meets_within_either(
    list: &Cover,
    mask: &Cover,
    other: &Cover,
    dc: &Cover,
) -> Result<bool, AllocError>
    requires mask { mask.now.size ≡ list.now.size }
    requires other { other.now.size ≡ list.now.size }
    requires dc { dc.now.size ≡ list.now.size }
    ensures { IfOk result
        (λ held. IsTrue held
        ↔ IsSubset (intersection (places list.now.cubes) (places mask.now.cubes))
        (λ p. places dc.now.cubes p || places other.now.cubes p)) }
{
    let alloc = list.allocator();
    let shape = list.shape();
    let rows = references_to(list)?;
    let all = references_to_both(dc, other)?;
    let rest = rows_not_among(alloc, shape, &rows, &all)?;
    let copies = clone_referents(alloc, &rest)?;
    are_meets_held_by_halves(alloc, shape, &copies, mask.as_slice(), &all)
}
