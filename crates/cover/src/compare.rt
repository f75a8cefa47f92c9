//! Whether the places of a list lie in two others, and whether two lists agree outside a third.
pub(crate) mod intersects;
pub(crate) mod meets_within;

ghost use Rattle.std.specs.Prelude.{◌≡◌, ◌↔◌, ◌||◌, IsTrue, IfOk};
ghost use Rattle.cube.specs.Cube.{IsSubset};
ghost use Rattle.rows.specs.Places.{places, agree_outside as agree_outside_of};

use crate::list::Cover;
use crate::references::{references_to, references_to_both};
use regions::{Relation, are_related, rows_not_among};
use std::alloc::AllocError;

/// Whether each place of `list` is in `other` or in `dc`. Rows that stand in `other` or `dc` too,
/// in any order, are skipped, in time linear in the lists; a few of them may be missed, which then
/// are asked for like any other.
///
/// # Errors
///
/// [`AllocError`] if memory is refused.
pub fn is_within_either(list: &Cover, other: &Cover, dc: &Cover) -> Result<bool, AllocError>
    requires other { other.now.size ≡ list.now.size }
    requires dc { dc.now.size ≡ list.now.size }
    ensures { IfOk result
        (λ held. IsTrue held
        ↔ IsSubset (places list.now.cubes) (λ p. places dc.now.cubes p
        || places other.now.cubes p)) }
{
    let alloc = list.allocator();
    let shape = list.shape();
    let rows = references_to(list)?;
    let all = references_to_both(dc, other)?;
    let rest = rows_not_among(alloc, shape, &rows, &all)?;
    are_related(
        alloc,
        shape,
        Relation::Contained,
        shape.inputs(),
        &rest,
        &all,
    )
}

/// Whether the lists agree outside `dc`: each place that is in no cube of `dc` is in both lists or
/// in neither (equivalence modulo don't-cares). Rows that both lists have, in any order, are
/// skipped in time linear in the lists, but for a few that may be missed. For callers of the library:
/// the command `verify` asks either way itself, as under fr no DC list is made.
pub fn agree_outside(list: &Cover, other: &Cover, dc: &Cover) -> Result<bool, AllocError>
    requires other { other.now.size ≡ list.now.size }
    requires dc { dc.now.size ≡ list.now.size }
    ensures { IfOk result
        (λ agree. agree
        ≡ agree_outside_of list.now.size (places list.now.cubes) (places other.now.cubes)
        (places dc.now.cubes)) }
{
    let have_one_shape = list.shape() == other.shape();
    prove!(have_one_shape);
    if !is_within_either(list, other, dc)? {
        return Ok(false);
    }
    is_within_either(other, list, dc)
}
