//! Lists of references to cubes, as the questions about lists take them.
ghost use Rattle.std.specs.Prelude.{◌≡◌, ◌++◌, IfOk, All};
ghost use Rattle.cube.specs.Cube.{HasSize};
ghost use Rattle.rows.specs.Places.{behind};

use crate::list::Cover;
use cube::Cube;
use rows::references_to_cubes;
use std::alloc::AllocError;

// References to the cubes of a cover, in their order.
pub(crate) fn references_to(list: &Cover) -> Result<Vec<&Cube>, AllocError>
    ensures cubes { IfOk result (λ refs. behind refs.items ≡ list.now.cubes) }
    ensures sizes { IfOk result (λ refs. All (λ d. HasSize d.now list.now.size) refs.items) }
{
    references_to_cubes(list.allocator(), list.as_slice())
}

// References to the cubes of two covers, first those of `list`.
pub(crate) fn references_to_both<'a>(
    list: &'a Cover,
    other: &'a Cover,
) -> Result<Vec<&'a Cube>, AllocError>
    requires { other.now.size ≡ list.now.size }
    ensures cubes { IfOk result (λ refs. behind refs.items ≡ list.now.cubes ++ other.now.cubes) }
    ensures sizes { IfOk result (λ refs. All (λ d. HasSize d.now list.now.size) refs.items) }
{
    let mut refs = references_to(list)?;
    let mut others = references_to(other)?;
    refs.append(&mut others)?;
    Ok(refs)
}
