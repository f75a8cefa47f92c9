//! How to narrow a part of a region so that a row has no place of it: a hint.

ghost use Rattle.std.specs.Prelude.{IfOk, IfSome};
ghost use Rattle.cube.specs.Cube.{SameSize};

use cube::Cube;
use rows::opposite;
use std::alloc::AllocError;

/// The part with the opposite of a literal that the row has and it has not; where there is none,
/// the part without the outputs of the row, or `None` if it has no others.
pub(crate) fn narrower_part(part: &Cube, row: &Cube) -> Result<Option<Cube>, AllocError>
    requires { SameSize row.now part.now }
    ensures { IfOk result (λ found. IfSome found (λ c. SameSize c part.now)) }
{
    if let Some(i) = row.next_beyond(part, 0) {
        return Ok(Some(part.with_symbol(i, opposite(row.symbol(i)))?));
    }
    if !part.has_outputs_beyond(row) {
        return Ok(None);
    }
    Ok(Some(part.without_outputs(row)?))
}
