//! Whether rows are seen to leave out a part of a region. This may not decide; `part_left_out` of `regions`
//! always does, and gives the part.
//!
//! Most rows have no place of a region, or a few of its places. So the region is narrowed row by
//! row, at one look at each: a row that meets what is left loses it by the opposite of one of its
//! literals. No step is taken back, so that a part can be missed. If a row then holds all that is
//! left, the region is narrowed anew from the start, by the rows that were met too late first; up to
//! eight times in all. A row that holds the whole region ends it: nothing is left out.

ghost use Rattle.std.specs.Prelude.{◌≡◌, true, IfOk, IfSome, IfNone, OnOk, All};
ghost use Rattle.cube.specs.Cube.{SameSize, IsSubset, IsDisjoint, holds};
ghost use Rattle.rows.specs.Places.{places, behind};

use crate::narrower_part::narrower_part;
use cube::Cube;
use std::alloc::{AllocError, Global};

/// Narrows the part so that the row has no place of it. `false`, and the part as it was, if the
/// hint did not show how.
// Inlined, as most rows have no place of the part from the start.
#[inline(always)]
fn leave_out(part: &mut Cube, row: &Cube) -> Result<bool, AllocError>
    requires { SameSize row.now part.old }
    ensures size { OnOk result (SameSize part.new part.old) }
    ensures within { OnOk result (IsSubset (holds part.new) (holds part.old)) }
    ensures apart { IfOk result (λ b. b ≡ true → IsDisjoint (holds row.now) (holds part.new)) }
{
    if row.disjoint(part) {
        return Ok(true);
    }
    let Some(narrow) = narrower_part(part, row)? else {
        return Ok(false);
    };
    if !part.contains(&narrow) || !row.disjoint(&narrow) {
        return Ok(false);
    }
    *part = narrow;
    Ok(true)
}

/// The first row that is not seen to leave out a place of the region together with those before it,
/// where the rows `first` are tried before all; `None` if all rows are left out.
fn first_not_left_out<'a>(
    rows: &[&'a Cube],
    region: &Cube,
    first: &[&Cube],
) -> Result<Option<&'a Cube>, AllocError>
    requires sizes { All (λ d. SameSize d.now region.now) rows.now }
    requires first { All (λ d. SameSize d.now region.now) first.now }
    ensures some { IfOk result (λ found. IfSome found (λ d. SameSize d.now region.now)) }
    ensures none { IfOk result
        (λ found. IfNone found (IsSubset (holds region.now) (places (behind rows.now)) → ⊥)) }
{
    let mut part = region.try_clone()?;
    for row in first {
        leave_out(&mut part, row)?;
    }
    for row in rows {
        if !leave_out(&mut part, row)? {
            return Ok(Some(*row));
        }
    }
    // What is left is a cube, and so has a place.
    let is_of_shape = part.shape() == region.shape();
    prove!(is_of_shape);
    Ok(None)
}

// At most so many times a part that is left out is looked for. Among thousands of rows of many
// inputs half of those that are there are missed twice, one in a thousand eight times.
const MOST_TIMES: usize = 8;

/// Whether the rows are seen to leave out a place of the region; where they are not, they may leave
/// out one all the same. It costs a look at each row, and one more each time a row was met too late.
pub(crate) fn are_seen_to_leave_out(
    alloc: Global,
    rows: &[&Cube],
    region: &Cube,
) -> Result<bool, AllocError>
    requires { All (λ d. SameSize d.now region.now) rows.now }
    ensures { IfOk result
        (λ b. b ≡ true → IsSubset (holds region.now) (places (behind rows.now)) → ⊥) }
{
    let mut late = Vec::new(alloc);
    for _ in 0..MOST_TIMES {
        let Some(row) = first_not_left_out(rows, region, &late)? else {
            return Ok(true);
        };
        if row.contains(region) {
            return Ok(false);
        }
        late.insert(0, row)?;
    }
    Ok(false)
}
