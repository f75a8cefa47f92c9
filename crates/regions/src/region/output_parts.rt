//! A region in two parts by outputs.
ghost use Rattle.std.specs.Prelude.{IfOk, IfSome, All};
ghost use Rattle.cube.specs.Cube.{SameSize};
ghost use Rattle.regions.specs.Reason.{HasParts};

use crate::region::passes::count_common_outputs;
use cube::Cube;
use std::alloc::AllocError;

// The first of the rows that have most outputs of the region, by its index; one past the end if
// none has any. (Nothing depends on it.)
fn widest_row(rows: &[&Cube], region: &Cube) -> usize {
    let mut widest = rows.len();
    let mut most: usize = 0;
    for (k, row) in rows.iter().enumerate() {
        let common = count_common_outputs(row, region);
        if common > most {
            most = common;
            widest = k;
        }
    }
    widest
}

/// The region with the outputs alone that it shares with the row which has most of them, and with
/// its others; `None` if one of both is empty.
pub(crate) fn parts_by_widest_row(
    rows: &[&Cube],
    region: &Cube,
) -> Result<Option<(Cube, Cube)>, AllocError>
    requires { All (λ d. SameSize d.now region.now) rows.now }
    ensures { IfOk result
        (λ found. IfSome found (λ parts. HasParts region.now parts.0 parts.1)) }
{
    let Some(row) = rows.get(widest_row(rows, region)) else {
        return Ok(None);
    };
    parts_by_row(region, row)
}

// The region with the outputs alone that it shares with the row, and with its others; `None` if one
// of both is empty.
fn parts_by_row(region: &Cube, row: &Cube) -> Result<Option<(Cube, Cube)>, AllocError>
    requires { SameSize row.now region.now }
    ensures { IfOk result
        (λ found. IfSome found (λ parts. HasParts region.now parts.0 parts.1)) }
{
    if !region.has_outputs_beyond(row) {
        return Ok(None);
    }
    let rest = region.without_outputs(row)?;
    if !region.has_outputs_beyond(&rest) {
        return Ok(None);
    }
    let part = region.without_outputs(&rest)?;
    Ok(Some((part, rest)))
}
