//! The rows of a list by their outputs.
//!
//! Most questions of a growth are about one output, or about the few that a cube has. The rows that
//! have none of these hold no place that is asked for; where the others are few, they alone are
//! looked at.

ghost use Rattle.std.specs.Prelude.{◌≡◌, ◌<◌, IfOk, IfSome, All, length};
ghost use Rattle.cube.specs.Cube.{HasSize, SameSize};
ghost use Rattle.rows.specs.Cubes.{AreCubes};
ghost use Rattle.rows.specs.Places.{behind};
ghost use Rattle.growth.specs.RowsByOutput.{with_output, HoldSame};

use cover::Cover;
use cube::{Cube, Shape};
use rows::references_to_cubes;
use std::alloc::{AllocError, Global};
use std::marker::Model;

/// The rows that have the output, in their order; `None` where they are more than `most`.
fn rows_with_output<'a>(
    alloc: Global,
    rows: &[&'a Cube],
    j: usize,
    most: usize,
) -> Result<Option<Vec<&'a Cube>>, AllocError>
    requires { All (λ d. j < length d.now.outputs) rows.now }
    ensures { IfOk result (λ o. IfSome o (λ found. found.items ≡ with_output j rows.now)) }
{
    let mut found = Vec::new(alloc);
    for row in rows {
        if row.output(j) {
            if found.len() >= most {
                return Ok(None);
            }
            found.push(*row)?;
        }
    }
    Ok(Some(found))
}

// The rows of an output are few if they are at most one in so many.
const FEW: usize = 8;

/// The rows of a list, and of each output those that have it, where these are few.
#[derive(Drop)]
pub struct RowsByOutput<'a> {
    list: &'a Cover,
    all: Vec<&'a Cube>,
    by_output: Vec<Option<Vec<&'a Cube>>>,
}

impl<'a> Model for RowsByOutput<'a> {
    ghost use Rattle.rows.specs.Cubes.{Cubes};
    ghost use Rattle.growth.specs.RowsByOutput.{AreByOutput};

    ghost Value = { Cubes };

    ghost view = { λ r. r.list.now };

    ghost invariant = { λ r. AreByOutput r.list.now.cubes r.all.items r.by_output.items };
}

impl<'a> RowsByOutput<'a> {
    /// The rows of the list. It costs a look at each row for each output, and a reference for each
    /// output of a row where these are kept.
    ///
    /// # Errors
    ///
    /// [`AllocError`] if memory is refused.
    pub fn new(alloc: Global, list: &'a Cover) -> Result<RowsByOutput<'a>, AllocError>
        ensures { IfOk result (λ r. r ≡ list.now) }
    {
        let all = references_to_cubes(alloc, list.as_slice())?;
        let mut by_output = Vec::new(alloc);
        for j in 0..list.shape().outputs() {
            by_output.push(rows_with_output(alloc, &all, j, all.len() / FEW)?)?;
        }
        Ok(RowsByOutput {
            list,
            all,
            by_output,
        })
    }

    /// The numbers of inputs and outputs.
    pub fn shape(&self) -> Shape
        ensures size { result ≡ self.now.size }
        ensures cubes { AreCubes result self.now.cubes }
    {
        self.list.shape()
    }

    /// The list.
    pub fn list(&self) -> &'a Cover
        ensures { result.now ≡ self.now }
    {
        self.list
    }

    /// Rows that hold the same places of the region as all rows do: those that have one of its
    /// outputs, a row once for each; `None` where these are not few, or those of some outputs are
    /// already as many as all rows.
    pub(crate) fn rows_reaching(
        &self,
        alloc: Global,
        region: &Cube,
    ) -> Result<Option<Vec<&'a Cube>>, AllocError>
        requires { HasSize region.now self.now.size }
        ensures sizes { IfOk result (λ o. IfSome o
            (λ found. All (λ d. SameSize d.now region.now) found.items)) }
        ensures same { IfOk result (λ o. IfSome o
            (λ found. HoldSame region.now (behind found.items) self.now.cubes)) }
    {
        let mut found = Vec::new(alloc);
        for j in 0..self.list.shape().outputs() {
            if region.output(j) {
                let Some(Some(few)) = self.by_output.get(j) else {
                    return Ok(None);
                };
                if found.len() >= self.all.len() {
                    return Ok(None);
                }
                found.extend_from_slice(few)?;
            }
        }
        Ok(Some(found))
    }
}
