//! The points that may be in a cube that contains a given one.

ghost use Rattle.std.specs.Prelude.{◌≡◌, ◌<◌, IfOk, IfSome, OnOk, All, length, true};
ghost use Rattle.cube.specs.Cube.{IsCube, SameSize};
ghost use Rattle.cover.specs.Cubes.{AreCubes};
ghost use Rattle.growth.specs.Dominating.{AreSorted, IsImplicant, NeedsNoJoin, HoldsOneOf};

use crate::columns::blocking_matrix::BlockingMatrix;
use cover::Cover;
use cube::Cube;
use std::alloc::{AllocError, Global};

/// Numbers of points: first those that are excluded, then those that join the cube, then those that
/// the best cube holds.
#[derive(Drop)]
pub(crate) struct OpenPoints {
    /// The numbers.
    pub(crate) numbers: Vec<usize>,
    /// Where those begin that the best cube holds.
    pub(crate) held: usize,
}

/// Whether the cube contains one of the points with these numbers.
pub(crate) fn holds_one_of(points: &[Cube], numbers: &[usize], cube: &Cube) -> bool
    requires points { All (λ d. SameSize cube.now d) points.now }
    ensures { result ≡ true → HoldsOneOf points.now numbers.now cube.now }
{
    for k in numbers {
        if *k < points.len() && cube.contains(&points[*k]) {
            return true;
        }
    }
    false
}

/// Whether the cube meets the row with this number; `false` past the end.
pub(crate) fn meets_row(off: &Cover, r: usize, cube: &Cube) -> bool
    requires { IsCube off.now.size cube.now }
    ensures { result ≡ true → IsImplicant off.now cube.now → ⊥ }
{
    let Some(row) = off.get(r) else {
        return false;
    };
    !row.disjoint(cube)
}

/// The number of a row that meets the cube, if the matrix names one; else `None`.
fn row_that_meets(off: &Cover, matrix: &BlockingMatrix, cube: &Cube) -> Option<usize>
    requires { IsCube off.now.size cube.now }
    ensures { IfSome result (λ _. IsImplicant off.now cube.now → ⊥) }
{
    let r = matrix.row_that_meets(cube)?;
    if meets_row(off, r, cube) {
        return Some(r);
    }
    None
}

/// Whether it is seen that the cube can not be joined with a point, as the join meets the list. The
/// row that the last such join with the point met is looked at first, and then one that the matrix
/// names, which is noted in `refusing`.
fn is_refused(
    off: &Cover,
    cube: &Cube,
    point: &Cube,
    k: usize,
    matrix: &BlockingMatrix,
    refusing: &mut Vec<usize>,
) -> Result<bool, AllocError>
    requires cube { IsCube off.now.size cube.now }
    requires point { IsCube off.now.size point.now }
    requires number { k < length refusing.old.items }
    ensures refused { IfOk result (λ b. b ≡ true → NeedsNoJoin off.now cube.now point.now) }
    ensures long { OnOk result (length refusing.new.items ≡ length refusing.old.items) }
{
    let wide = cube.join(point)?;
    if meets_row(off, refusing[k], &wide) {
        return Ok(true);
    }
    if let Some(r) = row_that_meets(off, matrix, &wide) {
        refusing[k] = r;
        return Ok(true);
    }
    Ok(false)
}

/// The excluded points, then the candidates that may join the cube, then those that the best cube
/// holds. Left out are candidates that the cube contains, and those that it is seen not to be
/// joined with.
///
/// It costs a look at each candidate, and mostly one at the matrix.
pub(crate) fn sort_points(
    alloc: Global,
    off: &Cover,
    points: &[Cube],
    excluded: &[usize],
    candidates: &[usize],
    cube: &Cube,
    best: &Cube,
    matrix: &BlockingMatrix,
    refusing: &mut Vec<usize>,
) -> Result<OpenPoints, AllocError>
    requires points { AreCubes off.now.size points.now }
    requires excluded { All (λ k. k < length points.now) excluded.now }
    requires candidates { All (λ k. k < length points.now) candidates.now }
    requires cube { IsCube off.now.size cube.now }
    requires best { IsCube off.now.size best.now }
    requires refusing { length refusing.old.items ≡ length points.now }
    ensures sorted { IfOk result
        (AreSorted off.now points.now excluded.now candidates.now cube.now best.now) }
    ensures refusing { OnOk result (length refusing.new.items ≡ length points.now) }
{
    let mut numbers = excluded.to_vec(alloc)?;
    let mut inside = Vec::new(alloc);
    for k in candidates {
        let point = &points[*k];
        if cube.contains(point) {
            continue;
        }
        if best.contains(point) {
            inside.push(*k)?;
            continue;
        }
        if is_refused(off, cube, point, *k, matrix, refusing)? {
            continue;
        }
        numbers.push(*k)?;
    }
    let held = numbers.len();
    numbers.extend_from_slice(&inside)?;
    Ok(OpenPoints { numbers, held })
}
