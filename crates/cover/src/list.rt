//! A list of cubes of one shape ([`Cover`]), and its cubes in row order.
ghost use Rattle.std.specs.Prelude.{◌≡◌, ◌<◌, ◌++◌, ◌∷◌, [], IfOk, OnOk, All, length, ◌==◌, slice_get, slice_set, option_copied, OnErr, IfErr, IfSome};
ghost use Rattle.rows.specs.Reduced.{HasSameCubes};
ghost use Rattle.cube.specs.Order.{row_cmp as row_order};
ghost use Rattle.std.specs.List.Sorted.{IsStrictlySortedBy};
ghost use Rattle.cube.specs.Cube.{HasSize, IsCube};
ghost use Rattle.rows.specs.Cubes.{AreCubes};

use cube::{Cube, Shape};
use rows::{clone_cubes, sort_rows};
use std::alloc::{AllocError, Global};
use std::marker::Model;

/// Cubes of one shape, in their order.
#[derive(Drop)]
pub struct Cover {
    shape: Shape,
    cubes: Vec<Cube>,
}

impl Model for Cover {
    ghost use Rattle.rows.specs.Cubes.{Cubes, AreCubes};

    ghost Value = { Cubes };

    ghost view = { λ c. record { size = c.shape; cubes = c.cubes.items } };

    ghost invariant = { λ c. AreCubes c.shape c.cubes.items };
}

impl Cover {
    /// No cubes of this shape.
    pub fn new(alloc: Global, shape: Shape) -> Cover
        ensures { result ≡ record { size = shape; cubes = [] } }
    {
        Cover::from_cubes(shape, Vec::new(alloc))
    }

    /// These cubes, in their order.
    pub fn from_cubes(shape: Shape, cubes: Vec<Cube>) -> Cover
        requires { AreCubes shape cubes.items }
        ensures { result ≡ record { size = shape; cubes = cubes.items } }
    {
        Cover { shape, cubes }
    }

    /// The cubes, without the shape.
    pub fn into_cubes(self) -> Vec<Cube>
        ensures value { result.items ≡ self.cubes }
        ensures cubes { AreCubes self.size result.items }
    {
        let Cover { shape: _, cubes } = self;
        cubes
    }

    /// The allocator that the list keeps.
    pub(crate) fn allocator(&self) -> Global {
        *self.cubes.allocator()
    }

    /// The numbers of inputs and outputs.
    pub fn shape(&self) -> Shape
        ensures size { result ≡ self.now.size }
        ensures cubes { AreCubes result self.now.cubes }
    {
        self.shape
    }

    /// How many cubes there are.
    pub fn len(&self) -> usize
        ensures { result ≡ length self.now.cubes }
    {
        self.cubes.len()
    }

    /// Whether there is no cube.
    pub fn is_empty(&self) -> bool
        ensures { result ≡ (length self.now.cubes == 0) }
    {
        self.cubes.is_empty()
    }

    /// The cube at index `i`, or `None` past the last.
    pub fn get(&self, i: usize) -> Option<&Cube>
        ensures value { option_copied result ≡ slice_get self.now.cubes i }
        ensures is_cube { IfSome result (λ c. IsCube self.now.size c.now) }
    {
        self.cubes.get(i)
    }

    /// All cubes, in their order.
    pub fn as_slice(&self) -> &[Cube]
        ensures value { result.now ≡ self.now.cubes }
        ensures cubes { AreCubes self.now.size result.now }
    {
        self.cubes.as_slice()
    }

    /// Adds a cube at the end, or hands it back if the memory for it was refused.
    pub fn push(&mut self, cube: Cube) -> Result<(), Cube>
        requires { HasSize cube self.old.size }
        ensures size { self.new.size ≡ self.old.size }
        ensures ok { OnOk result (self.new.cubes ≡ self.old.cubes ++ cube ∷ []) }
        ensures err { OnErr result (self.new.cubes ≡ self.old.cubes) }
        ensures handed_back { IfErr result (λ c. c ≡ cube) }
    {
        let is_of_shape = cube.shape() == self.shape;
        prove!(is_of_shape);
        match self.cubes.push(cube) {
            Ok(()) => Ok(()),
            Err(failed) => Err(failed.value),
        }
    }

    /// Puts another cube in place of that at index `i`.
    pub(crate) fn replace(&mut self, i: usize, cube: Cube)
        requires index { i < length self.old.cubes }
        requires size { HasSize cube self.old.size }
        ensures size { self.new.size ≡ self.old.size }
        ensures cubes { self.new.cubes ≡ slice_set self.old.cubes i cube }
    {
        let is_of_shape = cube.shape() == self.shape;
        prove!(is_of_shape);
        self.cubes[i] = cube;
    }

    /// Adds the other list's cubes at the end, in their order. If memory is refused, this list
    /// stays as it was.
    pub fn append(&mut self, other: &Cover) -> Result<(), AllocError>
        requires { other.now.size ≡ self.old.size }
        ensures size { self.new.size ≡ self.old.size }
        ensures ok { OnOk result (self.new.cubes ≡ self.old.cubes ++ other.now.cubes) }
        ensures err { OnErr result (self.new.cubes ≡ self.old.cubes) }
    {
        let mut cubes = other.try_clone()?.into_cubes();
        self.cubes.append(&mut cubes)
    }

    /// An equal list.
    pub fn try_clone(&self) -> Result<Cover, AllocError>
        ensures { IfOk result (λ c. c ≡ self.now) }
    {
        let cubes = clone_cubes(self.allocator(), self.as_slice())?;
        Ok(Cover::from_cubes(self.shape(), cubes))
    }
}

/// The cubes of the list in row order, each once.
///
/// # Errors
///
/// [`AllocError`] if memory is refused.
pub fn in_row_order(list: &Cover) -> Result<Cover, AllocError>
    ensures size { IfOk result (λ all. all.size ≡ list.now.size) }
    ensures rising { IfOk result (λ all. IsStrictlySortedBy row_order all.cubes) }
    ensures cubes { IfOk result (λ all. HasSameCubes list.now.cubes all.cubes) }
{
    let alloc = list.allocator();
    let shape = list.shape();
    let rows = sort_rows(alloc, list.try_clone()?.into_cubes())?;
    Ok(Cover::from_cubes(shape, rows))
}
