//! Whether two rows have an output in common.
ghost use Rattle.std.specs.Prelude.{◌≡◌, ◌↔◌, ℕ, IsTrue, slice_index_or, true, false};

use cube::Cube;

/// Whether the cubes have an output in common.
#[inline(always)]
pub fn share_output(cube: &Cube, other: &Cube) -> bool
    ensures { IsTrue result ↔ ((j : ℕ) × (slice_index_or cube.now.outputs j false ≡ true)
        × (slice_index_or other.now.outputs j false ≡ true)) }
{
    for w in 0..cube.shape().outputs().div_ceil(64) {
        if cube.output_bits(w) & other.output_bits(w) != 0 {
            return true;
        }
    }
    false
}
