//! Where a cube and a row of a list conflict: for hints.

use cube::Cube;

// The lower bit of each pair: a set of 32 inputs has these alone.
const EVEN: u64 = 0x5555_5555_5555_5555;

/// The inputs from `32 w` on at which the two have opposite literals, as a set of 32: two bits for
/// each, of which the lower tells.
pub(crate) fn conflicts(cube: &Cube, row: &Cube, w: usize) -> u64 {
    let (mine, theirs) = (cube.literal_bits(w), row.literal_bits(w));
    (((mine >> 1) & theirs) | (mine & (theirs >> 1))) & EVEN
}

/// At how many inputs the two have opposite literals.
pub(crate) fn count_conflicts(cube: &Cube, row: &Cube) -> usize {
    let mut count: usize = 0;
    for w in 0..cube.shape().inputs() / 32 + 1 {
        count = count.saturating_add(conflicts(cube, row, w).count_ones() as usize);
    }
    count
}
