//! Whether rows have far more pairs with a consensus than literals: a hint, by which `way_hints` tells
//! whether primes are many, for `exact` as for `essen`.
//!
//! Two rows that conflict at one input have a consensus. The primes of rows with few such pairs are
//! mostly about as many as the rows: points, disjoint products, products without opposite literals.
//! Those of random products are far more.

use cube::Cube;

// At most so many rows are compared with all.
const MOST_COMPARED: usize = 16;

// How many rows conflict with the cube at one input.
fn count_conflicts_at_one(rows: &[Cube], cube: &Cube) -> usize {
    let mut count: usize = 0;
    for row in rows {
        if row.opposites(cube) == 1 {
            count = count.saturating_add(1);
        }
    }
    count
}

/// Whether some rows, spread over the list, have together more pairs that conflict at one input
/// than twice their literals, or than nine tenths of these where they have two each at most, as in
/// chains. `false` for no rows. It costs a look at all rows for each of them.
pub(crate) fn have_many_consensus_pairs(rows: &[Cube]) -> bool {
    let step = rows.len() / MOST_COMPARED + 1;
    let mut pairs: usize = 0;
    let mut literals: usize = 0;
    let mut compared: usize = 0;
    for (number, row) in rows.iter().enumerate() {
        if number % step == 0 {
            pairs = pairs.saturating_add(count_conflicts_at_one(rows, row));
            literals = literals.saturating_add(row.literals());
            compared = compared.saturating_add(1);
        }
    }
    if literals <= compared.saturating_mul(2) {
        return pairs.saturating_mul(10) > literals.saturating_mul(9);
    }
    pairs > literals.saturating_mul(2)
}
