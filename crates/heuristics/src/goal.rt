//! The goal: how many columns and what cost a cover may have.

/// What a cover may have beside the columns that are taken already.
#[derive(Clone, Copy)]
pub struct Goal {
    /// How many further columns, at most.
    pub columns: i64,
    /// Their cost together, at most.
    pub cost: i64,
}
