//! How much work a search did.

/// How much work it took to find a cover. No answer depends on these figures.
#[derive(Clone, Copy)]
pub struct Effort {
    /// The nodes of the search: tables that were looked at.
    pub tables: u64,
    /// How often it was asked whether there is a cover within a cutoff.
    pub questions: u64,
    /// How many bounds were computed, each by a round of subgradient steps or by the linear
    /// relaxation.
    pub rounds: u64,
}

impl Effort {
    /// No work yet.
    pub fn none() -> Effort {
        Effort {
            tables: 0,
            questions: 0,
            rounds: 0,
        }
    }
}
