//! A cover of the least length with the fewest literals: covers with fewer are asked for until there is
//! none.

ghost use Rattle.std.specs.Prelude.{IfOk, MatchOption};
ghost use Rattle.covering.specs.Search.{HasFewer, IsBest, IsFewest};

use crate::bound::Cutoff;
use crate::choice::{Choice, total_cost};
use crate::search::UNLIMITED;
use crate::table::Table;
use std::alloc::{AllocError, Global};
use warm_start::WarmStart;

impl Table {
    /// A cover of no more than `columns` columns with fewer than `literals` literals; `None` if
    /// there is none.
    fn cover_with_fewer_literals(
        &self,
        alloc: Global,
        columns: usize,
        literals: u128,
        warm_start: &mut WarmStart,
    ) -> Result<Option<Vec<usize>>, AllocError>
        ensures { IfOk result (λ o. MatchOption o (IsFewest self.now columns literals)
            (λ v. HasFewer self.now columns literals v.items)) }
    {
        let Some(cost) = literals.checked_sub(1) else {
            return Ok(None);
        };
        let cutoff = Cutoff { columns, cost };
        let fewer = self.find_or_refute_in_stages(
            alloc,
            Choice::Literals,
            cutoff,
            warm_start,
            UNLIMITED,
        )?;
        Ok(fewer)
    }

    /// A cover of the least length with the fewest literals, from one of the least length.
    pub(crate) fn fewest_literals(
        &self,
        alloc: Global,
        cover: Vec<usize>,
        warm_start: &mut WarmStart,
    ) -> Result<Vec<usize>, AllocError>
        requires { IsBest Choice.First self.now cover.items }
        ensures { IfOk result (λ v. IsBest Choice.Literals self.now v.items) }
    {
        let columns = cover.len();
        let mut cover = cover;
        let mut low: u128 = 0;
        loop {
            let cost = total_cost(Choice::Literals, self.literals(), &cover);
            if cost <= low {
                return Ok(cover);
            }
            let target = self.literals_bound_hint(alloc, columns, cost, warm_start)?;
            warm_start.set_hint(alloc, &cover)?;
            let limit = target.max(low + 1).min(cost);
            match self.cover_with_fewer_literals(alloc, columns, limit, warm_start)? {
                None => low = limit,
                Some(fewer) => cover = fewer,
            }
        }
    }

    /// A hint, from row weights: a lower bound on the literals of covers of `columns` columns, of
    /// which one has this cost.
    fn literals_bound_hint(
        &self,
        alloc: Global,
        columns: usize,
        cost: u128,
        warm_start: &mut WarmStart,
    ) -> Result<u128, AllocError> {
        let cutoff = Cutoff { columns, cost };
        self.columns_within_cutoff(alloc, Choice::Literals, cutoff, warm_start)?;
        Ok(cost.saturating_sub(u128::from(warm_start.shortfall())))
    }
}
