//! Whether a cube has a place outside a list of cubes.
//!
//! The cubes are clauses: a place is outside a cube if it has the opposite of one of its literals.
//! Cubes of one literal force the opposite one, and literals that stand in one sense alone are
//! opposed too. Most questions are answered so, by a few passes over the cubes. Of what is left the
//! parts that former answers avoid are settled by these (`parts`), and the rest is split (`splits`).
//! The number of regions that are looked at is bounded by a budget.

use crate::bits::{
    Literals, few_in_word, force_opposites, has_literal, literals_at, meets, narrow_at, row_at,
    tail, word_at,
};
use crate::lists::{Outside, any_meets, push_cofactors};
use crate::parts::take_inputs_of_parts;
use crate::splits::{Splits, State};
use std::alloc::{AllocError, Global};

/// What the cubes show together.
#[derive(Drop)]
struct Notes {
    // The literals that occur.
    occurring: Vec<Literals>,
    // Whether a cube of one literal forced the opposite one.
    has_forced: bool,
    // Whether there is seen to be no place outside the cubes.
    is_held: bool,
}

/// The state of a question, whose memory serves the next one too.
#[derive(Drop)]
pub(crate) struct Question {
    width: usize,
    // The cube that is asked for, with what was taken so far, and then the cubes that meet it.
    rows: Vec<Literals>,
    // The literals that are forced.
    forced: Vec<Literals>,
    notes: Notes,
    // By input: the literal that it last had in an answer, where the cube asked for had none.
    remembered: Vec<Literals>,
    // The inputs of the parts that are not settled by it.
    unsettled: Vec<u64>,
    splits: Splits,
}

/// Writes the row that begins at `from` to `to`, without its literals at the inputs of `taken`, and
/// joins the others to `occurring`; answers how many these are: 0, 1, or more.
fn move_row_without(
    rows: &mut [Literals],
    from: usize,
    to: usize,
    taken: &[Literals],
    occurring: &mut [Literals],
) -> u32 {
    let mut few: u32 = 0;
    for k in 0..taken.len().min(occurring.len()) {
        let left = literals_at(rows, from.wrapping_add(k)).at(!taken[k].inputs());
        let at = to.wrapping_add(k);
        if at < rows.len() {
            rows[at] = left;
        }
        occurring[k] = occurring[k].meet(left);
        few = few.wrapping_add(few_in_word(left.inputs()));
    }
    few
}

/// Forces, at inputs where one literal alone occurs, the other one, and nothing else: the cubes
/// with the literal then do not hold the place.
fn force_pure_literals(occurring: &[Literals], forced: &mut [Literals]) {
    for k in 0..occurring.len().min(forced.len()) {
        let seen = occurring[k];
        forced[k].zeros = seen.ones & !seen.zeros;
        forced[k].ones = seen.zeros & !seen.ones;
    }
}

impl Notes {
    // Nothing noted yet, for cubes of `width` words.
    fn new(alloc: Global, width: usize) -> Result<Notes, AllocError> {
        let occurring: Vec<Literals> = vec![in alloc; Literals::NONE; width]?;
        Ok(Notes {
            occurring,
            has_forced: false,
            is_held: false,
        })
    }

    // Forgets all notes, before the cubes of a region are noted.
    fn begin(&mut self) {
        self.has_forced = false;
        self.is_held = false;
        self.occurring.fill(Literals::NONE);
    }

    // Writes the cube that begins at `from` to `to`, without its literals at forced inputs, and notes
    // the others. Whether it stays: without a literal it holds all places, which is noted; a cube of
    // one literal forces the opposite one, with which it shares no place.
    fn keeps(
        &mut self,
        rows: &mut [Literals],
        from: usize,
        to: usize,
        forced: &mut [Literals],
    ) -> bool {
        match move_row_without(rows, from, to, forced, &mut self.occurring) {
            0 => {
                self.is_held = true;
                false
            }
            1 => {
                force_opposites(row_at(rows, to, forced.len()), forced);
                self.has_forced = true;
                false
            }
            _ => true,
        }
    }
}

impl Question {
    /// Memory for questions about cubes of so many words, at least one; none is asked yet.
    pub(crate) fn new(alloc: Global, words: usize) -> Result<Question, AllocError> {
        let width = words.max(1);
        let forced: Vec<Literals> = vec![in alloc; Literals::NONE; width]?;
        let remembered: Vec<Literals> = vec![in alloc; Literals::NONE; width]?;
        let unsettled: Vec<u64> = vec![in alloc; 0; width]?;
        Ok(Question {
            width,
            rows: Vec::new(alloc),
            forced,
            notes: Notes::new(alloc, width)?,
            remembered,
            unsettled,
            splits: Splits::new(alloc, width)?,
        })
    }

    /// Whether the cube has a place outside the list: [`Question::answer`] is then a part of the
    /// cube that meets none of it. `false` too if the budget, a number of regions, is spent.
    pub(crate) fn ask(
        &mut self,
        inside: &[Literals],
        list: &[Literals],
        budget: &mut u64,
    ) -> Result<bool, AllocError> {
        self.guess(inside)?;
        if !any_meets(list, self.answer(), self.width) {
            return Ok(true);
        }
        if let Outside::Nothing = self.load_rows(inside, list)? {
            return Ok(false);
        }
        if *budget == 0 {
            return Ok(false);
        }
        *budget = budget.saturating_sub(1);
        let is_found = match self.propagate() {
            State::PlaceFound => true,
            State::Held => false,
            State::Undecided => self.search(budget)?,
        };
        if is_found {
            self.remember_answer(inside);
        }
        Ok(is_found)
    }

    // Whether a place is found by splits, which is then the answer. `false` too if the budget is
    // spent.
    fn search(&mut self, budget: &mut u64) -> Result<bool, AllocError> {
        self.settle_parts();
        let rows = self.rows.as_slice();
        self.splits
            .begin(row_at(rows, 0, self.width), tail(rows, self.width))?;
        let is_found = self.splits.search(budget)?;
        self.rows.clear();
        self.rows.extend_from_slice(self.splits.last_region())?;
        Ok(is_found)
    }

    /// Narrows the cube to the literals of former answers, as an answer that may be one: parts of a
    /// function that have no input in common are looked at once, and not for each cube of the
    /// others.
    pub(crate) fn guess(&mut self, inside: &[Literals]) -> Result<(), AllocError> {
        self.rows.clear();
        let (rows, remembered) = (&mut self.rows, self.remembered.as_slice());
        for k in 0..inside.len() {
            let kept = literals_at(remembered, k).at(!inside[k].inputs());
            rows.push(inside[k].meet(kept))?;
        }
        Ok(())
    }

    // Remembers the literals of the answer at inputs where the cube asked for has none.
    fn remember_answer(&mut self, inside: &[Literals]) {
        let answer = row_at(&self.rows, 0, self.width);
        let remembered: &mut [Literals] = &mut self.remembered;
        for k in 0..inside.len().min(remembered.len()) {
            let found = literals_at(answer, k).at(!inside[k].inputs());
            remembered[k] = found.meet(remembered[k].at(!found.inputs()));
        }
    }

    /// The cube that was found or guessed last. It is outside the list if `ask` answered `true`.
    pub(crate) fn answer(&self) -> &[Literals] {
        row_at(&self.rows, 0, self.width)
    }

    // Loads the cube, and the cubes of the list that meet it, without its literals, and looks once
    // for what these force. `Nothing` if one of them contains the cube.
    fn load_rows(&mut self, inside: &[Literals], list: &[Literals]) -> Result<Outside, AllocError> {
        self.rows.clear();
        self.rows.extend_from_slice(inside)?;
        if let Outside::Nothing = push_cofactors(&mut self.rows, list, inside, self.width)? {
            return Ok(Outside::Nothing);
        }
        self.forced.fill(Literals::NONE);
        self.take_forced_literals();
        Ok(Outside::Unknown)
    }

    // Takes the literals of former answers at the inputs of the parts of the cubes that avoid these: only
    // the other parts are searched.
    fn settle_parts(&mut self) {
        let cubes = tail(&self.rows, self.width);
        if !take_inputs_of_parts(cubes, &self.remembered, &mut self.unsettled) {
            return;
        }
        for k in 0..self.forced.len() {
            let open = !(word_at(&self.unsettled, k) | literals_at(&self.rows, k).inputs());
            self.forced[k] = literals_at(&self.remembered, k).at(open);
        }
        self.take_forced_literals();
    }

    // Takes what is forced, until nothing is. Answers what is known then.
    fn propagate(&mut self) -> State {
        for _ in 0..=self.width.saturating_mul(64) {
            if self.notes.is_held {
                return State::Held;
            }
            if self.rows.len() <= self.width {
                return State::PlaceFound;
            }
            if !has_literal(&self.forced) {
                return State::Undecided;
            }
            self.take_forced_literals();
        }
        State::Held
    }

    // Narrows the cube to the forced literals: cubes that have one of their opposites drop out. What
    // a cube forces is taken from the next one on, and then once more from all of them. Where none
    // forces a literal, pure ones do.
    fn take_forced_literals(&mut self) {
        let width = self.width;
        self.notes.begin();
        let count = self.rows.len() / width.max(1);
        let mut from = 0;
        let mut to = width;
        for _ in 1..count {
            from = width.saturating_add(from);
            if self.notes.is_held {
                break;
            }
            if meets(row_at(&self.rows, from, width), &self.forced)
                && self.notes.keeps(&mut self.rows, from, to, &mut self.forced)
            {
                to = width.saturating_add(to);
            }
        }
        self.rows.truncate(to);
        narrow_at(&mut self.rows, 0, &self.forced);
        if !self.notes.has_forced {
            force_pure_literals(&self.notes.occurring, &mut self.forced);
        }
    }
}
