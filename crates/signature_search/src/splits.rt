//! Whether a cube has a place outside a list of cubes, by splits.
//!
//! The region is split at an input of the shortest cubes that has most literals, and the half with
//! fewer cubes is looked at first (Davis, Logemann and Loveland, A machine program for
//! theorem-proving, 1962). A region is the set of the cubes that meet it, and what it has of
//! literals; their literals at the other inputs are open. A cube with one open literal forces the
//! opposite one; where none does, each literal is opposed that is open in one sense alone. Which
//! cubes a literal touches is known from a set for each literal, so a region costs some words for
//! each open input and set, and what its cubes force some words for each cube that loses a literal.

use crate::bits::{
    Literals, drop_bits_at, force_opposites, free_input, has_bit, has_bits, has_literal,
    has_literal_at, literals_at, narrow_at, push_copy, put_bit, put_literal, row_at, row_count,
    shared_count, tail, word_at,
};
use crate::counts::Counts;
use crate::occurrences::Occurrences;
use std::alloc::{AllocError, Global};

/// What is known of a region.
#[derive(Clone, Copy)]
pub(crate) enum State {
    /// It has a place outside the cubes.
    PlaceFound,
    /// It has none.
    Held,
    /// Nothing is forced, and it is to be split.
    Undecided,
}

/// The half of a region that was not looked at, by its literal.
#[derive(Clone, Copy)]
struct Half {
    input: usize,
    one: bool,
}

/// Puts the open literals of a cube, at inputs that are not taken, into `open`. Answers how many
/// these are.
fn note_open(row: &[Literals], taken: &[Literals], open: &mut [Literals]) -> u32 {
    let mut count: u32 = 0;
    for k in 0..open.len() {
        let left = literals_at(row, k).at(!literals_at(taken, k).inputs());
        count = count.wrapping_add(left.inputs().count_ones());
        open[k] = left;
    }
    count
}

/// The first literal of the row, by its input and whether it is 1; `None` if there is none.
fn first_literal(row: &[Literals]) -> Option<(usize, bool)> {
    for k in 0..row.len() {
        let (inputs, ones) = (row[k].inputs(), row[k].ones);
        if inputs != 0 {
            let at = inputs.trailing_zeros();
            let input = k.saturating_mul(64).saturating_add(at as usize);
            return Some((input, ones >> (at % 64) & 1 != 0));
        }
    }
    None
}

/// The search of a question, whose memory serves the next one too. What is last in `live` and in
/// `taken` is that of the last region.
#[derive(Drop)]
pub(crate) struct Splits {
    width: usize,
    cubes: Vec<Literals>,
    occurrences: Occurrences,
    // The literals that occur.
    occurring: Vec<Literals>,
    // The regions that are open: the half that is left, the cubes that meet it, and its literals.
    halves: Vec<Half>,
    live: Vec<u64>,
    taken: Vec<Literals>,
    // The literals that are forced in the last region and not taken yet.
    forced: Vec<Literals>,
    // Whether there is seen to be no place outside the cubes.
    is_held: bool,
    // How many cubes have each open literal.
    counts: Counts,
    // The open literals of a cube, and those of the shortest cubes.
    open: Vec<Literals>,
    shortest: Vec<Literals>,
}

impl Splits {
    /// Memory for questions about cubes of `width` words; no region is begun yet.
    pub(crate) fn new(alloc: Global, width: usize) -> Result<Splits, AllocError> {
        let occurring: Vec<Literals> = vec![in alloc; Literals::NONE; width]?;
        let forced: Vec<Literals> = vec![in alloc; Literals::NONE; width]?;
        let open: Vec<Literals> = vec![in alloc; Literals::NONE; width]?;
        let shortest: Vec<Literals> = vec![in alloc; Literals::NONE; width]?;
        Ok(Splits {
            width,
            cubes: Vec::new(alloc),
            occurrences: Occurrences::new(alloc),
            occurring,
            halves: Vec::new(alloc),
            live: Vec::new(alloc),
            taken: Vec::new(alloc),
            forced,
            is_held: false,
            counts: Counts::new(alloc, width)?,
            open,
            shortest,
        })
    }

    /// The region that was looked at last.
    pub(crate) fn last_region(&self) -> &[Literals] {
        tail(&self.taken, self.begin_of_taken())
    }

    // Where the literals of the last region begin.
    fn begin_of_taken(&self) -> usize {
        self.taken.len().saturating_sub(self.width)
    }

    // Where the cubes that meet the last region begin.
    fn begin_of_live(&self) -> usize {
        self.live.len().saturating_sub(self.occurrences.words())
    }

    /// Begins with this region, and the cubes that meet it, without the literals of the region.
    pub(crate) fn begin(
        &mut self,
        region: &[Literals],
        cubes: &[Literals],
    ) -> Result<(), AllocError> {
        self.taken.clear();
        self.taken.extend_from_slice(region)?;
        self.cubes.clear();
        self.cubes.extend_from_slice(cubes)?;
        self.occurrences.take(&self.cubes, self.width)?;
        self.halves.clear();
        self.halves.push(Half {
            input: 0,
            one: false,
        })?;
        self.live.clear();
        self.live.resize(self.occurrences.words(), 0)?;
        self.note_cubes();
        self.forced.fill(Literals::NONE);
        self.is_held = false;
        Ok(())
    }

    // Notes that all cubes meet the region, and the literals that occur.
    fn note_cubes(&mut self) {
        self.occurring.fill(Literals::NONE);
        for cube in 0..row_count(&self.cubes, self.width) {
            put_bit(&mut self.live, cube);
            let row = row_at(&self.cubes, cube.wrapping_mul(self.width), self.width);
            narrow_at(&mut self.occurring, 0, row);
        }
    }

    /// Whether the region that was begun has a place outside the cubes: the last region is then a
    /// part of it that meets none. `false` too if the budget, a number of regions, is spent.
    pub(crate) fn search(&mut self, budget: &mut u64) -> Result<bool, AllocError> {
        let regions = *budget;
        let mut state = self.decide();
        for _ in 0..=regions {
            let goes_on = match state {
                State::PlaceFound => return Ok(true),
                State::Held => self.backtrack(),
                State::Undecided => {
                    self.split()?;
                    true
                }
            };
            if !goes_on || *budget == 0 {
                return Ok(false);
            }
            *budget = budget.saturating_sub(1);
            state = self.decide();
        }
        Ok(false)
    }

    // Takes the opposites of pure literals in the last region, and what is forced then, until there
    // is none. Answers what is known of the region then.
    fn decide(&mut self) -> State {
        for _ in 0..=self.counts.inputs() {
            if self.is_held {
                return State::Held;
            }
            let begin = self.begin_of_live();
            if !has_bits(tail(&self.live, begin)) {
                return State::PlaceFound;
            }
            self.count_open_literals();
            if !has_literal(&self.forced) {
                return State::Undecided;
            }
            self.take_forced();
        }
        State::Held
    }

    // Counts the cubes that have each open literal, and forces the opposites of pure ones.
    fn count_open_literals(&mut self) {
        let begin = self.begin_of_taken();
        for k in 0..self.width {
            let taken = literals_at(&self.taken, begin.wrapping_add(k));
            let inputs = literals_at(&self.occurring, k).inputs() & !taken.inputs();
            self.count_inputs(k.wrapping_mul(64), inputs);
        }
    }

    // Counts the cubes that have the literals of these inputs, the first bit being that of the
    // input `first`.
    fn count_inputs(&mut self, first: usize, inputs: u64) {
        let mut rest = inputs;
        for _ in 0..inputs.count_ones() {
            self.count_input(first.wrapping_add(rest.trailing_zeros() as usize));
            rest &= rest.wrapping_sub(1);
        }
    }

    // Counts the cubes that have the literals of an input, and forces the opposite of a pure one.
    fn count_input(&mut self, input: usize) {
        let begin = self.begin_of_live();
        let live = tail(&self.live, begin);
        let zeros = shared_count(live, self.occurrences.of(input, false));
        let ones = shared_count(live, self.occurrences.of(input, true));
        self.counts.set(input, zeros, ones);
        if (zeros == 0) != (ones == 0) {
            put_literal(&mut self.forced, input, zeros != 0);
        }
    }

    // Takes what is forced in the last region, until nothing is or no place is left.
    fn take_forced(&mut self) {
        for _ in 0..=self.counts.inputs() {
            if self.is_held {
                return;
            }
            match first_literal(&self.forced) {
                Some((input, one)) => self.take_literal(input, one),
                None => return,
            }
        }
    }

    // Takes a literal in the last region: cubes with the opposite one no longer meet it, and those
    // with the same one have an open literal less.
    fn take_literal(&mut self, input: usize, one: bool) {
        let begin = self.begin_of_taken();
        free_input(&mut self.forced, input);
        put_literal(
            &mut self.taken,
            begin.saturating_mul(64).saturating_add(input),
            one,
        );
        let begin = self.begin_of_live();
        drop_bits_at(&mut self.live, begin, self.occurrences.of(input, !one));
        for k in 0..self.occurrences.words() {
            let live = word_at(&self.live, begin.wrapping_add(k));
            let shorter = live & word_at(self.occurrences.of(input, one), k);
            self.note_shorter_cubes(k.wrapping_mul(64), shorter);
        }
    }

    // Notes what these cubes force, the first bit being that of the cube `first`.
    fn note_shorter_cubes(&mut self, first: usize, cubes: u64) {
        let mut rest = cubes;
        for _ in 0..cubes.count_ones() {
            self.note_shorter_cube(first.wrapping_add(rest.trailing_zeros() as usize));
            rest &= rest.wrapping_sub(1);
        }
    }

    // Notes what a cube forces: the opposite of its open literal, if there is one alone; without
    // any it holds the region.
    fn note_shorter_cube(&mut self, cube: usize) {
        let begin = self.begin_of_taken();
        let taken = tail(&self.taken, begin);
        let row = row_at(&self.cubes, cube.saturating_mul(self.width), self.width);
        match note_open(row, taken, &mut self.open) {
            0 => self.is_held = true,
            1 => force_opposites(&self.open, &mut self.forced),
            _ => {}
        }
    }

    // Splits the last region, and goes on with the half that has fewer cubes; the other half is left
    // to that region.
    fn split(&mut self) -> Result<(), AllocError> {
        let input = self.splitting_input();
        let (zeros, ones) = self.counts.of(input);
        let one = ones < zeros;
        if let Some(half) = self.halves.last_mut() {
            half.input = input;
            half.one = !one;
        }
        self.halves.push(Half { input, one })?;
        let begin = self.begin_of_live();
        push_copy(&mut self.live, begin, self.occurrences.words())?;
        let begin = self.begin_of_taken();
        push_copy(&mut self.taken, begin, self.width)?;
        self.force_literal(input, one);
        Ok(())
    }

    // Takes a literal in the last region, and what it forces.
    fn force_literal(&mut self, input: usize, one: bool) {
        self.is_held = false;
        self.forced.fill(Literals::NONE);
        put_literal(&mut self.forced, input, one);
        self.take_forced();
    }

    // Leaves the last region, and goes on with the other half of the one before it. Whether there
    // is one.
    fn backtrack(&mut self) -> bool {
        self.halves.pop();
        let (live, taken) = (self.begin_of_live(), self.begin_of_taken());
        self.live.truncate(live);
        self.taken.truncate(taken);
        match self.halves.last() {
            Some(half) => {
                let (input, one) = (half.input, half.one);
                self.force_literal(input, one);
                true
            }
            None => false,
        }
    }

    // Notes the literals that are open in the cubes of the last region that have fewest.
    fn note_shortest(&mut self) {
        let (begin_of_live, begin_of_taken) = (self.begin_of_live(), self.begin_of_taken());
        let live = tail(&self.live, begin_of_live);
        let taken = tail(&self.taken, begin_of_taken);
        let mut least = u32::MAX;
        for cube in 0..row_count(&self.cubes, self.width) {
            if has_bit(live, cube) {
                let row = row_at(&self.cubes, cube.wrapping_mul(self.width), self.width);
                let count = note_open(row, taken, &mut self.open);
                if count < least {
                    least = count;
                    self.shortest.fill(Literals::NONE);
                }
                if count == least {
                    narrow_at(&mut self.shortest, 0, &self.open);
                }
            }
        }
    }

    // The input of the shortest cubes of the last region that has most literals, and among those
    // the one that has most of the rarer one.
    fn splitting_input(&mut self) -> usize {
        self.note_shortest();
        let mut best = 0;
        let mut most = (0, 0);
        for input in 0..self.counts.inputs() {
            if has_literal_at(&self.shortest, input) {
                let (zeros, ones) = self.counts.of(input);
                let here = (zeros.wrapping_add(ones), zeros.min(ones));
                if here >= most {
                    most = here;
                    best = input;
                }
            }
        }
        best
    }
}
