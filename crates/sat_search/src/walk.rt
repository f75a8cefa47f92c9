//! A walk from point to point, towards one at which no clause is false.
//!
//! Of a clause that is false it flips a variable, the likelier the fewer clauses that makes false
//! (Balint and Schoening, Choosing probability distributions for stochastic local search and the
//! role of make versus break, 2012). Where many short clauses leave few points, a walk comes to one
//! long before a search that learns. Where there is no point it is of no use: so it begins once a
//! search took long, and takes a small part of the steps.

use crate::clauses::Clauses;
use crate::lists::Lists;
use crate::numbers::{NONE, add, put, saturating_u32};
use crate::search::Search;
use std::alloc::{AllocError, Global};

// `WEIGHTS[b]` is proportional to (b + 0.9)^-2.3, with b the number of clauses that a flip makes
// false: how likely the flip is.
const WEIGHTS: [u64; 12] = [
    83500, 14975, 5662, 2864, 1698, 1111, 777, 571, 436, 343, 277, 228,
];

// The first walk is due after this many steps for each given clause.
const FIRST_WALK: u64 = 64;

// A walk may take the steps so far, divided by this number. The next walk is due after twice the
// steps, so all walks together take an eighth.
const WALK_PART: u64 = 16;

/// At which number of steps the next walk is due, and the seed of its choices.
#[derive(Clone, Copy)]
pub(crate) struct Walks {
    next: u64,
    seed: u64,
}

impl Walks {
    /// No walk so far.
    pub(crate) fn new() -> Walks {
        Walks {
            next: 0,
            seed: 0x9E3779B97F4A7C15,
        }
    }
}

// The number after `seed` in a fixed sequence, 0 after 0 (Marsaglia, Xorshift RNGs, 2003).
fn next_random(seed: u64) -> u64 {
    let a = seed ^ (seed << 13);
    let b = a ^ (a >> 7);
    b ^ (b << 17)
}

// A variable at the point of a walk.
#[derive(Clone, Copy)]
struct Variable {
    // Whether it is false.
    negated: bool,
    // Whether it keeps its value.
    fixed: bool,
    // In how many clauses its literal alone is true.
    breaks: u32,
}

// A given clause at the point of a walk.
#[derive(Clone, Copy)]
struct State {
    // How many of its literals are true.
    true_count: u32,
    // The exclusive or of its true literals, the literal itself if there is one.
    xor: u32,
    // Its index among the clauses that are false, or [`NONE`].
    position: u32,
}

// A clause that is not there.
const NO_STATE: State = State {
    true_count: NONE,
    xor: NONE,
    position: NONE,
};

/// A point, and what the given clauses are there.
struct Walk {
    // By literal: the clauses that have it.
    by_literal: Lists,
    variables: Vec<Variable>,
    states: Vec<State>,
    // The clauses that are false.
    false_clauses: Vec<u32>,
    seed: u64,
    // How many clauses were looked at.
    steps: u64,
}

// As for a search.
impl Drop for Walk {
    fn drop(self) {
        let Walk {
            by_literal: _,
            variables: _,
            states: _,
            false_clauses: _,
            seed: _,
            steps: _,
        } = self;
    }
}

// By literal, the given clauses that have it, in their order.
fn clauses_by_literal(
    alloc: Global,
    clauses: &Clauses,
    literals: usize,
) -> Result<Lists, AllocError> {
    let mut lists: Vec<Vec<u32>> = Vec::new(alloc);
    for _ in 0..literals {
        lists.push(Vec::new(alloc))?;
    }
    for clause in 0..clauses.given {
        add_clause(&mut lists, clauses.literals_of(clause), clause)?;
    }
    flatten(alloc, &lists)
}

// Adds a clause to the lists of its literals.
fn add_clause(lists: &mut Vec<Vec<u32>>, literals: &[u32], clause: u32) -> Result<(), AllocError> {
    for literal in literals {
        if let Some(list) = lists.get_mut(*literal as usize) {
            list.push(clause)?;
        }
    }
    Ok(())
}

// The lists, in one piece of memory.
fn flatten(alloc: Global, lists: &[Vec<u32>]) -> Result<Lists, AllocError> {
    let mut all = Lists::new(alloc);
    for list in lists {
        all.push_list(list)?;
    }
    Ok(all)
}

impl Walk {
    // A walk from this point.
    fn new(
        alloc: Global,
        clauses: &Clauses,
        variables: Vec<Variable>,
        seed: u64,
    ) -> Result<Walk, AllocError> {
        let given = clauses.given as usize;
        let mut walk = Walk {
            by_literal: clauses_by_literal(alloc, clauses, variables.len().saturating_mul(2))?,
            states: vec![in alloc; NO_STATE; given]?,
            false_clauses: Vec::with_capacity(alloc, given)?,
            variables,
            seed,
            steps: 0,
        };
        for clause in 0..clauses.given {
            walk.count_true(clauses.literals_of(clause), clause);
        }
        Ok(walk)
    }

    // Whether a literal is true.
    fn is_true(&self, literal: u32) -> bool {
        let index = (literal / 2) as usize;
        index < self.variables.len() && self.variables[index].negated == (literal % 2 == 1)
    }

    // The state of a clause, `NO_STATE` if it is not there.
    fn state_of(&self, clause: u32) -> State {
        let index = clause as usize;
        if index < self.states.len() {
            self.states[index]
        } else {
            NO_STATE
        }
    }

    // Notes the state of a clause; does nothing past the end.
    fn put_state(&mut self, clause: u32, state: State) {
        let index = clause as usize;
        if index < self.states.len() {
            self.states[index] = state;
        }
    }

    // Counts more clauses in which a variable's literal alone is true; the largest number takes one
    // away.
    fn add_breaks(&mut self, variable: u32, more: u32) {
        let index = variable as usize;
        if index < self.variables.len() {
            self.variables[index].breaks = self.variables[index].breaks.wrapping_add(more);
        }
    }

    // Notes the state of a clause of these literals, before the first flip, and adds it to those
    // that are false if it is.
    fn count_true(&mut self, literals: &[u32], clause: u32) {
        let mut xor = 0;
        let mut true_count: u32 = 0;
        for literal in literals {
            if self.is_true(*literal) {
                xor ^= *literal;
                true_count = true_count.saturating_add(1);
            }
        }
        let mut position = NONE;
        if true_count == 0 {
            position = self.add_false_clause(clause);
        }
        if true_count == 1 {
            self.add_breaks(xor / 2, 1);
        }
        let state = State {
            true_count,
            xor,
            position,
        };
        self.put_state(clause, state);
    }

    // Adds a clause to those that are false, and answers its index there.
    fn add_false_clause(&mut self, clause: u32) -> u32 {
        let position = saturating_u32(self.false_clauses.len());
        add(&mut self.false_clauses, clause);
        position
    }

    // Takes a clause out of those that are false, where it has this index.
    fn remove_false_clause(&mut self, clause: u32, position: u32) {
        if let Some(last) = self.false_clauses.pop() {
            if last != clause {
                put(&mut self.false_clauses, position, last);
                let mut state = self.state_of(last);
                state.position = position;
                self.put_state(last, state);
            }
        }
    }

    // Counts a literal as true in its clauses.
    fn make_true(&mut self, literal: u32) {
        let (begin, end) = self.by_literal.bounds(literal);
        for index in begin..end {
            let clause = self.by_literal.number(index);
            let mut state = self.state_of(clause);
            match state.true_count {
                0 => {
                    self.remove_false_clause(clause, state.position);
                    self.add_breaks(literal / 2, 1);
                }
                1 => self.add_breaks(state.xor / 2, u32::MAX),
                _ => (),
            }
            state.true_count = state.true_count.wrapping_add(1);
            state.xor ^= literal;
            state.position = NONE;
            self.put_state(clause, state);
        }
        self.steps = self.steps.saturating_add(end.saturating_sub(begin) as u64);
    }

    // Counts a literal as false in its clauses.
    fn make_false(&mut self, literal: u32) {
        let (begin, end) = self.by_literal.bounds(literal);
        for index in begin..end {
            let clause = self.by_literal.number(index);
            let mut state = self.state_of(clause);
            state.xor ^= literal;
            match state.true_count {
                1 => {
                    state.position = self.add_false_clause(clause);
                    self.add_breaks(literal / 2, u32::MAX);
                }
                2 => self.add_breaks(state.xor / 2, 1),
                _ => (),
            }
            state.true_count = state.true_count.wrapping_sub(1);
            self.put_state(clause, state);
        }
        self.steps = self.steps.saturating_add(end.saturating_sub(begin) as u64);
    }

    // Makes a literal true that is false.
    fn flip(&mut self, literal: u32) {
        let index = (literal / 2) as usize;
        if index < self.variables.len() {
            self.variables[index].negated = literal % 2 == 1;
        }
        self.make_true(literal);
        self.make_false(literal ^ 1);
    }

    // How likely the literal is made true, in proportion; 0 if its variable is fixed or not there.
    fn flip_weight(&self, literal: u32) -> u64 {
        let index = (literal / 2) as usize;
        if index >= self.variables.len() || self.variables[index].fixed {
            return 0;
        }
        WEIGHTS[(self.variables[index].breaks as usize).min(11)]
    }

    // A literal of the clause to make true, at random by its weight; none if all are fixed.
    fn choose_literal(&mut self, literals: &[u32]) -> Option<u32> {
        let mut total: u64 = 0;
        for literal in literals {
            total = total.saturating_add(self.flip_weight(*literal));
        }
        if total == 0 {
            return None;
        }
        self.seed = next_random(self.seed);
        Some(self.literal_at_weight(literals, self.seed % total))
    }

    // The first literal at which the sum of the weights is more than `mark`, [`NONE`] if there is
    // none.
    fn literal_at_weight(&self, literals: &[u32], mark: u64) -> u32 {
        let mut left = mark;
        for literal in literals {
            let weight = self.flip_weight(*literal);
            if left < weight {
                return *literal;
            }
            left -= weight;
        }
        NONE
    }

    // A clause that is false, at random, or [`NONE`].
    fn random_false_clause(&mut self) -> u32 {
        self.seed = next_random(self.seed);
        let count = self.false_clauses.len() as u64;
        if count == 0 {
            return NONE;
        }
        match self.false_clauses.get((self.seed % count) as usize) {
            Some(clause) => *clause,
            None => NONE,
        }
    }

    // Flips variables until no clause is false, this many clauses were looked at, or a false one
    // has fixed variables alone. Whether a point is found at which no clause is false.
    fn run(&mut self, clauses: &Clauses, steps: u64) -> bool {
        for _ in 0..steps {
            if self.false_clauses.is_empty() {
                return true;
            }
            if self.steps > steps {
                break;
            }
            let clause = self.random_false_clause();
            match self.choose_literal(clauses.literals_of(clause)) {
                Some(literal) => self.flip(literal),
                None => break,
            }
        }
        false
    }

    // The literals of all variables at the point, in the order of the variables.
    fn literals(&self, alloc: Global) -> Result<Vec<u32>, AllocError> {
        let mut literals = Vec::with_capacity(alloc, self.variables.len())?;
        for k in 0..self.variables.len() {
            let literal = saturating_u32(k).saturating_mul(2);
            let negated = self.variables[k].negated as u32;
            add(&mut literals, literal.saturating_add(negated));
        }
        Ok(literals)
    }
}

// Fixes the variables of these literals, where these are true.
fn fix(variables: &mut Vec<Variable>, literals: &[u32]) {
    for literal in literals {
        let index = (*literal / 2) as usize;
        if index < variables.len() {
            variables[index].negated = *literal % 2 == 1;
            variables[index].fixed = true;
        }
    }
}

impl Search {
    // Whether a walk is due.
    fn is_walk_due(&self) -> bool {
        let first = FIRST_WALK.saturating_mul(self.clauses.given as u64);
        self.steps > self.walks.next.max(first)
    }

    // The point where the walk starts: each variable as it is set or assumed, and so it stays, else
    // as it was set last.
    fn starting_point(&self, assumptions: &[u32]) -> Result<Vec<Variable>, AllocError> {
        let phases: &[bool] = &self.assignment.phases;
        let mut variables = Vec::with_capacity(self.alloc, phases.len())?;
        for negated in phases {
            variables.push(Variable {
                negated: *negated,
                fixed: false,
                breaks: 0,
            })?;
        }
        fix(&mut variables, &self.assignment.trail);
        fix(&mut variables, assumptions);
        Ok(variables)
    }

    /// Walks, if that is due and no literal is decided. The literals of all variables at a point
    /// that is found; `None` if none is.
    pub(crate) fn walk(&mut self, assumptions: &[u32]) -> Result<Option<Vec<u32>>, AllocError> {
        if self.assignment.current_level() != 0 || !self.is_walk_due() {
            return Ok(None);
        }
        self.walks.next = self.steps.saturating_mul(2);
        let start = self.starting_point(assumptions)?;
        let mut walk = Walk::new(self.alloc, &self.clauses, start, self.walks.seed)?;
        let found = walk.run(&self.clauses, self.steps / WALK_PART);
        self.walks.seed = walk.seed;
        self.steps = self.steps.saturating_add(walk.steps);
        if !found {
            return Ok(None);
        }
        Ok(Some(walk.literals(self.alloc)?))
    }
}
