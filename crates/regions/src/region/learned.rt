//! Questions to a search that learns, and the check of its answers.
//!
//! To a search the rows of one output are nogoods, and a region is a list of assumptions. It learns
//! implicants of the rows, each with hints: the rows and earlier implicants that show it. The check
//! begins with the implicant as a region. Each hint but the last has one open literal in what is
//! left of the region, and so holds a half of it; the last holds the rest (reverse unit propagation
//! by hints, as in Cruz-Filipe, Heule, Hunt, Kaufmann and Schneider-Kamp, Efficient certified RAT
//! verification, 2017). The search has no contract: its answers count only if this check passes.
ghost use Rattle.std.specs.Prelude.{◌≡◌, ◌<◌, ◌||◌, [], IsTrue, IfOk, IfSome, IfNone, OnOk, All, length};
ghost use Rattle.std.specs.List.{list_any};
ghost use Rattle.cube.specs.Cube.{HasSize, Place, SameSize, IsSubset, holds};
ghost use Rattle.rows.specs.Places.{places, behind};
ghost use Rattle.regions.specs.Reason.{AreKnown, AreRowsWithLearned, Shows, ShowsAndLearns};

use crate::region::passes::{passes_before_search, passes_for_second_try};
use cube::{Cube, Shape, Symbol};
use rows::{
    clone_referents, cube_of_output, first_open_literal, is_disjoint_from_all, literal_of_value,
    opposite,
};
use sat_search::{Answer, Limits, Refutation, Search};
use std::alloc::{AllocError, Global};

// If the row has one open literal in the region and all of its outputs, takes the half that the row
// holds from the region. Answers whether it did; if not, the region may be changed, and says
// nothing.
fn remove_held_half(region: &mut Cube, row: &Cube) -> bool
    requires { SameSize row.now region.old }
    ensures size { SameSize region.new region.old }
    ensures held { IsTrue result
        → IsSubset (holds region.old) (λ p. holds row.now p || holds region.new p) }
{
    let shape = region.shape();
    let (i, literal) = first_open_literal(row, region);
    if i >= shape.inputs() || literal == Symbol::Dash {
        return false;
    }
    region.set_symbol(i, literal);
    let held = row.contains(region);
    region.set_symbol(i, opposite(literal));
    held
}

// Whether the hints, indices of known cubes, show in their order that these hold each place of the
// cube; `false` if one is past the end.
fn holds_by_hints(known: &[Cube], hints: &[u32], cube: &Cube) -> Result<bool, AllocError>
    requires { All (λ d. SameSize d cube.now) known.now }
    ensures { IfOk result
        (λ held. IsTrue held → IsSubset (holds cube.now) (places known.now)) }
{
    let mut region = cube.try_clone()?;
    for hint in hints {
        let Some(row) = known.get(*hint as usize) else {
            return Ok(false);
        };
        if row.contains(&region) {
            return Ok(true);
        }
        if !remove_held_half(&mut region, row) {
            return Ok(false);
        }
    }
    Ok(false)
}

// The cube of one output with these literals, numbered as in `sat_search`: literal `2 i` is `1` at
// input `i`, and `2 i + 1` is `0` there. `None` if there is no such output; literals past the last
// input are left out.
fn cube_of_literals(
    alloc: Global,
    shape: Shape,
    output: usize,
    literals: &[u32],
) -> Result<Option<Cube>, AllocError>
    ensures size { IfOk result (λ found. IfSome found (λ c. HasSize c shape)) }
    ensures output { IfOk result
        (λ found. IfSome found (λ c. IsTrue (list_any (λ b. b) c.outputs))) }
{
    if output >= shape.outputs() {
        return Ok(None);
    }
    let mut cube = cube_of_output(alloc, shape, output)?;
    for literal in literals {
        let i = *literal as usize / 2;
        if i < shape.inputs() {
            cube.set_symbol(i, literal_of_value(*literal % 2 == 0));
        }
    }
    Ok(Some(cube))
}

// Adds the cube with these literals to the known cubes, if the hints show that they hold it.
// Answers whether it was added.
fn accept_nogood(
    alloc: Global,
    shape: Shape,
    output: usize,
    known: &mut Vec<Cube>,
    literals: &[u32],
    hints: &[u32],
) -> Result<bool, AllocError>
    requires { All (λ d. HasSize d shape) known.old.items }
    ensures sizes { OnOk result (All (λ d. HasSize d shape) known.new.items) }
    ensures within { OnOk result
        (IsSubset (places known.new.items) (places known.old.items)) }
{
    let Some(cube) = cube_of_literals(alloc, shape, output, literals)? else {
        return Ok(false);
    };
    if !holds_by_hints(known, hints, &cube)? {
        return Ok(false);
    }
    known.push(cube)?;
    Ok(true)
}

// Adds the nogoods of a refutation to the known cubes, one by one while their hints show them.
// Answers whether all were added.
fn accept_refutation(
    alloc: Global,
    shape: Shape,
    output: usize,
    known: &mut Vec<Cube>,
    refutation: &Refutation,
) -> Result<bool, AllocError>
    requires { All (λ d. HasSize d shape) known.old.items }
    ensures sizes { OnOk result (All (λ d. HasSize d shape) known.new.items) }
    ensures within { OnOk result
        (IsSubset (places known.new.items) (places known.old.items)) }
{
    for k in 0..refutation.len() {
        let (literals, hints) = (refutation.nogood(k), refutation.hints(k));
        if !accept_nogood(alloc, shape, output, known, literals, hints)? {
            return Ok(false);
        }
    }
    Ok(true)
}

// Whether the known cube at the index contains the region; `false` past the end.
fn known_cube_contains(known: &[Cube], index: usize, region: &Cube) -> bool
    requires { All (λ d. SameSize d region.now) known.now }
    ensures { IsTrue result → IsSubset (holds region.now) (places known.now) }
{
    match known.get(index) {
        Some(cube) => cube.contains(region),
        None => false,
    }
}

/// What splits, or the checked answer of a search, show of a region.
#[derive(Drop)]
pub(crate) enum Shown {
    /// The rows hold it.
    Held,
    /// The rows hold no place of this part of it.
    LeftOut(Cube),
    /// Nothing.
    Nothing,
}

// `LeftOut` with the point of these literals, as a cube of this output, if it lies in the region
// and in no row; else `Nothing`.
fn point_outside(
    alloc: Global,
    rows: &[&Cube],
    region: &Cube,
    output: usize,
    literals: &[u32],
) -> Result<Shown, AllocError>
    requires { All (λ d. SameSize d.now region.now) rows.now }
    ensures { IfOk result (Shows region.now rows.now) }
{
    let Some(point) = cube_of_literals(alloc, region.shape(), output, literals)? else {
        return Ok(Shown::Nothing);
    };
    if region.contains(&point) && is_disjoint_from_all(&point, rows) {
        return Ok(Shown::LeftOut(point));
    }
    Ok(Shown::Nothing)
}

/// What was learned of some rows.
///
/// It takes no memory before a search is asked. Then it has the rows once more, a search for each
/// output that was asked, and the implicants that answers needed. All of it together comes to 2^27
/// numbers of four bytes at most, half a gigabyte, and with room to grow to a gigabyte and a half.
/// A question that would take more has no answer here.
pub(crate) struct Learned {
    // Copies of the rows, once a search is asked, and then cubes that they hold.
    pub(crate) known: Vec<Cube>,
    // For each output the search among the rows that have it, once it was asked.
    searches: Vec<Option<Search>>,
    // How many rows splits may still look at in their first try.
    pub(crate) rows_left: u64,
    // How many rows second tries looked at.
    rows_looked_at: u64,
    // Whether a question was asked.
    is_asked: bool,
}

// Written out, so that where this ends a proof has one call, and not one for each of the lists.
impl Drop for Learned {
    fn drop(self) {
        let Learned {
            known: _,
            searches: _,
            rows_left: _,
            rows_looked_at: _,
            is_asked: _,
        } = self;
    }
}

// A search looks at no more than this many watches for one question, so that it ends.
const STEPS: u64 = 1 << 36;

// All searches and implicants of one list together keep at most this many numbers of four bytes:
// half a gigabyte.
const SIZE: usize = 1 << 27;

impl Learned {
    /// Nothing, yet.
    pub(crate) fn new(alloc: Global) -> Learned
        ensures { result.known.items ≡ [] }
    {
        Learned {
            known: Vec::new(alloc),
            searches: Vec::new(alloc),
            rows_left: 0,
            rows_looked_at: 0,
            is_asked: false,
        }
    }

    /// Lets splits look at more rows, for one more question about the rows: for the first question
    /// some passes over them, and a pass for each later one.
    pub(crate) fn raise_rows_left(&mut self, rows: &[&Cube])
        ensures { self.new.known ≡ self.old.known }
    {
        let passes = if self.is_asked {
            1
        } else {
            passes_before_search(rows)
        };
        let more = passes.saturating_mul(rows.len() as u64);
        self.rows_left = self.rows_left.saturating_add(more);
        self.is_asked = true;
    }

    /// How many rows splits may look at in a second try, before the first search is built, beside those
    /// that second tries looked at before; 0 once a search was asked.
    pub(crate) fn rows_for_second_try(&self, rows: &[&Cube], region: &Cube) -> u64 {
        if !self.known.is_empty() {
            return 0;
        }
        let most = passes_for_second_try(rows, region).saturating_mul(rows.len() as u64);
        most.saturating_sub(self.rows_looked_at)
    }

    /// Notes how many rows a second try looked at.
    pub(crate) fn note_second_try(&mut self, rows: u64)
        ensures { self.new.known ≡ self.old.known }
    {
        self.rows_looked_at = self.rows_looked_at.saturating_add(rows);
    }

    // Copies the rows, and builds the search among the rows of the output, unless both are there.
    fn prepare_search(
        &mut self,
        alloc: Global,
        rows: &[&Cube],
        output: usize,
        shape: Shape,
    ) -> Result<(), AllocError>
        requires sizes { All (λ d. HasSize d.now shape) rows.now }
        requires known { AreKnown shape self.old.known.items (behind rows.now) }
        ensures { OnOk result (AreKnown shape self.new.known.items (behind rows.now)) }
    {
        if self.known.is_empty() {
            self.known = clone_referents(alloc, rows)?;
        }
        build_search_if_none(alloc, &mut self.searches, rows, output, shape.inputs())?;
        Ok(())
    }

    // How many numbers of four bytes all searches and implicants keep.
    fn size(&self) -> usize {
        let each = match self.known.first() {
            Some(cube) => numbers_per_cube(cube.shape()),
            None => 0,
        };
        let mut size = self.known.len().saturating_mul(each);
        for search in &self.searches {
            if let Some(search) = search {
                size = size.saturating_add(search.size());
            }
        }
        size
    }

    // Asks the search of the output for the region; `Unknown` past its limits, or if it was not
    // built. The answer is not checked yet.
    fn ask_search(
        &mut self,
        alloc: Global,
        output: usize,
        region: &Cube,
    ) -> Result<Answer, AllocError>
        ensures { OnOk result (self.new.known ≡ self.old.known) }
    {
        let name = u32::try_from(self.known.len()).unwrap_or(u32::MAX);
        let room = SIZE.saturating_sub(self.size());
        let literals = literals_of(alloc, region)?;
        match self.searches.get_mut(output) {
            Some(Some(search)) => {
                let limits = Limits {
                    steps: STEPS,
                    size: search.size().saturating_add(room),
                };
                search.ask(&literals, limits, name)
            }
            _ => Ok(Answer::Unknown),
        }
    }
}

// How many numbers of four bytes a cube of the shape takes.
fn numbers_per_cube(shape: Shape) -> usize {
    16usize
        .saturating_add(shape.inputs() / 16)
        .saturating_add(shape.outputs() / 32)
}

// The literals of a cube by their numbers in `sat_search`: `1` at input `i` is `2 i`, and `0` there
// is one more.
fn literals_of(alloc: Global, cube: &Cube) -> Result<Vec<u32>, AllocError> {
    let mut literals = Vec::new(alloc);
    for i in 0..cube.shape().inputs() {
        let symbol = cube.symbol(i);
        if symbol != Symbol::Dash {
            let one = u32::try_from(i).unwrap_or(0).saturating_mul(2);
            literals.push(one.saturating_add((symbol == Symbol::Zero) as u32))?;
        }
    }
    Ok(literals)
}

// A search among the rows that have the output. Each nogood has the index of its row as its name.
fn build_search(
    alloc: Global,
    rows: &[&Cube],
    output: usize,
    inputs: usize,
) -> Result<Search, AllocError> {
    let mut search = Search::new(alloc, inputs)?;
    for k in 0..rows.len() {
        let row = rows[k];
        if output < row.shape().outputs() && row.output(output) {
            let literals = literals_of(alloc, row)?;
            search.add_nogood(&literals, u32::try_from(k).unwrap_or(u32::MAX))?;
        }
    }
    search.begin()?;
    Ok(search)
}

// Builds a search among the rows of the output, unless there is one.
fn build_search_if_none(
    alloc: Global,
    searches: &mut Vec<Option<Search>>,
    rows: &[&Cube],
    output: usize,
    inputs: usize,
) -> Result<(), AllocError> {
    for _ in searches.len()..=output {
        searches.push(None)?;
    }
    if let Some(slot) = searches.get_mut(output) {
        if slot.is_none() {
            *slot = Some(build_search(alloc, rows, output, inputs)?);
        }
    }
    Ok(())
}

// What the answer of a search shows of the region, once it is checked; `Nothing` if the check
// fails. The nogoods that their hints show are added to the known cubes.
fn shown_by_answer(
    alloc: Global,
    rows: &[&Cube],
    known: &mut Vec<Cube>,
    output: usize,
    region: &Cube,
    answer: &Answer,
) -> Result<Shown, AllocError>
    requires { AreRowsWithLearned region.now rows.now known.old.items }
    ensures { IfOk result (ShowsAndLearns region.now rows.now known.new.items) }
{
    match answer {
        Answer::Unknown => Ok(Shown::Nothing),
        Answer::Point(point) => point_outside(alloc, rows, region, output, point),
        Answer::Refutation(refutation) => {
            if accept_refutation(alloc, region.shape(), output, known, refutation)?
                && known_cube_contains(known, refutation.last() as usize, region)
            {
                Ok(Shown::Held)
            } else {
                Ok(Shown::Nothing)
            }
        }
    }
}

// The places of a region with this output, as a cube, if the region has the output.
fn part_at_output(alloc: Global, region: &Cube, output: usize) -> Result<Option<Cube>, AllocError>
    requires { output < length region.now.outputs }
    ensures size { IfOk result (λ found. IfSome found (λ part. SameSize part region.now)) }
    ensures within { IfOk result
        (λ found. IfSome found (λ part. IsSubset (holds part) (holds region.now))) }
    ensures whole { IfOk result (λ found. IfSome found (λ part. (p : Place) → p.output ≡ output
        → IsTrue (holds region.now p) → IsTrue (holds part p))) }
    ensures none { IfOk result (λ found. IfNone found ((p : Place) → p.output ≡ output
        → IsTrue (holds region.now p) → ⊥)) }
{
    let shape = region.shape();
    if !region.output(output) {
        return Ok(None);
    }
    let all = cube_of_output(alloc, shape, output)?;
    region.meet(&all)
}

/// What a search shows of a part of the region, which has one output. The search, and the implicants that
/// its answer needed, are kept in `learned`.
fn shown_of_part(
    alloc: Global,
    rows: &[&Cube],
    learned: &mut Learned,
    output: usize,
    part: &Cube,
) -> Result<Shown, AllocError>
    requires { AreRowsWithLearned part.now rows.now learned.old.known.items }
    ensures { IfOk result (ShowsAndLearns part.now rows.now learned.new.known.items) }
{
    learned.prepare_search(alloc, rows, output, part.shape())?;
    let answer = learned.ask_search(alloc, output, part)?;
    shown_by_answer(alloc, rows, &mut learned.known, output, part, &answer)
}

/// What searches show of the region, output by output: `Held` if the part at each is shown to be
/// held, else what is shown at the first output where it is not. The searches that were built, and
/// the implicants that their answers needed, are kept in `learned`.
pub(crate) fn shown_by_search(
    alloc: Global,
    rows: &[&Cube],
    learned: &mut Learned,
    region: &Cube,
) -> Result<Shown, AllocError>
    requires { AreRowsWithLearned region.now rows.now learned.old.known.items }
    ensures { IfOk result (ShowsAndLearns region.now rows.now learned.new.known.items) }
{
    for output in 0..region.shape().outputs() {
        let Some(part) = part_at_output(alloc, region, output)? else {
            continue;
        };
        match shown_of_part(alloc, rows, learned, output, &part)? {
            Shown::Held => (),
            Shown::LeftOut(point) => return Ok(Shown::LeftOut(point)),
            Shown::Nothing => return Ok(Shown::Nothing),
        }
    }
    Ok(Shown::Held)
}
