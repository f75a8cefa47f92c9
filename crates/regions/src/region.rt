//! Whether a list holds a region, with the reason: an implicant of the list that contains the
//! region, or a part of the region that meets no row.
//!
//! A region is a cube. A row that contains it is such an implicant. Else the region is split at an
//! input, and each half is asked for by itself. If the cube for one half has no literal at that
//! input, it holds the whole region, and the other half is never asked for: so a split that had no
//! part in an answer is undone at once, wherever it was made (Marques-Silva and Sakallah 1996).
//! Else the answer is the consensus of both cubes, which has `-` at the input and elsewhere the
//! literals of both (Brayton et al. 1984). A row with one open literal and all outputs of the
//! region contains one of the halves, so that the other decides (Davis, Logemann and Loveland
//! 1962). If a row has no open literal, the region is asked for without the outputs of the row.
//!
//! Each question looks at the rows once. The halves of a region look first at the rows alone that
//! had fewest open literals in it, and at all rows that meet the region once those have more.
//!
//! Splits may look at a limited number of rows. Once that is spent they may begin again, part by part
//! (`output_parts`); then `part_left_out_by_splits_or_search` asks a search that learns (`learned`).
pub(crate) mod learned;
pub(crate) mod nearest_first;
pub(crate) mod nearest_rows;
pub(crate) mod output_parts;
pub(crate) mod passes;
pub(crate) mod step_hint;

ghost use Rattle.std.specs.Prelude.{◌≡◌, ◌≢◌, ℕ, ◌+◌, ◌≤◌, ◌<◌, false, IsTrue, IfOk, IfErr, IfSome, IfNone, OnOk, ◌++◌, ◌∷◌, [], length, slice_get, slice_index_or, Some, Contains, All};
ghost use Rattle.std.specs.List.{list_any};
ghost use Rattle.cube.specs.Cube.{Cube as Row, SameSize, IsSubset, IsDisjoint, holds, with_symbol, size_of};
ghost use Rattle.rows.specs.Places.{places, meeting as meeting_of, behind};
ghost use Rattle.regions.specs.Answer.{IsAnswerOfSplits};
ghost use Rattle.regions.specs.LeftOut.{LeavesOut};
ghost use Rattle.regions.specs.Reason.{IsReason, Joins, IsClosed, Leads, Share, Shows, AreAmong, AreRowsWithNear, AreLearned};

use crate::region::learned::{Learned, Shown, shown_by_search};
use crate::region::output_parts::parts_by_widest_row;
use crate::region::step_hint::{Hint, next_step_hint};
use cube::{Cube, Symbol};
use rows::{count_open_literals, opposite};
use std::alloc::{AllocError, Global};

// What one look at each row finds.
#[derive(Drop)]
struct Survey<'a> {
    // A copy of a row that contains the region. If there is one, the other fields say nothing.
    found: Option<Cube>,
    // The rows that meet the region.
    meeting: Vec<&'a Cube>,
    // The rows of `meeting` with fewest open literals, and how many those are: one more for a row
    // that lacks an output of the region, and `u32::MAX` without a row.
    nearest: Vec<&'a Cube>,
    fewest: u32,
}

impl<'a> Survey<'a> {
    // Adds a row that meets the region and has `open` open literals. If no row has fewer, it is one
    // of the nearest too, and those that have more are dropped from these.
    fn add(&mut self, row: &'a Cube, open: u32) -> Result<(), AllocError>
        requires { AreAmong self.old.nearest.items self.old.meeting.items }
        ensures found { self.new.found ≡ self.old.found }
        ensures meeting { OnOk result (self.new.meeting.items ≡ self.old.meeting.items
            ++ row.entry ∷ []) }
        ensures nearest { OnOk result (AreAmong self.new.nearest.items self.new.meeting.items) }
        ensures some { OnOk result (1 ≤ length self.new.nearest.items) }
    {
        self.meeting.push(row)?;
        if open > self.fewest && !self.nearest.is_empty() {
            return Ok(());
        }
        if open < self.fewest {
            self.nearest.clear();
        }
        self.fewest = open;
        self.nearest.push(row)?;
        Ok(())
    }
}

// Looks at each row once, until a row contains the region.
fn survey_rows<'a>(
    alloc: Global,
    rows: &[&'a Cube],
    region: &Cube,
) -> Result<Survey<'a>, AllocError>
    requires { All (λ d. SameSize d.now region.now) rows.now }
    ensures found { IfOk result
        (λ s. IfSome s.found (λ c. IsReason region.now (behind rows.now) c)) }
    ensures meeting { IfOk result
        (λ s. IfNone s.found
        (behind s.meeting.items ≡ meeting_of (size_of region.now) region.now (behind rows.now))) }
    ensures nearest { IfOk result (λ s. AreAmong s.nearest.items s.meeting.items) }
    ensures some { IfOk result (λ s. 1 ≤ length s.meeting.items → 1 ≤ length s.nearest.items) }
    ensures output { IfOk result (λ _. IsTrue (list_any (λ b. b) region.now.outputs)) }
{
    let shape = region.shape();
    let mut survey = Survey {
        found: None,
        meeting: Vec::new(alloc),
        nearest: Vec::new(alloc),
        fewest: u32::MAX,
    };
    for row in rows {
        if !row.disjoint(region) {
            let open = count_open_literals(shape, row, region, survey.fewest);
            if open == 0 && row.contains(region) {
                survey.found = Some(row.try_clone()?);
                return Ok(survey);
            }
            survey.add(*row, open)?;
        }
    }
    Ok(survey)
}

// The first input at which the row has a literal and the region has none.
fn first_open_input(row: &Cube, region: &Cube) -> Option<usize>
    requires { SameSize row.now region.now }
    ensures dash { IfSome result (λ i. slice_get region.now.symbols i ≡ Some Symbol.Dash) }
    ensures literal { IfSome result
        (λ i. slice_index_or row.now.symbols i Symbol.Dash ≢ Symbol.Dash) }
    ensures none { IfNone result ((i : ℕ) → i < length region.now.symbols
        → slice_index_or region.now.symbols i Symbol.Dash ≡ Symbol.Dash
        → slice_index_or row.now.symbols i Symbol.Dash ≡ Symbol.Dash) }
{
    let inputs = region.shape().inputs();
    let mut at = 0;
    while at < inputs {
        let Some(i) = row.next_literal(at) else {
            return None;
        };
        if region.symbol(i) == Symbol::Dash {
            return Some(i);
        }
        at = i + 1;
    }
    None
}

// The next step for a region.
#[derive(Clone, Copy)]
pub(crate) enum Step {
    // The row at this index of `near` has no open literal: take its outputs from the region.
    Row(usize),
    // Split the region at the input, and ask for the half with this literal first.
    Split(usize, Symbol),
}

// The next step for a region that all of the rows `near` meet, where they have `fewest` open
// literals. `rows` and `fewest` are for a hint alone, which may be poor.
fn next_step(rows: &[&Cube], near: &[&Cube], fewest: u32, region: &Cube) -> Step
    requires sizes { All (λ d. SameSize d.now region.now) near.now }
    requires some { 1 ≤ length near.now }
    ensures { Leads region.now (behind near.now) result }
{
    match next_step_hint(region.shape(), near, rows, fewest, region) {
        Hint::Row(k) => {
            if k < near.len() && first_open_input(near[k], region).is_none() {
                return Step::Row(k);
            }
        }
        Hint::Split(i, literal) => {
            if i < region.shape().inputs()
                && region.symbol(i) == Symbol::Dash
                && literal != Symbol::Dash
            {
                return Step::Split(i, literal);
            }
        }
    }
    match first_open_input(near[0], region) {
        None => Step::Row(0),
        Some(i) => Step::Split(i, Symbol::Zero),
    }
}

// The consensus at the input: the cube that has `-` there, elsewhere the literals of both, and the
// outputs that both have. `None` if they have opposite literals elsewhere, or no output in common.
fn consensus(i: usize, one: &Cube, other: &Cube) -> Result<Option<Cube>, AllocError>
    requires input { i < length one.now.symbols }
    requires size { SameSize other.now one.now }
    requires sides { Share (slice_index_or one.now.symbols i Symbol.Dash)
        (slice_index_or other.now.symbols i Symbol.Dash) }
    ensures { IfOk result (λ found. (region : Row) → IsTrue (list_any (λ b. b) region.outputs)
        → SameSize one.now region → IsSubset (holds region) (holds (with_symbol one.now i Symbol.Dash))
        → IsSubset (holds region) (holds (with_symbol other.now i Symbol.Dash))
        → Joins region one.now other.now found) }
{
    let low = one.with_symbol(i, Symbol::Dash)?;
    let high = other.with_symbol(i, Symbol::Dash)?;
    low.meet(&high)
}

/// Why splits found no reason.
#[derive(Drop)]
pub(crate) enum Stop {
    /// A growth of memory was refused.
    Memory,
    /// They would look at more rows than they may.
    Spent,
    /// The rows hold no place of this part of the region.
    LeftOut(Cube),
}

impl From<AllocError> for Stop {
    ghost use Rattle.regions.specs.declared.region.Stop.TheVariants.{Memory};

    ghost from_gives = { λ _ e. e ≡ Memory };

    fn from(_: AllocError) -> Stop {
        Stop::Memory
    }
}

/// Splits that look for an implicant, and how many rows they may look at.
#[derive(Drop)]
pub(crate) struct Splits {
    alloc: Global,
    // How many rows may still be looked at.
    rows_left: u64,
    // Whether splits end once that is spent.
    limited: bool,
}

impl Splits {
    // Splits that look at no more than so many rows.
    fn limited_to(alloc: Global, rows_left: u64) -> Splits {
        Splits {
            alloc,
            rows_left,
            limited: true,
        }
    }

    // Splits that go on until they have the answer.
    fn without_limit(alloc: Global) -> Splits
        ensures { result.limited ≡ false }
    {
        Splits {
            alloc,
            rows_left: 0,
            limited: false,
        }
    }

    // Takes `rows` from the rows that may still be looked at; `Spent` if they are limited and too
    // few.
    fn spend(&mut self, rows: usize) -> Result<(), Stop>
        ensures limited { self.new.limited ≡ self.old.limited }
        ensures left { OnOk result (IsTrue self.old.limited
            → self.new.rows_left + rows ≡ self.old.rows_left) }
        ensures spent { IfErr result (λ stop. (stop ≡ Stop.Spent) × IsTrue self.old.limited) }
    {
        match self.rows_left.checked_sub(rows as u64) {
            Some(left) => {
                self.rows_left = left;
                Ok(())
            }
            None => {
                if self.limited {
                    Err(Stop::Spent)
                } else {
                    Ok(())
                }
            }
        }
    }

    // `Ok`: an implicant of the rows that contains the region. `LeftOut`: a part of it of which they
    // hold no place. `Spent`: the rows that a limit lets it look at are spent. The rows `near`,
    // which are some of the rows, are looked at alone while one of them has at most `bound` open
    // literals.
    #[cycle(reason)]
    fn reason(
        &mut self,
        rows: &[&Cube],
        near: &[&Cube],
        bound: u32,
        region: &Cube,
    ) -> Result<Cube, Stop>
        requires { AreRowsWithNear region.now rows.now near.now }
        ensures { IsAnswerOfSplits region.now rows.now self.old.limited self.new.limited result }
    {
        self.spend(near.len())?;
        let Survey {
            found,
            meeting,
            nearest,
            fewest,
        } = survey_rows(self.alloc, near, region)?;
        if let Some(cube) = found {
            return Ok(cube);
        }
        if fewest <= bound && !meeting.is_empty() {
            let rest = fewest.min(bound.saturating_sub(1));
            return self.reason_by_step(rows, &nearest, fewest, rest, region);
        }
        self.reason_by_all_rows(rows, region)
    }

    // The reason, found by a look at each row and the next step.
    #[cycle(reason)]
    fn reason_by_all_rows(&mut self, rows: &[&Cube], region: &Cube) -> Result<Cube, Stop>
        requires { All (λ d. SameSize d.now region.now) rows.now }
        ensures { IsAnswerOfSplits region.now rows.now self.old.limited self.new.limited result }
    {
        self.spend(rows.len())?;
        let Survey {
            found,
            meeting,
            nearest,
            fewest,
        } = survey_rows(self.alloc, rows, region)?;
        if let Some(cube) = found {
            return Ok(cube);
        }
        if meeting.is_empty() {
            return Err(Stop::LeftOut(region.try_clone()?));
        }
        self.reason_by_step(&meeting, &nearest, fewest, fewest, region)
    }

    // The reason, found by the next step. All of the rows `near` meet the region, and have `fewest`
    // open literals there; `bound` is as for a reason.
    #[cycle(reason)]
    fn reason_by_step(
        &mut self,
        rows: &[&Cube],
        near: &[&Cube],
        fewest: u32,
        bound: u32,
        region: &Cube,
    ) -> Result<Cube, Stop>
        requires output { IsTrue (list_any (λ b. b) region.now.outputs) }
        requires rows { AreRowsWithNear region.now rows.now near.now }
        requires meets { All (λ d. IsDisjoint (holds d.now) (holds region.now) → ⊥) near.now }
        requires some { 1 ≤ length near.now }
        ensures { IsAnswerOfSplits region.now rows.now self.old.limited self.new.limited result }
    {
        match next_step(rows, near, fewest, region) {
            Step::Row(k) => self.reason_by_outputs(rows, near, bound, region, near[k]),
            Step::Split(i, literal) => {
                self.reason_by_split(rows, near, bound, region, (i, literal))
            }
        }
    }

    // The reason, where the row has no open literal: it holds the region at its outputs, so the
    // region is asked for without these.
    #[cycle(reason)]
    fn reason_by_outputs(
        &mut self,
        rows: &[&Cube],
        near: &[&Cube],
        bound: u32,
        region: &Cube,
        row: &Cube,
    ) -> Result<Cube, Stop>
        requires rows { AreRowsWithNear region.now rows.now near.now }
        requires size { SameSize row.now region.now }
        requires member { Contains (behind rows.now) row.now }
        requires meets { IsDisjoint (holds row.now) (holds region.now) → ⊥ }
        requires closed { IsClosed region.now row.now }
        ensures { IsAnswerOfSplits region.now rows.now self.old.limited self.new.limited result }
    {
        if !region.has_outputs_beyond(row) {
            return Ok(row.try_clone()?);
        }
        let other = {
            let rest = region.without_outputs(row)?;
            self.reason(rows, near, bound, &rest)?
        };
        if other.contains(region) {
            return Ok(other);
        }
        match row.output_consensus(&other)? {
            Some(cube) => Ok(cube),
            None => unreachable!(),
        }
    }

    // The reason, found by the two halves of the region at an input, first that with the literal.
    #[cycle(reason)]
    fn reason_by_split(
        &mut self,
        rows: &[&Cube],
        near: &[&Cube],
        bound: u32,
        region: &Cube,
        at: (usize, Symbol),
    ) -> Result<Cube, Stop>
        requires output { IsTrue (list_any (λ b. b) region.now.outputs) }
        requires rows { AreRowsWithNear region.now rows.now near.now }
        requires dash { slice_get region.now.symbols at.0 ≡ Some Symbol.Dash }
        requires literal { at.1 ≢ Symbol.Dash }
        ensures { IsAnswerOfSplits region.now rows.now self.old.limited self.new.limited result }
    {
        let (i, literal) = at;
        let one = {
            let first = region.with_symbol(i, literal)?;
            self.reason(rows, near, bound, &first)?
        };
        if one.contains(region) {
            return Ok(one);
        }
        self.reason_by_other_half(rows, near, bound, region, at, &one)
    }

    // The reason, found by the half with the other literal, where `one` is the reason of the half
    // with the literal: if it has a literal at the input too, the consensus of both reasons.
    #[cycle(reason)]
    fn reason_by_other_half(
        &mut self,
        rows: &[&Cube],
        near: &[&Cube],
        bound: u32,
        region: &Cube,
        at: (usize, Symbol),
        one: &Cube,
    ) -> Result<Cube, Stop>
        requires output { IsTrue (list_any (λ b. b) region.now.outputs) }
        requires rows { AreRowsWithNear region.now rows.now near.now }
        requires dash { slice_get region.now.symbols at.0 ≡ Some Symbol.Dash }
        requires literal { at.1 ≢ Symbol.Dash }
        requires one_size { SameSize one.now region.now }
        requires one { IsReason (with_symbol region.now at.0 at.1) (behind rows.now) one.now }
        ensures { IsAnswerOfSplits region.now rows.now self.old.limited self.new.limited result }
    {
        let (i, literal) = at;
        let other = {
            let second = region.with_symbol(i, opposite(literal))?;
            self.reason(rows, near, bound, &second)?
        };
        if other.contains(region) {
            return Ok(other);
        }
        match consensus(i, one, &other)? {
            Some(cube) => Ok(cube),
            None => unreachable!(),
        }
    }

    // What the splits show of the region, with `near` and `bound` as for a reason; `Nothing` if the
    // rows that a limit lets them look at are spent.
    fn show(
        &mut self,
        rows: &[&Cube],
        near: &[&Cube],
        bound: u32,
        region: &Cube,
    ) -> Result<Shown, AllocError>
        requires { AreRowsWithNear region.now rows.now near.now }
        ensures shown { IfOk result (Shows region.now rows.now) }
        ensures nothing { IfOk result
            (λ shown. shown ≡ Shown.Nothing → IsTrue self.old.limited) }
    {
        match self.reason(rows, near, bound, region) {
            Ok(_) => Ok(Shown::Held),
            Err(Stop::LeftOut(part)) => Ok(Shown::LeftOut(part)),
            Err(Stop::Spent) => Ok(Shown::Nothing),
            Err(Stop::Memory) => Err(AllocError),
        }
    }

    // What the splits show of the region, part by part: each has the outputs that a row shares with
    // what is left.
    fn show_part_by_part(
        &mut self,
        rows: &[&Cube],
        near: &[&Cube],
        bound: u32,
        region: &Cube,
    ) -> Result<Shown, AllocError>
        requires { AreRowsWithNear region.now rows.now near.now }
        ensures { IfOk result (Shows region.now rows.now) }
    {
        let mut left = region.try_clone()?;
        for _ in 0..region.shape().outputs() {
            let Some((part, rest)) = parts_by_widest_row(rows, &left)? else {
                break;
            };
            match self.show(rows, near, bound, &part)? {
                Shown::Held => left = rest,
                Shown::LeftOut(found) => return Ok(Shown::LeftOut(found)),
                Shown::Nothing => return Ok(Shown::Nothing),
            }
        }
        self.show(rows, near, bound, &left)
    }
}

/// A part of the region of which the rows hold no place, or `None` if they hold the region.
pub fn part_left_out(
    alloc: Global,
    rows: &[&Cube],
    region: &Cube,
) -> Result<Option<Cube>, AllocError>
    requires { All (λ d. SameSize d.now region.now) rows.now }
    ensures { IfOk result (LeavesOut (size_of region.now) (behind rows.now) region.now) }
{
    let mut learned = Learned::new(alloc);
    part_left_out_by_splits_or_search(alloc, rows, &[], 0, region, &mut learned)
}

/// Whether splits that look at no more than `rows_left` rows show that the rows hold each place of
/// the region; `false` too if those are spent first.
pub(crate) fn holds_by_splits(
    alloc: Global,
    rows: &[&Cube],
    region: &Cube,
    rows_left: usize,
) -> Result<bool, AllocError>
    requires { All (λ d. SameSize d.now region.now) rows.now }
    ensures { IfOk result
        (λ held. IsTrue held → IsSubset (holds region.now) (places (behind rows.now))) }
{
    let mut splits = Splits::limited_to(alloc, rows_left as u64);
    match splits.show(rows, &[], 0, region)? {
        Shown::Held => Ok(true),
        Shown::LeftOut(_) => Ok(false),
        Shown::Nothing => Ok(false),
    }
}

// What splits show of the region in a second try, if `learned` lets them look at any rows.
fn shown_in_second_try(
    alloc: Global,
    rows: &[&Cube],
    near: &[&Cube],
    bound: u32,
    region: &Cube,
    learned: &mut Learned,
) -> Result<Shown, AllocError>
    requires { AreRowsWithNear region.now rows.now near.now }
    ensures known { OnOk result (learned.new.known ≡ learned.old.known) }
    ensures shown { IfOk result (Shows region.now rows.now) }
{
    let rows_left = learned.rows_for_second_try(rows, region);
    if rows_left == 0 {
        return Ok(Shown::Nothing);
    }
    let mut splits = Splits::limited_to(alloc, rows_left);
    let shown = splits.show_part_by_part(rows, near, bound, region);
    learned.note_second_try(rows_left.saturating_sub(splits.rows_left));
    shown
}

// What splits show of the region within the rows that `learned` lets them look at, in two tries.
fn shown_by_splits(
    alloc: Global,
    rows: &[&Cube],
    near: &[&Cube],
    bound: u32,
    region: &Cube,
    learned: &mut Learned,
) -> Result<Shown, AllocError>
    requires { AreRowsWithNear region.now rows.now near.now }
    ensures known { OnOk result (learned.new.known ≡ learned.old.known) }
    ensures shown { IfOk result (Shows region.now rows.now) }
{
    learned.raise_rows_left(rows);
    let mut splits = Splits::limited_to(alloc, learned.rows_left);
    let shown = splits.show(rows, near, bound, region);
    learned.rows_left = splits.rows_left;
    match shown? {
        Shown::Nothing => shown_in_second_try(alloc, rows, near, bound, region, learned),
        found => Ok(found),
    }
}

/// A part of the region of which the rows hold no place, or `None` if they hold the region. The
/// rows `near` are looked at alone while one of them has at most `bound` open literals.
///
/// Most questions are answered by splits. How many rows these may still look at is kept in
/// `learned`: each question about the rows adds some, and takes those that its splits look at. Once
/// that is spent, they begin again part by part, if searches would read much more. Then a search is
/// asked, and what it learns of the rows is kept. If it finds no answer within its limits, or one
/// that fails the check, splits begin again without limit.
pub(crate) fn part_left_out_by_splits_or_search(
    alloc: Global,
    rows: &[&Cube],
    near: &[&Cube],
    bound: u32,
    region: &Cube,
    learned: &mut Learned,
) -> Result<Option<Cube>, AllocError>
    requires rows { AreRowsWithNear region.now rows.now near.now }
    requires known { AreLearned region.now rows.now learned.old.known.items }
    ensures known { OnOk result (AreLearned region.now rows.now learned.new.known.items) }
    ensures part { IfOk result (LeavesOut (size_of region.now) (behind rows.now) region.now) }
{
    match shown_by_splits(alloc, rows, near, bound, region, learned)? {
        Shown::Held => return Ok(None),
        Shown::LeftOut(part) => return Ok(Some(part)),
        Shown::Nothing => (),
    }
    match shown_by_search(alloc, rows, learned, region)? {
        Shown::Held => return Ok(None),
        Shown::LeftOut(part) => return Ok(Some(part)),
        Shown::Nothing => (),
    }
    match Splits::without_limit(alloc).show(rows, near, bound, region)? {
        Shown::Held => Ok(None),
        Shown::LeftOut(part) => Ok(Some(part)),
        Shown::Nothing => unreachable!(),
    }
}
