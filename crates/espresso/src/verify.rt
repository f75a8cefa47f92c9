//! Whether two files agree outside their don't-cares.
ghost use Rattle.std.specs.Prelude.{◌≡◌, ◌↔◌, ◌||◌, ◌++◌, IfOk, IsTrue, false};
ghost use Rattle.cube.specs.Cube.{IsSubset};
ghost use Rattle.cover.specs.Places.{places};
ghost use Rattle.pla.specs.Completed.{dc_list};
ghost use Rattle.espresso.specs.Answer.{agree as agree_of, answer_of};
ghost use Rattle.espresso.specs.Comparing.{settled};
ghost use Rattle.espresso.specs.Run.{trace};
ghost use Rattle.espresso.specs.Steps.{PutsOutTwo};

use crate::command::Command;
use crate::failure::Failure;
use crate::printing::{computed_or_given, judge};
use crate::status::Status;
use cover::{Cover, are_meets_within_either, is_within_either};
use minimum::Choice;
use pla::{FileType, OutType, Output, Pla, dc_unless_given};
use std::alloc::{AllocError, Global};

// Prints whether the two agree outside their DC-sets, and answers a no if they do not.
pub(crate) fn verify<W: Output>(
    alloc: Global,
    pla: &Pla,
    other: &Pla,
    out: &mut W,
) -> Result<Status, Failure>
    requires { other.now.size ≡ pla.now.size }
    ensures { PutsOutTwo (answer_of Command.Verify OutType.F Choice.First) pla.now other.now
        (trace (W.taken out.old) (W.taken out.new) (W.calls out.old) (W.calls out.new)) result }
{
    let yes = b"PLAs compared equal\n";
    let no = b"PLA comparison failed; the PLAs are not equivalent\n";
    judge(agree(alloc, pla, other), yes, no, out)
}

// The DC cubes that the two list, those of `pla` first; a file of type f or fr lists none.
fn listed_dc(alloc: Global, pla: &Pla, other: &Pla) -> Result<Cover, AllocError>
    requires { other.now.size ≡ pla.now.size }
    ensures { IfOk result (λ free. free ≡ record {
      size = pla.now.size;
      cubes = dc_list pla.now.file_type false pla.now
          ++ dc_list other.now.file_type false other.now;
    }) }
{
    let dc = dc_unless_given(alloc, pla, false)?;
    let other_dc = dc_unless_given(alloc, other, false)?;
    let mut free = computed_or_given(&dc, pla.dc()).try_clone()?;
    free.append(computed_or_given(&other_dc, other.dc()))?;
    Ok(free)
}

// Whether each place of the first ON-set that the other settles is in the other ON-set or listed as
// a don't-care. A file settles each place, and one of type fr those of its ON and its OFF list.
fn is_held(pla: &Pla, other: &Pla, free: &Cover) -> Result<bool, AllocError>
    requires other { other.now.size ≡ pla.now.size }
    requires free { free.now.size ≡ pla.now.size }
    ensures { IfOk result
        (λ held. IsTrue held
        ↔ IsSubset (settled other.now.file_type other.now.off (places pla.now.on))
        (λ p. places free.now.cubes p || places other.now.on p)) }
{
    match other.file_type() {
        FileType::Fr => are_meets_within_either(pla.on(), other.off(), other.on(), free),
        FileType::F | FileType::Fd | FileType::Fdr => {
            is_within_either(pla.on(), other.on(), free)
        }
    }
}

// Whether each place that is in neither DC-set is in both ON-sets or in neither. Under fr no DC
// list is made: a place of one ON-set alone is a difference only if the other's OFF list has it and
// no listed DC cube does.
fn agree(alloc: Global, pla: &Pla, other: &Pla) -> Result<bool, AllocError>
    requires { other.now.size ≡ pla.now.size }
    ensures { IfOk result (λ holds. holds ≡ agree_of pla.now other.now) }
{
    let have_one_shape = pla.on().shape() == other.on().shape();
    prove!(have_one_shape);
    let free = listed_dc(alloc, pla, other)?;
    if !is_held(pla, other, &free)? {
        return Ok(false);
    }
    is_held(other, pla, &free)
}
