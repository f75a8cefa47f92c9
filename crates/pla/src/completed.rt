//! The lists of a description's three sets: those that its type gives, and those that it leaves
//! open, computed.
ghost use Rattle.std.specs.Prelude.{◌≡◌, ◌++◌, IfOk, unwrap_or, is_some, not};
ghost use Rattle.pla.specs.Completed.{dc_list, gives_dc, gives_off, off_list, outside, sets_of};

use crate::description::Pla;
use crate::file_type::FileType;
use crate::set_lists::Sets;
use cover::Cover;
use std::alloc::{AllocError, Global};

/// The lists of a description's three sets. Lists that its type gives are copied as they stand. Of
/// the others, `dc` asks under fr for what neither ON nor OFF holds, and `off` under f and fd for
/// what neither ON nor DC holds; they are empty if not asked for, and DC is empty under f.
///
/// A computed list is a complete sum, in row order: it may have exponentially many cubes in the
/// inputs. The types are those of espresso(5).
///
/// # Errors
///
/// `AllocError` if memory was refused.
pub fn sets(alloc: Global, pla: &Pla, dc: bool, off: bool) -> Result<Sets, AllocError>
    ensures { IfOk result (λ sets. sets ≡ sets_of pla.now dc off) }
{
    let on = pla.on().try_clone()?;
    let dc = dc_list_of(alloc, pla, dc)?;
    let off = off_list_of(alloc, pla, off)?;
    Ok(Sets::new(on, dc, off))
}

// The DC list that [`sets`] gives: the description's own under fd and fdr; under fr, if `compute`
// asks for it, what neither ON nor OFF holds; else an empty one.
fn dc_list_of(alloc: Global, pla: &Pla, compute: bool) -> Result<Cover, AllocError>
    ensures { IfOk result (λ list. list ≡ record {
      size = pla.now.size;
      cubes = dc_list pla.now.file_type compute pla.now;
    }) }
{
    match dc_unless_given(alloc, pla, compute)? {
        Some(list) => Ok(list),
        None => pla.dc().try_clone(),
    }
}

// The OFF list that [`sets`] gives: the description's own under fr and fdr; under f and fd, if
// `compute` asks for it, what neither ON nor DC holds; else an empty one.
fn off_list_of(alloc: Global, pla: &Pla, compute: bool) -> Result<Cover, AllocError>
    ensures { IfOk result (λ list. list ≡ record {
      size = pla.now.size;
      cubes = off_list pla.now.file_type compute pla.now;
    }) }
{
    match off_unless_given(alloc, pla, compute)? {
        Some(list) => Ok(list),
        None => pla.off().try_clone(),
    }
}

/// The DC list that [`sets`] gives, unless it is the description's own: `None` under fd and fdr,
/// whose rows give it. Under fr it is computed if `compute` asks for it, and else empty; under f it
/// is empty.
///
/// # Errors
///
/// `AllocError` if memory was refused.
pub fn dc_unless_given(alloc: Global, pla: &Pla, compute: bool) -> Result<Option<Cover>, AllocError>
    ensures own { IfOk result (λ list. is_some list ≡ not (gives_dc pla.now.file_type)) }
    ensures list { IfOk result
        (λ list. unwrap_or list (record { size = pla.now.size; cubes = pla.now.dc })
        ≡ record { size = pla.now.size; cubes = dc_list pla.now.file_type compute pla.now }) }
{
    match pla.file_type() {
        FileType::Fd | FileType::Fdr => Ok(None),
        FileType::Fr if compute => Ok(Some(outside_both(pla.on(), pla.off())?)),
        FileType::F | FileType::Fr => Ok(Some(Cover::new(alloc, pla.shape()))),
    }
}

/// The OFF list that [`sets`] gives, unless it is the description's own: `None` under fr and fdr,
/// whose rows give it. Under f and fd it is computed if `compute` asks for it, and else empty.
///
/// # Errors
///
/// `AllocError` if memory was refused.
pub fn off_unless_given(
    alloc: Global,
    pla: &Pla,
    compute: bool,
) -> Result<Option<Cover>, AllocError>
    ensures own { IfOk result (λ list. is_some list ≡ not (gives_off pla.now.file_type)) }
    ensures list { IfOk result
        (λ list. unwrap_or list (record { size = pla.now.size; cubes = pla.now.off })
        ≡ record { size = pla.now.size; cubes = off_list pla.now.file_type compute pla.now }) }
{
    match pla.file_type() {
        FileType::Fr | FileType::Fdr => Ok(None),
        FileType::F if compute => Ok(Some(pla.on().complement()?)),
        FileType::Fd if compute => Ok(Some(outside_both(pla.on(), pla.dc())?)),
        FileType::F | FileType::Fd => Ok(Some(Cover::new(alloc, pla.shape()))),
    }
}

// The complete sum of the places that are in neither list.
fn outside_both(list: &Cover, other: &Cover) -> Result<Cover, AllocError>
    requires { other.now.size ≡ list.now.size }
    ensures { IfOk result (λ sum. sum ≡ record {
      size = list.now.size;
      cubes = outside list.now.size (list.now.cubes ++ other.now.cubes);
    }) }
{
    let mut both = list.try_clone()?;
    both.append(other)?;
    both.complement()
}
