//! The type of a file that is read.

/// Which lists the rows of a file give: the ON list always, the DC list with `d`, the OFF list with
/// `r`.
#[derive(Clone, Copy, Debug, PartialEq, Eq)]
pub enum FileType {
    F,
    Fd,
    Fr,
    Fdr,
}
