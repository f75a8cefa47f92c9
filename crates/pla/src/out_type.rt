//! The type of a printed file.

/// Which lists are printed, which is also the type of the printed file: the ON-set alone (`f`),
/// with the DC-set (`fd`), with the OFF-set (`fr`), or all three (`fdr`).
#[derive(Clone, Copy, Debug, PartialEq, Eq)]
pub enum OutType {
    F,
    Fd,
    Fr,
    Fdr,
}
