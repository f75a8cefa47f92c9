//! Packed cubes of binary inputs and outputs, for tools that work on two-level logic.
//!
//! A [`Cube`] asks each input for `0`, for `1` or for nothing (`-`), and has some of the outputs,
//! at least one. It stands for a set of places: a place is a point, one bit an input, with the
//! number of an output. (R. Brayton, G. Hachtel, C. McMullen and A. Sangiovanni-Vincentelli, "Logic
//! Minimization Algorithms for VLSI Synthesis", 1984.)
//!
//! Make a cube by [`Shape::new`] and [`Cube::from_symbols`], or by [`Cube::from_bytes`] of a row of
//! a file, and read it by [`Cube::symbol`] and [`Cube::output`]. [`Cube::contains`],
//! [`Cube::disjoint`] and [`Cube::meet`] compare sets of places, [`Cube::sharp`] takes one from
//! another, [`Cube::cofactor`] and [`Cube::with_symbol`] serve recursions over inputs, and
//! [`Cube::row_cmp`] is the order in which lists are kept. [`Cube::opposites`] and
//! [`Cube::literals_beyond`] count literals of two cubes, [`Cube::next_literal`],
//! [`Cube::next_opposite`] and [`Cube::next_beyond`] find them, and [`Cube::literal_inputs`] is a
//! set of inputs.
//!
//! With two inputs and two outputs, what `1-` with both outputs has over `11` with the second
//! output is covered by two cubes, the largest that do so:
//!
//! ```text
//! let shape = Shape::new(2, 2).ok_or("shape")?;
//! let (one, dash) = (Symbol::One, Symbol::Dash);
//! let whole = Cube::from_symbols(alloc, shape, &[one, dash], &[true, true])?.ok_or("empty")?;
//! let part = Cube::from_symbols(alloc, shape, &[one, one], &[false, true])?.ok_or("empty")?;
//! let rest = whole.sharp(&part)?; // `1-` with output 0, and `10` with both
//! ```
//!
//! A cube keeps two bits an input and one bit an output, in words of 64 bits, and takes memory only
//! if that makes more than four words. A call on two cubes looks at each word once, and so costs
//! some nanoseconds at 40 inputs; `sharp` makes at most one cube more than there are inputs.
#![tactic(auto)]

mod bytes;
mod cube;
mod groups;
mod lanes;
pub mod laws;
pub mod limits;
mod literals;
mod pack;
mod shape;
mod symbol;
mod words;

pub use cube::Cube;
pub use shape::Shape;
pub use symbol::Symbol;
