//! A cube, kept in words: how it is made and printed, and its operations on places. (`literals` has those
//! that find and count literals.)
ghost use Rattle.std.specs.Prelude.{◌≡◌, ℕ, ◌+◌, ◌-◌, ◌*◌, max, ◌<◌, ◌≤◌, ◌↔◌, IsTrue, IsOk, IsSome, IsNone, IfOk, IfSome, IfNone, OnOk, MatchOption, if◌then◌else◌, ◌++◌, length, map, take, drop, slice_get, slice_index_or, Some, Contains, true, false, List, Bool, ◌&&◌, ◌||◌};
ghost use Rattle.cube.specs.Cube.{HasSize, IsCube, SameSize, IsSubset, IsDisjoint, Place, holds, intersection, difference, word_count, size_of, with_symbol as cube_with_symbol, IsUniversal, IsPlace};
ghost use Rattle.cube.specs.Pattern.{matches};
ghost use Rattle.cube.specs.Size.{words_of_size};
ghost use Rattle.std.specs.Int.{bit_at};
ghost use Rattle.cube.specs.Words.{IsBitDifference, freed_bit};
ghost use Rattle.cube.specs.Join.{supercube};
ghost use Rattle.cube.specs.Cofactor.{cofactor as cofactor_of};
ghost use Rattle.cube.specs.Sharp.{minus, rest_row, rest_rows, pieces_below, splits, piece as piece_row};
ghost use Rattle.cube.specs.Bytes.{byte_symbol, has_mark, symbol_byte};
ghost use Rattle.cube.specs.Sum.{complete_sum};
ghost use Rattle.std.specs.List.{list_any};
ghost use Rattle.cube.specs.Order.{row_cmp as row_order};
ghost use Rattle.cube.specs.Literals.{IsOrderKey};
ghost use Rattle.cube.specs.Packing.{Packs, PacksInputs, PacksOutputs, input_words as input_words_of, output_words as output_words_of};

use crate::bytes::{has_any_mark, two_words_of, words_of};
use crate::groups::{byte_by_bits, group_by_bits};
use crate::lanes::{
    common_words, covers_by_lanes, has_no_empty_pair, pairs_meet_by_lanes, share_bit_by_lanes,
};
use crate::pack::{input_word, input_words, is_in_two_words, output_word, output_words};
use crate::shape::Shape;
use crate::symbol::Symbol;
use crate::words::{
    copied_words, covers_word_by_word, first_difference, freed_word, has_all, minus_word,
    or_not_word, reversal, with_bit, zip_words,
};
use smallvec::SmallVec;
use std::alloc::{AllocError, Global};
use std::cmp::Ordering;
use std::marker::Model;

/// A symbol for each input, and a set of outputs that is not empty.
///
/// The cube holds a place if each symbol agrees with the point's bit and the cube has the
/// output. Methods that make a cube use the allocator of this one. If [`Shape`]'s inputs and
/// outputs make at most four words (say 96 inputs and 64 outputs, or 64 and 128) only
/// [`Cube::sharp`] takes memory, for its list.
pub struct Cube {
    shape: Shape,
    words: SmallVec<u64, 4>,
}

// Written out, so that where a cube ends a proof has one call, and no case for where its words are.
impl Drop for Cube {
    fn drop(self) {
        let Cube { shape: _, words: _ } = self;
    }
}

impl Model for Cube {
    ghost use Rattle.cube.specs.Cube.{Cube as Row};
    ghost use Rattle.cube.specs.Packing.{unpacked, IsPacked};

    ghost Value = { Row };

    ghost view = { λ c. unpacked c.shape.inputs c.shape.outputs c.words.items };

    ghost invariant = { λ c. IsPacked c.shape.inputs c.shape.outputs c.words.items };
}

impl Cube {
    /// The cube of these symbols and outputs, as many as the shape has, or `None` if no output
    /// is set.
    pub fn from_symbols(
        alloc: Global,
        shape: Shape,
        symbols: &[Symbol],
        outputs: &[bool],
    ) -> Result<Option<Cube>, AllocError>
        requires inputs { length symbols.now ≡ shape.inputs }
        requires outputs { length outputs.now ≡ shape.outputs }
        ensures found { IfOk result (λ found. IsSome found ↔ Contains outputs.now true) }
        ensures value { IfOk result
            (λ found. IfSome found
            (λ c. c ≡ record { symbols = symbols.now; outputs = outputs.now })) }
        ensures inline { words_of_size shape ≤ 4 → IsOk result }
    {
        if !outputs.contains(&true) {
            return Ok(None);
        }
        let inputs_end = input_words(shape);
        let outputs_end = output_words(shape);
        let mut words = SmallVec::with_capacity(alloc, inputs_end + outputs_end)?;
        for w in 0..inputs_end + outputs_end {
            words.push_reserved(if w < inputs_end {
                input_word(symbols, w)
            } else {
                output_word(outputs, w - inputs_end)
            });
        }
        Ok(Some(Cube { shape, words }))
    }

    /// The cube of a row's bytes, as many as the shape has inputs and outputs, or `None` if no
    /// output is set. A byte `0` or `1` is that literal, and any other byte of an input is `-`; an
    /// output is set if the mark of its byte, by a table of all bytes, shares a bit with the mask.
    ///
    /// The bytes go straight into words, and each costs a look at a table.
    pub fn from_bytes(
        alloc: Global,
        shape: Shape,
        inputs: &[u8],
        outputs: &[u8],
        marks: &[u8; 256],
        mask: u8,
    ) -> Result<Option<Cube>, AllocError>
        requires inputs { length inputs.now ≡ shape.inputs }
        requires outputs { length outputs.now ≡ shape.outputs }
        ensures found { IfOk result
            (λ found. IsSome found ↔ IsTrue (list_any (has_mark marks.now mask) outputs.now)) }
        ensures value { IfOk result
            (λ found. IfSome found
            (λ c. c ≡ record {
              symbols = map byte_symbol inputs.now;
              outputs = map (has_mark marks.now mask) outputs.now;
            })) }
        ensures inline { words_of_size shape ≤ 4 → IsOk result }
    {
        if !has_any_mark(outputs, marks, mask) {
            return Ok(None);
        }
        let words = if is_in_two_words(shape) {
            two_words_of(alloc, inputs, outputs, marks, mask)?
        } else {
            words_of(alloc, shape, inputs, outputs, marks, mask)?
        };
        Ok(Some(Cube { shape, words }))
    }

    /// How many inputs and outputs the cube has.
    pub fn shape(&self) -> Shape
        ensures size { HasSize self.now result }
        ensures is_cube { IsCube result self.now }
    {
        self.shape
    }

    /// The symbol of input `i`, from 0 on.
    #[inline(always)]
    pub fn symbol(&self, i: usize) -> Symbol
        requires { i < length self.now.symbols }
        ensures { slice_get self.now.symbols i ≡ Some result }
    {
        let word = self.words.as_slice()[i / 32];
        let at = 2 * (i % 32);
        let low = (word >> at) & 1;
        let high = (word >> (at + 1)) & 1;
        if low == high {
            Symbol::Dash
        } else if low == 1 {
            Symbol::Zero
        } else {
            Symbol::One
        }
    }

    /// Whether the cube has output `j`, from 0 on.
    pub fn output(&self, j: usize) -> bool
        requires { j < length self.now.outputs }
        ensures { slice_get self.now.outputs j ≡ Some result }
    {
        let word = self.words.as_slice()[input_words(self.shape) + j / 64];
        (word >> (j % 64)) & 1 == 1
    }

    /// Puts a byte for each symbol at the front of a row, one of the three by the symbol, and
    /// leaves what follows. Looks at each symbol once, at four together if the bytes are `-`, `0`
    /// and `1`, and takes no memory.
    pub fn put_symbols(&self, row: &mut [u8], dash: u8, zero: u8, one: u8)
        requires { length self.now.symbols ≤ length row.old }
        ensures { row.new ≡ map (symbol_byte dash zero one) self.now.symbols
            ++ drop (length self.now.symbols) row.old }
    {
        let plain = dash == b'-' && zero == b'0' && one == b'1';
        let start = if plain { self.put_groups(row) } else { 0 };
        let words = self.input_part();
        for i in start..self.shape().inputs() {
            let word = words[i / 32];
            let at = 2 * (i % 32);
            row[i] = byte_by_bits((word >> at) & 1, (word >> (at + 1)) & 1, dash, zero, one);
        }
    }

    // Puts `-`, `0` and `1` at the front of a row for the symbols of whole groups of four, and
    // answers for how many symbols.
    fn put_groups(&self, row: &mut [u8]) -> usize
        requires { length self.now.symbols ≤ length row.old }
        ensures within { result ≤ length self.now.symbols }
        ensures row { row.new ≡ map (symbol_byte 45 48 49) (take result self.now.symbols)
            ++ drop result row.old }
    {
        let words = self.input_part();
        let count = self.shape().inputs() / 4;
        for g in 0..count {
            let group = group_by_bits((words[g / 8] >> (8 * (g % 8))) & 255);
            row[4 * g..4 * g + 4].copy_from_slice(group);
        }
        4 * count
    }

    /// Puts a byte for each output at the front of a row, by whether the cube has it, and leaves
    /// what follows. Looks at each output once, and takes no memory.
    pub fn put_outputs(&self, row: &mut [u8], present: u8, absent: u8)
        requires { length self.now.outputs ≤ length row.old }
        ensures { row.new ≡ map (λ b. if b then present else absent) self.now.outputs
            ++ drop (length self.now.outputs) row.old }
    {
        let words = self.output_part();
        for j in 0..self.shape().outputs() {
            let bit = (words[j / 64] >> (j % 64)) & 1;
            row[j] = if bit == 1 { present } else { absent };
        }
    }

    /// The outputs from `64 w` on, as bits: output `64 w + k` is bit `k`, which is clear past the
    /// last output. So lists can count and compare their outputs word by word.
    pub fn output_bits(&self, w: usize) -> u64
        ensures { (k : ℕ) → k < 64 → bit_at result k
            ≡ (if slice_index_or self.now.outputs (64 * w + k) false then 1 else 0) }
    {
        match self.output_part().get(w) {
            Some(word) => *word,
            None => 0,
        }
    }

    /// Whether the cube holds each place of its shape: it has no literal, and all outputs.
    pub fn is_universal(&self) -> bool
        ensures row { IsTrue result ↔ IsUniversal self.now }
        ensures places { IsTrue result
            ↔ ((p : Place) → IsPlace (size_of self.now) p → IsTrue (holds self.now p)) }
    {
        let shape = self.shape();
        has_all(2 * shape.inputs(), self.input_part())
            && has_all(shape.outputs(), self.output_part())
    }

    /// Whether each place of `other` is in this cube.
    #[inline(always)]
    pub fn contains(&self, other: &Cube) -> bool
        requires { SameSize self.now other.now }
        ensures { IsTrue result ↔ IsSubset (holds other.now) (holds self.now) }
    {
        covers_by_lanes(self.words(), other.words())
    }

    /// Whether no place is in both.
    #[inline(always)]
    pub fn disjoint(&self, other: &Cube) -> bool
        requires { SameSize self.now other.now }
        ensures { IsTrue result ↔ IsDisjoint (holds self.now) (holds other.now) }
    {
        if !pairs_meet_by_lanes(self.input_part(), other.input_part()) {
            return true;
        }
        !share_bit_by_lanes(self.output_part(), other.output_part())
    }

    /// The cube of the places that are in both, or `None` if there is none.
    pub fn meet(&self, other: &Cube) -> Result<Option<Cube>, AllocError>
        requires { SameSize self.now other.now }
        ensures none { IfOk result
            (λ found. IsNone found ↔ IsDisjoint (holds self.now) (holds other.now)) }
        ensures size { IfOk result (λ found. IfSome found (λ c. SameSize c self.now)) }
        ensures places { IfOk result (λ found. IfSome found (λ c. (p : Place)
            → holds c p ≡ intersection (holds self.now) (holds other.now) p)) }
        ensures inline { word_count self.now ≤ 4 → IsOk result }
    {
        if is_in_two_words(self.shape) {
            return Ok(self.meet_in_two_words(other));
        }
        if self.disjoint(other) {
            return Ok(None);
        }
        let words = common_words(*self.words.allocator(), self.words(), other.words())?;
        Ok(Some(Cube {
            shape: self.shape,
            words,
        }))
    }

    // The meet of two cubes of one word of inputs and one of outputs; `None` if they are disjoint.
    fn meet_in_two_words(&self, other: &Cube) -> Option<Cube>
        requires size { SameSize self.now other.now }
        requires inputs { input_words_of (length self.now.symbols) ≡ 1 }
        requires outputs { output_words_of (length self.now.outputs) ≡ 1 }
        ensures none { IsNone result ↔ IsDisjoint (holds self.now) (holds other.now) }
        ensures size { IfSome result (λ c. SameSize c self.now) }
        ensures places { IfSome result (λ c. (p : Place)
            → holds c p ≡ intersection (holds self.now) (holds other.now) p) }
    {
        let (mine, theirs) = (self.words(), other.words());
        let inputs = mine[0] & theirs[0];
        let outputs = mine[1] & theirs[1];
        if !has_no_empty_pair(inputs) || outputs == 0 {
            return None;
        }
        let mut words = SmallVec::new(*self.words.allocator());
        words.push_reserved(inputs);
        words.push_reserved(outputs);
        Some(Cube {
            shape: self.shape,
            words,
        })
    }

    /// The cofactor by `other`: this cube with `-` at the inputs where `other` has a literal, and
    /// with the outputs that `other` lacks besides its own; `None` if the two are disjoint.
    ///
    /// A list of cubes holds all of `other` exactly if their cofactors by it hold every place.
    pub fn cofactor(&self, other: &Cube) -> Result<Option<Cube>, AllocError>
        requires { SameSize self.now other.now }
        ensures none { IfOk result
            (λ found. IsNone found ↔ IsDisjoint (holds self.now) (holds other.now)) }
        ensures value { IfOk result
            (λ found. IfSome found (λ c. c ≡ cofactor_of self.now other.now)) }
        ensures size { IfOk result (λ found. IfSome found (λ c. SameSize c self.now)) }
        ensures inline { word_count self.now ≤ 4 → IsOk result }
    {
        if self.disjoint(other) {
            return Ok(None);
        }
        let outputs = self.shape().outputs();
        let start = input_words(self.shape);
        let words = zip_words(
            *self.words.allocator(),
            self.words(),
            other.words(),
            |k, mine, theirs|
                ensures low { k < start → (i : ℕ) → i < 32
                    → bit_at result (2 * i) ≡ freed_bit (bit_at mine (2 * i)) theirs i }
                ensures high { k < start → (i : ℕ) → i < 32
                    → bit_at result (2 * i + 1) ≡ freed_bit (bit_at mine (2 * i + 1)) theirs i }
                ensures within { start ≤ k → (i : ℕ) → i < 64 → 64 * (k - start) + i < outputs
                    → bit_at result i ≡ max (bit_at mine i) (1 - bit_at theirs i) }
                ensures past { start ≤ k → (i : ℕ) → i < 64 → outputs ≤ 64 * (k - start) + i
                    → bit_at result i ≡ bit_at mine i }
            {
                if k < start {
                    freed_word(mine, theirs)
                } else {
                    or_not_word(outputs, k - start, mine, theirs)
                }
            },
        )?;
        Ok(Some(Cube {
            shape: self.shape,
            words,
        }))
    }

    /// The smallest cube that holds both (the supercube): the symbols that both have, `-` where
    /// they differ, and the outputs of either.
    pub fn join(&self, other: &Cube) -> Result<Cube, AllocError>
        requires { SameSize self.now other.now }
        ensures value { IfOk result (λ c. c ≡ supercube self.now other.now) }
        ensures size { IfOk result (λ c. SameSize c self.now) }
        ensures inline { word_count self.now ≤ 4 → IsOk result }
    {
        let words = zip_words(
            *self.words.allocator(),
            self.words(),
            other.words(),
            |_, mine, theirs| mine | theirs,
        )?;
        Ok(Cube {
            shape: self.shape,
            words,
        })
    }

    /// The consensus at the outputs: the cube with the symbols of both and the outputs of either,
    /// or `None` if no point matches the symbols of both.
    pub fn output_consensus(&self, other: &Cube) -> Result<Option<Cube>, AllocError>
        requires { SameSize self.now other.now }
        ensures none { IfOk result (λ found. IfNone found ((point : List Bool)
            → IsTrue (matches self.now.symbols point)
            → IsTrue (matches other.now.symbols point) → ⊥)) }
        ensures size { IfOk result (λ found. IfSome found (λ c. SameSize c self.now)) }
        ensures places { IfOk result (λ found. IfSome found (λ c. (p : Place)
            → holds c p ≡ ((matches self.now.symbols p.point && matches other.now.symbols p.point)
            && (slice_index_or self.now.outputs p.output false
            || slice_index_or other.now.outputs p.output false)))) }
        ensures inline { word_count self.now ≤ 4 → IsOk result }
    {
        if !pairs_meet_by_lanes(self.input_part(), other.input_part()) {
            return Ok(None);
        }
        let start = input_words(self.shape);
        let words = zip_words(
            *self.words.allocator(),
            self.words(),
            other.words(),
            |k, mine, theirs| {
                if k < start {
                    mine & theirs
                } else {
                    mine | theirs
                }
            },
        )?;
        Ok(Some(Cube {
            shape: self.shape,
            words,
        }))
    }

    /// This cube with `symbol` at input `i`, and otherwise as it is.
    #[inline(always)]
    pub fn with_symbol(&self, i: usize, symbol: Symbol) -> Result<Cube, AllocError>
        requires { i < length self.now.symbols }
        ensures value { IfOk result (λ c. c ≡ cube_with_symbol self.now i symbol) }
        ensures size { IfOk result (λ c. SameSize c self.now) }
        ensures inline { word_count self.now ≤ 4 → IsOk result }
    {
        let mut copy = self.try_clone()?;
        copy.set_symbol(i, symbol);
        Ok(copy)
    }

    /// Puts `symbol` at input `i`, and leaves the rest as it is. It takes no memory.
    #[inline(always)]
    pub fn set_symbol(&mut self, i: usize, symbol: Symbol)
        requires { i < length self.old.symbols }
        ensures { self.new ≡ cube_with_symbol self.old i symbol }
    {
        let at = 2 * (i % 32);
        let words = self.words.as_mut_slice();
        let word = with_bit(words[i / 32], at, symbol.allows(false));
        words[i / 32] = with_bit(word, at + 1, symbol.allows(true));
    }

    /// An equal cube.
    #[inline(always)]
    pub fn try_clone(&self) -> Result<Cube, AllocError>
        ensures value { IfOk result (λ c. c ≡ self.now) }
        ensures inline { word_count self.now ≤ 4 → IsOk result }
    {
        let words = copied_words(*self.words.allocator(), self.words())?;
        Ok(Cube {
            shape: self.shape,
            words,
        })
    }

    /// The order of rows: by the symbols from the first input on, with `-` below `0` below `1`, and
    /// then by the outputs from the first on, with absent below present.
    ///
    /// The first bit that differs settles it. Of two symbols the lesser one has it, as `-` has two
    /// and `0` the lower one; of two outputs the greater one.
    #[inline(always)]
    pub fn row_cmp(&self, other: &Cube) -> Ordering
        requires { SameSize self.now other.now }
        ensures { result ≡ row_order self.now other.now }
    {
        let outputs_start = input_words(self.shape);
        let Some((word, is_set)) = first_difference(self.words(), other.words()) else {
            return Ordering::Equal;
        };
        let is_input = word < outputs_start;
        if is_set == is_input {
            Ordering::Less
        } else {
            Ordering::Greater
        }
    }

    /// The symbols at the first 32 inputs as a number, greater for symbols that are later in row
    /// order. Further inputs and the outputs do not count.
    pub fn order_key_of_32_inputs(&self) -> u64
        ensures { IsOrderKey self.now result }
    {
        reversal(self.literal_bits(0))
    }

    /// Whether the cubes are one: of one shape, with the same symbols and outputs.
    pub fn is_equal(&self, other: &Cube) -> bool
        ensures { IsTrue result ↔ self.now ≡ other.now }
    {
        if !self.has_shape_of(other) {
            return false;
        }
        first_difference(self.words(), other.words()).is_none()
    }

    // Whether the two have as many inputs and as many outputs.
    fn has_shape_of(&self, other: &Cube) -> bool
        ensures { IsTrue result ↔ SameSize self.now other.now }
    {
        let (mine, theirs) = (self.shape(), other.shape());
        mine.inputs() == theirs.inputs() && mine.outputs() == theirs.outputs()
    }

    /// The complete sum of the places that are in this cube and not in the other: all cubes that
    /// hold only such places and lie within no other such cube, in row order.
    ///
    /// If the two meet, these are this cube with the outputs that the other lacks, if any, and
    /// for each input where the other has a literal and this cube `-`, this cube with the opposite
    /// literal; such a cube comes before those at inputs to its left. So the list has at most one
    /// cube more than there are inputs.
    pub fn sharp(&self, other: &Cube) -> Result<Vec<Cube>, AllocError>
        requires { SameSize self.now other.now }
        ensures { IfOk result
            (λ rows. rows.items
            ≡ complete_sum (size_of self.now) (difference (holds self.now) (holds other.now))) }
    {
        let mut rows = Vec::new(*self.words.allocator());
        if self.disjoint(other) {
            rows.push(self.try_clone()?)?;
            return Ok(rows);
        }
        self.push_rest(other, &mut rows)?;
        self.push_pieces(other, &mut rows)?;
        Ok(rows)
    }

    // Adds this cube with the outputs that the other lacks, if there are any.
    fn push_rest(&self, other: &Cube, rows: &mut Vec<Cube>) -> Result<(), AllocError>
        requires { SameSize self.now other.now }
        ensures { OnOk result (rows.new.items ≡ rows.old.items ++ rest_rows self.now other.now) }
    {
        if self.has_outputs_beyond(other) {
            rows.push(self.without_outputs(other)?)?;
        }
        Ok(())
    }

    // Adds the pieces of this cube that opposite literals part from the other, the last input
    // first.
    fn push_pieces(&self, other: &Cube, rows: &mut Vec<Cube>) -> Result<(), AllocError>
        requires { SameSize self.now other.now }
        ensures { OnOk result (rows.new.items ≡ rows.old.items
            ++ pieces_below self.now other.now (length self.now.symbols)) }
    {
        let shape = self.shape();
        for i in (0..shape.inputs()).rev() {
            if let Some(row) = self.piece(other, i)? {
                rows.push(row)?;
            }
        }
        Ok(())
    }

    // The piece at input `i`: this cube with the literal there that is opposite to the other's;
    // `None` unless the other has a literal there and this cube none.
    fn piece(&self, other: &Cube, i: usize) -> Result<Option<Cube>, AllocError>
        requires size { SameSize self.now other.now }
        requires in_range { i < length self.now.symbols }
        ensures { IfOk result (λ found. MatchOption found (splits self.now other.now i ≡ false)
            (λ c. (splits self.now other.now i ≡ true) × (c ≡ piece_row self.now other.now i))) }
    {
        match (self.symbol(i), other.symbol(i)) {
            (Symbol::Dash, Symbol::Zero) => Ok(Some(self.with_symbol(i, Symbol::One)?)),
            (Symbol::Dash, Symbol::One) => Ok(Some(self.with_symbol(i, Symbol::Zero)?)),
            _ => Ok(None),
        }
    }

    /// Whether this cube has an output that the other lacks.
    pub fn has_outputs_beyond(&self, other: &Cube) -> bool
        requires { SameSize self.now other.now }
        ensures { IsTrue result
            ↔ IsTrue (list_any (λ b. b) (minus self.now.outputs other.now.outputs)) }
    {
        !covers_word_by_word(other.output_part(), self.output_part())
    }

    /// This cube without the outputs of the other, which has to lack an output of this one.
    pub fn without_outputs(&self, other: &Cube) -> Result<Cube, AllocError>
        requires size { SameSize self.now other.now }
        requires some { IsTrue (list_any (λ b. b) (minus self.now.outputs other.now.outputs)) }
        ensures value { IfOk result (λ c. c ≡ rest_row self.now other.now) }
        ensures inline { word_count self.now ≤ 4 → IsOk result }
    {
        let inputs_end = input_words(self.shape);
        let words = zip_words(
            *self.words.allocator(),
            self.words(),
            other.words(),
            |k, mine, theirs|
                ensures inputs { k < inputs_end → result ≡ mine }
                ensures outputs { inputs_end ≤ k → IsBitDifference result mine theirs }
            {
                if k < inputs_end {
                    mine
                } else {
                    minus_word(mine, theirs)
                }
            },
        )?;
        Ok(Cube {
            shape: self.shape,
            words,
        })
    }

    // All words: those of the inputs, and then those of the outputs.
    fn words(&self) -> &[u64]
        ensures packs { Packs self.now result.now }
        ensures some_output { (j : ℕ) × (slice_index_or self.now.outputs j false ≡ true) }
    {
        self.words.as_slice()
    }

    // The words of the inputs.
    pub(crate) fn input_part(&self) -> &[u64]
        ensures packs { PacksInputs self.now.symbols result.now }
        ensures few { length result.now ≤ 32 }
    {
        let (inputs, _) = self.words().split_at(input_words(self.shape));
        inputs
    }

    // The words of the outputs.
    fn output_part(&self) -> &[u64]
        ensures packs { PacksOutputs self.now.outputs result.now }
        ensures few { length result.now ≤ 16 }
    {
        let (_, outputs) = self.words().split_at(input_words(self.shape));
        outputs
    }
}
