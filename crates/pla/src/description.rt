//! What a file says, once it is read ([`Pla`]).
ghost use Rattle.std.specs.Prelude.{◌≡◌, None};
ghost use Rattle.pla.specs.Names.{lent_names, owned_names};

use crate::file_type::FileType;
use cover::Cover;
use cube::Shape;
use std::marker::Model;

/// The description that a file gives: the numbers of inputs and outputs, names if it has them, the
/// type of its rows, and the three lists as the rows gave them, in their order and with repeats.
pub struct Pla {
    shape: Shape,
    input_names: Option<Vec<Vec<u8>>>,
    output_names: Option<Vec<Vec<u8>>>,
    file_type: FileType,
    on: Cover,
    dc: Cover,
    off: Cover,
}

// Written out, so that where a description ends a proof has one call, and no case for each of its names.
impl Drop for Pla {
    fn drop(self) {
        let Pla {
            shape: _,
            input_names: _,
            output_names: _,
            file_type: _,
            on: _,
            dc: _,
            off: _,
        } = self;
    }
}

impl Model for Pla {
    ghost use Rattle.std.specs.Prelude.{◌≡◌};
    ghost use Rattle.pla.specs.Description.{Description};
    ghost use Rattle.pla.specs.Names.{owned_names};

    ghost Value = { Description };

    ghost view = { λ p. record {
      size = p.shape;
      input_names = owned_names p.input_names;
      output_names = owned_names p.output_names;
      file_type = p.file_type;
      on = p.on.cubes;
      dc = p.dc.cubes;
      off = p.off.cubes;
    } };

    ghost invariant = { λ p. (p.on.size ≡ p.shape) × (p.dc.size ≡ p.shape)
        × (p.off.size ≡ p.shape) };
}

impl Pla {
    /// The description with these parts.
    pub(crate) fn new(
        shape: Shape,
        input_names: Option<Vec<Vec<u8>>>,
        output_names: Option<Vec<Vec<u8>>>,
        file_type: FileType,
        on: Cover,
        dc: Cover,
        off: Cover,
    ) -> Pla
        requires on_size { on.size ≡ shape }
        requires dc_size { dc.size ≡ shape }
        requires off_size { off.size ≡ shape }
        ensures { result ≡ record {
          size = shape;
          input_names = owned_names input_names;
          output_names = owned_names output_names;
          file_type = file_type;
          on = on.cubes;
          dc = dc.cubes;
          off = off.cubes;
        } }
    {
        Pla {
            shape,
            input_names,
            output_names,
            file_type,
            on,
            dc,
            off,
        }
    }

    /// This description with other lists, and without its names.
    pub fn with_lists(&self, on: Cover, dc: Cover, off: Cover) -> Pla
        requires on_size { on.size ≡ self.now.size }
        requires dc_size { dc.size ≡ self.now.size }
        requires off_size { off.size ≡ self.now.size }
        ensures { result ≡ record {
          size = self.now.size;
          input_names = None;
          output_names = None;
          file_type = self.now.file_type;
          on = on.cubes;
          dc = dc.cubes;
          off = off.cubes;
        } }
    {
        Pla::new(self.shape, None, None, self.file_type, on, dc, off)
    }

    /// The numbers of inputs and outputs.
    pub fn shape(&self) -> Shape
        ensures { result ≡ self.now.size }
    {
        self.shape
    }

    /// The names of the inputs, in their order, if the file gives them. They are bytes, and may
    /// repeat.
    pub fn input_names(&self) -> Option<&[Vec<u8>]>
        ensures { lent_names result ≡ self.now.input_names }
    {
        lend(&self.input_names)
    }

    /// The names of the outputs, in their order, if the file gives them. They are bytes, and may
    /// repeat.
    pub fn output_names(&self) -> Option<&[Vec<u8>]>
        ensures { lent_names result ≡ self.now.output_names }
    {
        lend(&self.output_names)
    }

    /// The type of the file's rows; fd if the file does not say.
    pub fn file_type(&self) -> FileType
        ensures { result ≡ self.now.file_type }
    {
        self.file_type
    }

    /// The list that the rows gave for the ON-set.
    pub fn on(&self) -> &Cover
        ensures { result.now ≡ record { size = self.now.size; cubes = self.now.on } }
    {
        &self.on
    }

    /// The list that the rows gave for the DC-set, empty under f and fr.
    pub fn dc(&self) -> &Cover
        ensures { result.now ≡ record { size = self.now.size; cubes = self.now.dc } }
    {
        &self.dc
    }

    /// The list that the rows gave for the OFF-set, empty under f and fd.
    pub fn off(&self) -> &Cover
        ensures { result.now ≡ record { size = self.now.size; cubes = self.now.off } }
    {
        &self.off
    }
}

// The names, borrowed; `None` if there are none.
fn lend(names: &Option<Vec<Vec<u8>>>) -> Option<&[Vec<u8>]>
    ensures { lent_names result ≡ owned_names names.now }
{
    match names {
        Some(names) => Some(names.as_slice()),
        None => None,
    }
}
