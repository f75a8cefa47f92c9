//! The printed row of a cube.
ghost use Rattle.std.specs.Prelude.{◌≡◌, ◌≤◌, length, take};
ghost use Rattle.pla.specs.Text.{row_text};

use cube::Cube;
use cube::limits::{INPUTS, OUTPUTS};

/// The longest row: the inputs, a space, the outputs and a line feed.
pub const ROW_BYTES: usize = INPUTS + 1 + OUTPUTS + 1;

/// Writes a cube's row at the front of the bytes, and answers how long it is. `mark` is written for
/// an output in the cube, `other` for any other.
pub fn put_row(row: &mut [u8], cube: &Cube, mark: u8, other: u8) -> usize
    requires { ROW_BYTES ≤ length row.old }
    ensures fits { result ≤ length row.new }
    ensures text { take result row.new ≡ row_text mark other cube.now }
{
    let shape = cube.shape();
    let inputs = shape.inputs();
    let end = inputs + 1 + shape.outputs();
    cube.put_symbols(row, b'-', b'0', b'1');
    row[inputs] = b' ';
    cube.put_outputs(&mut row[inputs + 1..], mark, other);
    row[end] = b'\n';
    end + 1
}
