//! The numbers of inputs and outputs.
ghost use Rattle.std.specs.Prelude.{◌≡◌, ◌↔◌, IsSome, IfSome};
ghost use Rattle.cube.specs.Size.{Size};
ghost use Rattle.cube.specs.Limits.{IsWithinLimits, format_limits};

use crate::limits::{INPUTS, OUTPUTS};
use std::marker::Model;

/// How many inputs and outputs a cube has: 0 to [`INPUTS`] inputs and 1 to [`OUTPUTS`] outputs.
#[derive(Clone, Copy, PartialEq, Eq, Debug)]
pub struct Shape {
    inputs: usize,
    outputs: usize,
}

impl Model for Shape {
    ghost use Rattle.cube.specs.Size.{Size};
    ghost use Rattle.cube.specs.Limits.{IsWithinLimits, format_limits};

    ghost Value = { Size };

    ghost view = { λ s. record { inputs = s.inputs; outputs = s.outputs } };

    ghost invariant = { λ s. IsWithinLimits format_limits
        (record { inputs = s.inputs; outputs = s.outputs }) };

    ghost inverse = { λ s. record { inputs = s.inputs; outputs = s.outputs } };
}

impl Shape {
    /// The shape with these numbers, or `None` if one is outside its limits.
    pub fn new(inputs: usize, outputs: usize) -> Option<Shape>
        ensures limits { IsSome result
            ↔ IsWithinLimits format_limits (record { inputs = inputs; outputs = outputs }) }
        ensures inputs { IfSome result (λ s. s.inputs ≡ inputs) }
        ensures outputs { IfSome result (λ s. s.outputs ≡ outputs) }
    {
        if inputs <= INPUTS && outputs >= 1 && outputs <= OUTPUTS {
            Some(Shape { inputs, outputs })
        } else {
            None
        }
    }

    /// The number of inputs.
    pub fn inputs(&self) -> usize
        ensures value { result ≡ self.now.inputs }
        ensures limits { IsWithinLimits format_limits self.now }
    {
        self.inputs
    }

    /// The number of outputs.
    pub fn outputs(&self) -> usize
        ensures value { result ≡ self.now.outputs }
        ensures limits { IsWithinLimits format_limits self.now }
    {
        self.outputs
    }
}
