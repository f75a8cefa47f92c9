//! The ON-set, the DC-set and the OFF-set as lists of cubes ([`Sets`]), which `completed` makes of a
//! description.
ghost use Rattle.std.specs.Prelude.{◌≡◌};
ghost use Rattle.pla.specs.Sets.{lists_of};

use cover::Cover;
use std::marker::Model;

/// Lists of cubes of one shape for the ON-set, the DC-set and the OFF-set.
pub struct Sets {
    on: Cover,
    dc: Cover,
    off: Cover,
}

// Written out, so that where the lists end a proof has one call.
impl Drop for Sets {
    fn drop(self) {
        let Sets {
            on: _,
            dc: _,
            off: _,
        } = self;
    }
}

impl Model for Sets {
    ghost use Rattle.std.specs.Prelude.{◌≡◌};
    ghost use Rattle.pla.specs.Sets.{SetLists, lists_of};

    ghost Value = { SetLists };

    ghost view = { λ s. lists_of s.on s.dc s.off };

    ghost invariant = { λ s. (s.dc.size ≡ s.on.size) × (s.off.size ≡ s.on.size) };
}

impl Sets {
    /// These three lists.
    pub fn new(on: Cover, dc: Cover, off: Cover) -> Sets
        requires dc_size { dc.size ≡ on.size }
        requires off_size { off.size ≡ on.size }
        ensures { result ≡ lists_of on dc off }
    {
        Sets { on, dc, off }
    }

    /// The list for the ON-set.
    pub fn on(&self) -> &Cover
        ensures { result.now ≡ record { size = self.now.size; cubes = self.now.on } }
    {
        &self.on
    }

    /// The list for the DC-set.
    pub fn dc(&self) -> &Cover
        ensures { result.now ≡ record { size = self.now.size; cubes = self.now.dc } }
    {
        &self.dc
    }

    /// The list for the OFF-set.
    pub fn off(&self) -> &Cover
        ensures { result.now ≡ record { size = self.now.size; cubes = self.now.off } }
    {
        &self.off
    }

    /// These lists with another for the ON-set.
    pub fn with_on(self, on: Cover) -> Sets
        requires { on.size ≡ self.size }
        ensures { result ≡ record self { on = on.cubes } }
    {
        let Sets { on: _, dc, off } = self;
        Sets::new(on, dc, off)
    }
}
