//! The trail: literals that are set, in the order in which they were set, with levels and reasons; and
//! how each variable is tried when it is decided next.

use crate::numbers::{NONE, add, saturating_u32};
use crate::order::Order;
use std::alloc::{AllocError, Global};

/// The value of a literal.
#[derive(Clone, Copy, PartialEq)]
pub(crate) enum Value {
    Unset,
    True,
    False,
}

/// How a variable was set last. This stays as it is when the variable is unset.
#[derive(Clone, Copy)]
pub(crate) struct Setting {
    /// The level at which it was set.
    pub(crate) level: u32,
    /// The clause that set it, or [`NONE`] if a decision did.
    pub(crate) reason: u32,
    /// The index of its literal in the trail.
    pub(crate) position: u32,
    /// At level 0, the clause of one literal that sets it, once there is one.
    pub(crate) unit: u32,
}

// How a variable was set that never was.
const NO_SETTING: Setting = Setting {
    level: 0,
    reason: NONE,
    position: 0,
    unit: NONE,
};

// How a variable was set that is not there.
const NO_VARIABLE: Setting = Setting {
    level: NONE,
    reason: NONE,
    position: NONE,
    unit: NONE,
};

/// The literals that are set, and the order in which the others are decided.
#[derive(Drop)]
pub(crate) struct Assignment {
    // By literal.
    values: Vec<Value>,
    // By variable: how it was set last.
    settings: Vec<Setting>,
    /// By variable: whether it was false when it was set last; before that, whether it is to be
    /// tried as false.
    pub(crate) phases: Vec<bool>,
    /// The literals that are set, in the order in which they were.
    pub(crate) trail: Vec<u32>,
    // By decision level, from level 1 on: the index in the trail at which it begins.
    level_begins: Vec<u32>,
    /// How many literals of the trail were propagated; the next to propagate has this index.
    pub(crate) propagated: usize,
    /// The variables that are unset, and some that are set, the most active first.
    pub(crate) order: Order,
}

impl Assignment {
    /// No variables.
    pub(crate) fn new(alloc: Global) -> Assignment {
        Assignment {
            values: Vec::new(alloc),
            settings: Vec::new(alloc),
            phases: Vec::new(alloc),
            trail: Vec::new(alloc),
            level_begins: Vec::new(alloc),
            propagated: 0,
            order: Order::new(alloc),
        }
    }

    /// Makes room for this many variables.
    pub(crate) fn make_room(&mut self, variables: usize) -> Result<(), AllocError> {
        let literals = variables.saturating_mul(2);
        self.values.resize(literals, Value::Unset)?;
        self.settings.resize(variables, NO_SETTING)?;
        self.phases.resize(variables, false)?;
        self.trail.reserve(variables)?;
        self.level_begins.reserve(literals.saturating_add(1))?;
        self.order.make_room(variables)
    }

    /// How many variables there are.
    pub(crate) fn variables(&self) -> usize {
        self.phases.len()
    }

    /// The value of a literal; a literal that is not there is unset.
    pub(crate) fn value(&self, literal: u32) -> Value {
        let index = literal as usize;
        if index < self.values.len() {
            self.values[index]
        } else {
            Value::Unset
        }
    }

    /// How a variable was set last; [`NONE`] is each number of one that is not there.
    pub(crate) fn setting_of(&self, variable: u32) -> Setting {
        let index = variable as usize;
        if index < self.settings.len() {
            self.settings[index]
        } else {
            NO_VARIABLE
        }
    }

    /// The level at which a variable was set last; 0 if it never was, [`NONE`] if it is not there.
    pub(crate) fn level_of(&self, variable: u32) -> u32 {
        self.setting_of(variable).level
    }

    /// The clause that set a variable last, or [`NONE`] if a decision or nothing did.
    pub(crate) fn reason_of(&self, variable: u32) -> u32 {
        self.setting_of(variable).reason
    }

    /// Notes the clause of one literal that sets a variable.
    pub(crate) fn put_unit(&mut self, variable: u32, unit: u32) {
        let index = variable as usize;
        if index < self.settings.len() {
            self.settings[index].unit = unit;
        }
    }

    /// Notes whether a variable is to be tried as false when it is decided next.
    pub(crate) fn put_phase(&mut self, variable: u32, negated: bool) {
        let index = variable as usize;
        if index < self.phases.len() {
            self.phases[index] = negated;
        }
    }

    /// The current decision level; 0 before the first decision.
    pub(crate) fn current_level(&self) -> usize {
        self.level_begins.len()
    }

    /// Makes a literal true at the current level, for a clause, or by a decision if the reason is
    /// [`NONE`].
    pub(crate) fn set(&mut self, literal: u32, reason: u32) {
        self.put_values(literal, Value::True, Value::False);
        let index = (literal / 2) as usize;
        if index < self.settings.len() {
            self.settings[index] = Setting {
                level: saturating_u32(self.level_begins.len()),
                reason,
                position: saturating_u32(self.trail.len()),
                unit: NONE,
            };
        }
        add(&mut self.trail, literal);
    }

    // Gives a literal a value, and its negation another.
    fn put_values(&mut self, literal: u32, value: Value, negated: Value) {
        let (index, other) = (literal as usize, (literal ^ 1) as usize);
        if index < self.values.len() {
            self.values[index] = value;
        }
        if other < self.values.len() {
            self.values[other] = negated;
        }
    }

    /// Begins the next decision level.
    pub(crate) fn begin_level(&mut self) {
        let begin = saturating_u32(self.trail.len());
        add(&mut self.level_begins, begin);
    }

    /// Goes back to a level: unsets the literals of later ones.
    pub(crate) fn backjump(&mut self, level: usize) {
        if level >= self.level_begins.len() {
            return;
        }
        for _ in self.level_begins[level] as usize..self.trail.len() {
            if let Some(literal) = self.trail.pop() {
                self.put_values(literal, Value::Unset, Value::Unset);
                self.put_phase(literal / 2, literal % 2 == 1);
                self.order.insert(literal / 2);
            }
        }
        self.level_begins.truncate(level);
        self.propagated = self.trail.len();
    }
}
