//! The components of a method.
ghost use Rattle.std.specs.Prelude.{◌≡◌, length, option_copied, slice_get};

use cds_base::Name;
use std::marker::Model;

/// A component that a method looks for: its name, its expected time and how far from it a peak may lie, both in
/// milliseconds. Components are numbered from 1 in their order.
#[derive(Clone, Copy, Debug, PartialEq, Eq)]
pub struct Component {
    pub name: Name,
    pub time_ms: u32,
    pub window_ms: u32,
}

/// Components in their order. Seen as a list.
#[derive(Debug, Drop)]
pub struct ComponentList {
    items: Vec<Component>,
}

impl Model for ComponentList {
    ghost use Rattle.std.specs.Prelude.{List};
    ghost use Rattle.cds_rules.specs.declared.component.Component.{Component};

    ghost Value = { List Component };

    ghost view = { λ a. a.items.items };
}

impl ComponentList {
    /// The list of these items. It takes no memory.
    pub fn from_vec(items: Vec<Component>) -> ComponentList
        ensures { result ≡ items.items }
    {
        ComponentList { items }
    }

    /// The components in their order.
    pub fn as_slice(&self) -> &[Component]
        ensures { result.now ≡ self.now }
    {
        self.items.as_slice()
    }

    /// How many components there are.
    pub fn len(&self) -> usize
        ensures { result ≡ length self.now }
    {
        self.items.len()
    }

    /// The component at a place, counted from 0. None exactly where there are not so many.
    pub fn get(&self, i: usize) -> Option<&Component>
        ensures { option_copied result ≡ slice_get self.now i }
    {
        self.items.get(i)
    }
}
