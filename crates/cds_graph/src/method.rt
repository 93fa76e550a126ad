//! Methods that were read from their texts.
ghost use Rattle.std.specs.Prelude.{◌≡◌, IfOk, IsTrue, is_ok};
ghost use Rattle.cds_rules.specs.Fields.{fields_of};
ghost use Rattle.cds_rules.specs.Stated.{stated};
ghost use Rattle.cds_graph.specs.Recorded.{fields_stated};

use cds_base::{Name, NoMemory};
use cds_rules::Method;
use std::alloc::Global;

/// What a method is found by.
#[derive(Clone, Copy, Debug)]
pub struct MethodKey {
    /// The name of the method.
    pub name: Name,
    /// The version, counted from 1.
    pub version: u32,
}

/// A version of a method, read once, so that its text isn't read for each row.
#[derive(Debug, Drop)]
pub struct MethodNode {
    /// The name of the method.
    pub name: Name,
    /// The version, counted from 1.
    pub version: u32,
    /// What its text states.
    pub method: Method,
}

impl MethodNode {
    /// The version of a method that has this text, which is the text of a method. The only refusal is want of memory.
    pub fn read(
        alloc: Global,
        name: Name,
        version: u32,
        text: &[u8],
    ) -> Result<MethodNode, NoMemory>
        requires { IsTrue (is_ok (stated text.now)) }
        ensures named { IfOk result (λ node. (node.name ≡ name) × (node.version ≡ version)) }
        ensures value { IfOk result (λ node. fields_of node.method ≡ fields_stated text.now) }
    {
        let Ok(method) = Method::read_toml(alloc, text) else {
            return Err(NoMemory);
        };
        Ok(MethodNode {
            name,
            version,
            method,
        })
    }
}
