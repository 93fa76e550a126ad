ghost use Rattle.std.specs.Prelude.{◌≡◌, ◌<◌, ◌++◌, ◌∷◌, [], length, IfOk, OnOk, OnErr, Some, slice_get};

use cds_base::Bytes;
use std::alloc::{AllocError, Global};
use std::marker::Model;

/// Records of a store in their order, each a byte string. Seen as a list of lists of bytes.
#[derive(Debug, Drop)]
pub struct Records {
    alloc: Global,
    items: Vec<Bytes>,
}

impl Model for Records {
    ghost use Rattle.std.specs.Prelude.{List, ℕ};

    ghost Value = { List (List ℕ) };

    ghost view = { λ a. a.items.items };
}

impl Records {
    /// No record. It takes no memory.
    pub fn new(alloc: Global) -> Records
        ensures { result ≡ [] }
    {
        Records {
            alloc,
            items: Vec::new(alloc),
        }
    }

    /// How many records there are.
    pub fn len(&self) -> u64
        ensures { result ≡ length self.now }
    {
        self.items.len() as u64
    }

    /// The record at a place, which counts from 0.
    pub fn get(&self, i: u64) -> &[u8]
        requires { i < length self.now }
        ensures { slice_get self.now i ≡ Some result.now }
    {
        self.items[i as usize].as_slice()
    }

    /// Appends a record; after want of memory the records are as before.
    pub fn add(&mut self, body: &[u8]) -> Result<(), AllocError>
        ensures added { OnOk result (self.new ≡ self.old ++ body.now ∷ []) }
        ensures as_before { OnErr result (self.new ≡ self.old) }
    {
        let record = Bytes::from_vec(Vec::from_slice(self.alloc, body)?);
        self.items.push(record)?;
        Ok(())
    }

    /// The same records in memory of their own.
    pub fn copy(&self) -> Result<Records, AllocError>
        ensures { IfOk result (λ r. r ≡ self.now) }
    {
        let mut copied = Records::new(self.alloc);
        for record in self.items.iter() {
            copied.add(record.as_slice())?;
        }
        Ok(copied)
    }
}
