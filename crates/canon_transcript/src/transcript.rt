//! What a played script leaves: a record for each of its items.

ghost use Rattle.std.specs.Prelude.{◌≡◌, List, [], ◌∷◌, ◌++◌, OnOk, OnErr};
ghost use Rattle.canon_transcript.specs.declared.transcript.Record.{Record};

use canon_abi::OutOfMemory;
use canon_func::Error;
use canon_memory::Events;
use canon_val::Val;
use std::alloc::Global;
use std::marker::Model;

/// What an item of a script was: a call of this function, one with Rust types, a new resource of the host, or a drop of the resource of
/// this number.
#[derive(Clone, Copy, Debug, PartialEq, Eq)]
pub enum Head {
    Call(u32),
    Typed(u32),
    New,
    Drop(u32),
}

/// What an item answered: its results (the resource that it made, of a new one), why it failed, that the Rust types of a typed call are
/// not the function's, or that it was not done.
#[derive(Debug, Drop)]
pub enum Answer {
    Ok(Vec<Val>),
    Err(Error),
    Typecheck,
    Skipped,
}

/// An ask that a function of the host served: the number of the import, the parameters and the results.
pub type Served = (u32, Vec<Val>, Vec<Val>);

/// What an item did.
#[derive(Debug, Drop)]
pub struct Record {
    /// Which item it was.
    pub head: Head,
    /// What the guest was asked and did, in order.
    pub events: Events,
    /// The asks that functions of the host served, in order.
    pub served: Vec<Served>,
    /// How it ended.
    pub answer: Answer,
    /// How many handles live after the item.
    pub live: u64,
}

/// The records of a run, in order.
#[derive(Debug, Drop)]
pub struct Transcript {
    records: Vec<Record>,
}

impl Model for Transcript {
    ghost use Rattle.std.specs.Prelude.{List};
    ghost use Rattle.canon_transcript.specs.declared.transcript.Record.{Record};
    ghost use Rattle.canon_val.specs.contracts.val.Val as val;
    ghost use Rattle.std.specs.Coded.{codes};

    ghost Value = { List Record };

    ghost view = { λ t. t.records.items };

    ghost coded = { Prim.hlevel (codes, val.the_row.coded) };
}

impl Transcript {
    /// An empty transcript.
    pub fn new(alloc: Global) -> Self
        ensures { result ≡ [] }
    {
        Transcript {
            records: Vec::new(alloc),
        }
    }

    /// The records, in order.
    pub fn records(&self) -> &[Record]
        ensures { result.now ≡ self.now }
    {
        &self.records
    }

    /// The records, in order, taken out of it.
    pub fn into_records(self) -> Vec<Record>
        ensures { result.items ≡ self }
    {
        self.records
    }

    /// Adds a record at the end.
    pub fn push(&mut self, item: Record) -> Result<(), OutOfMemory>
        ensures ok { OnOk result (self.new ≡ self.old ++ item ∷ []) }
        ensures err { OnErr result (self.new ≡ self.old) }
    {
        self.records.push(item)?;
        Ok(())
    }
}
