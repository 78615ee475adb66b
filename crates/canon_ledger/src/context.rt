//! The scope of a call.

ghost use Rattle.std.specs.Prelude.{◌≡◌, ◌<◌, ◌+◌, ◌-◌, ◌^◌, OnOk, length, map, slice_get, Some, ◌++◌, ◌∷◌, []};

use canon_abi::OutOfMemory;
use canon_handles::TypedResourceIndex;
use std::alloc::Global;
use std::marker::Model;

/// The scope of a call: the own handles that are lent to it, and the number of the borrow handles
/// that it has yet to drop.
#[derive(Debug, Drop)]
pub struct CallContext {
    lenders: Vec<TypedResourceIndex>,
    tables: Vec<u32>,
    borrow_count: u64,
}

impl Model for CallContext {
    ghost use Rattle.std.specs.Prelude.{◌≡◌, ◌-◌, min, length};
    ghost use Rattle.std.specs.Vec.{vec_capacity};
    ghost use Rattle.canon_ledger.specs.Books.{Context, lenders_from};

    ghost Value = { Context };

    ghost view = { λ a. record { scope = record { lenders = lenders_from a.tables.items a.lenders.items; borrow_count = a.borrow_count }; room = min (vec_capacity a.tables - length a.tables.items) (vec_capacity a.lenders - length a.lenders.items) } };

    ghost invariant = { λ a. length a.tables.items ≡ length a.lenders.items };
}

impl CallContext {
    ghost use Rattle.canon_ledger.specs.Handles.{no_scope, is_empty_scope, one_lender_more, one_borrow_more, one_borrow_less};

    /// An empty scope.
    pub(crate) fn new(alloc: Global) -> Self
        ensures { result.scope ≡ no_scope }
    {
        CallContext {
            lenders: Vec::new(alloc),
            tables: Vec::new(alloc),
            borrow_count: 0,
        }
    }

    /// The own handles that are lent, in the order in which they were; one that is lent twice
    /// stands there twice.
    #[tactic(auto, using(crate::proofs::ContextLemmas::indexes_paired))]
    pub fn lenders(&self) -> &[TypedResourceIndex]
        ensures { result.now ≡ map (λ l. l.index) self.now.scope.lenders }
    {
        self.lenders.as_slice()
    }

    /// The number of the borrow handles that were made in this scope and stand.
    pub fn borrow_count(&self) -> u64
        ensures { result ≡ self.now.scope.borrow_count }
    {
        self.borrow_count
    }

    /// Whether nothing is lent in this scope, and no borrow handle stands.
    #[tactic(auto, using(crate::proofs::ContextLemmas::length_paired, crate::proofs::ContextLemmas::length_paired_tables))]
    pub fn is_empty(&self) -> bool
        ensures { result ≡ is_empty_scope self.now.scope }
    {
        self.lenders.is_empty() && self.borrow_count == 0
    }

    /// The number of lends.
    #[tactic(auto, using(crate::proofs::ContextLemmas::length_paired))]
    pub(crate) fn lender_count(&self) -> usize
        ensures { result ≡ length self.now.scope.lenders }
    {
        self.lenders.len()
    }

    /// A lender: the table in which the lending call found it, and its index.
    pub(crate) fn lender(&self, place: usize) -> (u32, TypedResourceIndex)
        requires { place < length self.now.scope.lenders }
        ensures { slice_get self.now.scope.lenders place ≡ Some (record { table = result.0; index = result.1 }) }
    {
        (self.tables[place], self.lenders[place])
    }

    /// Makes room for one lend.
    pub(crate) fn reserve(&mut self) -> Result<(), OutOfMemory>
        ensures scope { self.new.scope ≡ self.old.scope }
        ensures room { OnOk result (0 < self.new.room) }
    {
        if self.tables.reserve(1).is_err() {
            return Err(OutOfMemory);
        }
        if self.lenders.reserve(1).is_err() {
            return Err(OutOfMemory);
        }
        Ok(())
    }

    /// One lender more.
    #[tactic(auto, using(crate::proofs::ContextLemmas::paired_append))]
    pub(crate) fn add_lender(&mut self, table: u32, index: TypedResourceIndex)
        requires { 0 < self.old.room }
        ensures { self.new.scope ≡ one_lender_more self.old.scope (record { table = table; index = index }) }
    {
        self.tables.push_reserved(table);
        self.lenders.push_reserved(index);
    }

    /// No lenders any more.
    pub(crate) fn clear_lenders(&mut self)
        ensures { self.new.scope ≡ record { lenders = []; borrow_count = self.old.scope.borrow_count } }
    {
        self.tables.clear();
        self.lenders.clear();
    }

    /// One borrow handle more.
    pub(crate) fn add_borrow(&mut self)
        requires { self.old.scope.borrow_count + 1 < 2 ^ 64 }
        ensures { self.new.scope ≡ one_borrow_more self.old.scope }
    {
        self.borrow_count += 1;
    }

    /// One borrow handle less.
    pub(crate) fn drop_borrow(&mut self)
        requires { 0 < self.old.scope.borrow_count }
        ensures { self.new.scope ≡ one_borrow_less self.old.scope }
    {
        self.borrow_count -= 1;
    }
}
