//! What a script orders of the next calls of `realloc`.

ghost use Rattle.std.specs.Prelude.{List};

use std::alloc::Global;
use std::marker::Model;
use std::vec::IntoIter;

/// What a script orders of one call of `realloc`.
#[derive(Clone, Copy, Debug, PartialEq, Eq)]
pub enum Ordered {
    /// It answers this address, whatever was asked. It is below 2^32.
    Answer(u64),
    Trap,
    /// The allocator answers.
    Free,
}

/// Orders that are still to be followed. Contracts see their list.
#[derive(Drop)]
pub(crate) struct Orders {
    left: IntoIter<Ordered, Global>,
}

impl Model for Orders {
    ghost use Rattle.std.specs.Prelude.{List};
    ghost use Rattle.std.specs.Vec.Iter.{into_iter_items};
    ghost use Rattle.canon_scripted.specs.declared.orders.Ordered.{Ordered};
    ghost use Rattle.canon_scripted.specs.Orders.{AreNarrow};

    ghost Value = { List Ordered };

    ghost view = { λ o. into_iter_items o.left };

    ghost invariant = { λ o. AreNarrow (into_iter_items o.left) };
}

impl Orders {
    ghost use Rattle.std.specs.Prelude.{◌≡◌, drop};
    ghost use Rattle.canon_scripted.specs.Orders.{AreNarrow, IsNarrow, next_order};

    pub(crate) fn new(orders: Vec<Ordered>) -> Self
        requires { AreNarrow orders.items }
        ensures { result ≡ orders.items }
    {
        Orders {
            left: orders.into_iter(),
        }
    }

    /// The order of the next call.
    pub(crate) fn next(&mut self) -> Ordered
        ensures next { result ≡ next_order self.old }
        ensures left { self.new ≡ drop 1 self.old }
        ensures narrow { IsNarrow result }
    {
        match self.left.next() {
            Some(order) => order,
            None => Ordered::Free,
        }
    }
}
