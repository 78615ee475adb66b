//! The types of a component, or none.

ghost use Rattle.std.specs.Prelude.{◌≡◌, None, Some, option_map};
ghost use Rattle.canon_ledger.specs.Places.{first_type};

use canon_types::ComponentTypes;

/// The types of the component that a call is of, or none outside any. They stand in a slice of at
/// most one table, since a struct with a `&mut` beside an `Option` of a reference doesn't show its
/// lender what it left.
#[derive(Clone, Copy)]
pub struct KnownTypes<'a> {
    /// The table of the types, or nothing.
    pub list: &'a [ComponentTypes],
}

impl<'a> KnownTypes<'a> {
    /// No types.
    pub fn none() -> KnownTypes<'a>
        ensures { first_type result.list.now ≡ None }
    {
        KnownTypes { list: &[] }
    }

    /// The types of a component.
    pub fn of(types: &'a ComponentTypes) -> KnownTypes<'a>
        ensures { first_type result.list.now ≡ Some types.now }
    {
        KnownTypes {
            list: std::slice::from_ref(types),
        }
    }

    /// The types, where there are some.
    pub fn get(&self) -> Option<&'a ComponentTypes>
        ensures { option_map (λ t. t.now) result ≡ first_type self.now.list.now }
    {
        self.list.first()
    }
}
