//! Names in a row.

ghost use Rattle.std.specs.Prelude.{◌≡◌, ◌↔◌, IsTrue};
ghost use Rattle.canon_types.specs.Keeps.{names_of};

/// Whether these names are the same, in the same order.
pub(crate) fn are_same_names(names: &[String], others: &[String]) -> bool
    ensures { IsTrue result ↔ (names_of names.now ≡ names_of others.now) }
{
    names == others
}
