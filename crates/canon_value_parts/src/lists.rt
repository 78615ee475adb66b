//! Lists that grow.

ghost use Rattle.std.specs.Prelude.{◌≡◌, ◌++◌, ◌∷◌, [], IfErr, OnOk};

use canon_context::Fault;

/// Adds an item at the end.
pub fn keep<T: Drop>(items: &mut Vec<T>, item: T) -> Result<(), Fault>
    ensures ok { OnOk result (items.new.items ≡ items.old.items ++ item ∷ []) }
    ensures only_memory { IfErr result (λ e. e ≡ Fault.OutOfMemory) }
{
    match items.push(item) {
        Ok(()) => Ok(()),
        Err(_) => Err(Fault::OutOfMemory),
    }
}
