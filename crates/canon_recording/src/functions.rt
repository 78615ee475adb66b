//! The types of a component's exports and imports.

ghost use Rattle.std.specs.Prelude.{◌≡◌, ◌<◌, length};
ghost use Rattle.canon_context.specs.Component.{IsComponent};
ghost use Rattle.canon_types.specs.Table.{IsOver, param_members, result_members};
ghost use Rattle.canon_recording.specs.Fits.{IsRecordable};
ghost use Rattle.canon_recording.specs.Recordings.{exports_of, imports_of};

use canon_context::{Component, Import};
use canon_types::TypeFunc;

/// The type of an export.
pub(crate) fn export_type(c: &Component, export: u32) -> TypeFunc
    requires sound { IsComponent c.now }
    requires known { export < length c.now.exports.items }
    ensures over { IsOver c.now.types.types result }
    ensures params { (exports_of c.now).params export ≡ param_members c.now.types.types result }
    ensures results { (exports_of c.now).results export ≡ result_members c.now.types.types result }
{
    *c.types.types().func(c.exports[export as usize].ty)
}

/// The type of an import that is a function of the host.
pub(crate) fn import_type(c: &Component, import: u32) -> TypeFunc
    requires sound { IsComponent c.now }
    requires recordable { IsRecordable c.now }
    requires known { import < length c.now.imports.items }
    ensures over { IsOver c.now.types.types result }
    ensures params { (imports_of c.now).params import ≡ param_members c.now.types.types result }
    ensures results { (imports_of c.now).results import ≡ result_members c.now.types.types result }
{
    match &c.imports[import as usize] {
        Import::Host { ty, .. } => *c.types.types().func(*ty),
        _ => unreachable!(),
    }
}

/// How many imports a component has.
pub(crate) fn import_count(c: &Component) -> u64
    ensures { result ≡ (imports_of c.now).count }
{
    c.imports.len() as u64
}

/// How many exports it has.
pub(crate) fn export_count(c: &Component) -> u64
    ensures { result ≡ (exports_of c.now).count }
{
    c.exports.len() as u64
}
