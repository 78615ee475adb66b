//! The component that the guest implements.

ghost use Rattle.std.specs.Prelude.{◌≡◌, ◌∷◌, [], IfOk, None, false};
ghost use Rattle.canon_example.specs.Component.{IsNotes};

use crate::{Failure, notes};
use canon_types::{
    CanonicalOptions, HostType, InstanceType, InterfaceType, OptionsIndex, RecordField,
    ResourceKind, RuntimeInstance, StoreId, StringEncoding, TypeBuilder, TypeFuncIndex,
    TypeResourceTable, TypeResourceTableIndex,
};
use canon_value::{Component, Export, Import};
use std::alloc::Global;

/// The export that adds a note.
pub const ADD: u32 = 0;

/// The export that counts the notes.
pub const COUNT: u32 = 1;

/// The export whose core function lies about where the note is.
pub const BROKEN: u32 = 2;

/// A notebook of the host. The guest gets handles of it, and never sees what it is.
pub struct Notebook;

impl HostType for Notebook {
    // No other host type of the program may have this number: handles of the two would pass for one another.
    ghost ID = { 1 };

    const ID: u32 = 1;
}

/// The types that the component's functions name.
#[derive(Clone, Copy)]
struct Named {
    notebook: TypeResourceTableIndex,
    clock: TypeFuncIndex,
    add: TypeFuncIndex,
    count: TypeFuncIndex,
}

/// Adds the type of a note.
fn note_type(alloc: Global, builder: &mut TypeBuilder) -> Result<InterfaceType, Failure> {
    let note = vec![in alloc;
        field(alloc, "title", InterfaceType::String)?,
        field(alloc, "words", InterfaceType::U32)?,
        field(alloc, "time", InterfaceType::U32)?,
    ]?;
    Ok(builder.add_record(note)?)
}

/// Adds the types to the table.
fn add_types(alloc: Global, builder: &mut TypeBuilder) -> Result<Named, Failure> {
    let note = note_type(alloc, builder)?;
    let notebook = builder.add_resource_table(TypeResourceTable {
        instance: RuntimeInstance::from_u32(0),
        kind: ResourceKind::Host(Notebook::ID),
        defined_here: false,
    })?;
    let number = [InterfaceType::U32];
    let text = vec![in alloc; InterfaceType::String]?;
    let add = builder.add_func(text, vec![in alloc; note]?, false)?;
    let book = vec![in alloc; InterfaceType::Borrow(notebook)]?;
    let count = builder.add_func(book, number.to_vec(alloc)?, false)?;
    let clock = builder.add_func(Vec::new(alloc), number.to_vec(alloc)?, false)?;
    Ok(Named {
        notebook,
        clock,
        add,
        count,
    })
}

/// A field of a record.
fn field(alloc: Global, name: &str, ty: InterfaceType) -> Result<RecordField, Failure> {
    let name = String::from_str(alloc, name)?;
    Ok(RecordField { name, ty })
}

/// The component, as WIT would say it:
///
/// ```wit
/// record note { title: string, words: u32, time: u32 }
/// resource notebook;
/// import clock: func() -> u32;
/// export add: func(text: string) -> note;
/// export count: func(book: borrow<notebook>) -> u32;
/// export broken: func(text: string) -> note;
/// ```
pub fn component_of(alloc: Global, id: StoreId) -> Result<Component, Failure>
    ensures parts { IfOk result (IsNotes id) }
    ensures options { IfOk result (λ component. component.options.items ≡ record { instance = 0; string_encoding = StringEncoding.Utf8; async_ = false; post_return = None } ∷ []) }
{
    let plain = CanonicalOptions {
        instance: RuntimeInstance::from_u32(0),
        string_encoding: StringEncoding::Utf8,
        async_: false,
        post_return: None,
    };
    let plain = vec![in alloc; plain]?;
    let mut builder = TypeBuilder::new(alloc);
    let named = add_types(alloc, &mut builder)?;
    let options = OptionsIndex::from_u32(0);
    let export = |ty, func| Export { ty, func, options };
    let exports = vec![in alloc;
        export(named.add, notes::ADD),
        export(named.count, notes::COUNT),
        export(named.add, notes::BROKEN),
    ]?;
    // What the guest's code may ask for: a function of the host, and the end of a handle.
    let clock = Import::Host {
        ty: named.clock,
        options,
    };
    let drop = Import::ResourceDrop(named.notebook);
    let imports = vec![in alloc; clock, drop]?;
    Ok(Component {
        types: InstanceType::new(builder.finish(), id),
        options: plain,
        exports,
        imports,
    })
}
