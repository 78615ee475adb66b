//! A component: its types, canonical options, exports and imports.

ghost use Rattle.std.specs.Prelude.{◌≡◌, ◌↔◌, All, IsTrue};
ghost use Rattle.canon_context.specs.Component.{IsComponent, IsHostImport, IsImport, IsInside};

use canon_types::{
    CanonicalOptions, InstanceType, InterfaceType, OptionsIndex, TypeFuncIndex,
    TypeResourceTableIndex,
};

/// A function that a component gives: its type, its core function and its options.
#[derive(Clone, Copy, Debug, PartialEq, Eq)]
pub struct Export {
    /// Its type, in the component's table.
    pub ty: TypeFuncIndex,
    /// The number of its core function, by which the guest is started.
    pub func: u32,
    /// The options that it is lifted under.
    pub options: OptionsIndex,
}

/// What a component's core functions may ask for by its number: a function of the host, or a call on the handles of a resource type.
#[derive(Clone, Copy, Debug, PartialEq, Eq)]
pub enum Import {
    /// A function of the host, of a function type under options (CanonicalABI.md, "canon lower").
    Host {
        ty: TypeFuncIndex,
        options: OptionsIndex,
    },
    /// A new own handle of a representation (CanonicalABI.md, "canon resource.new").
    ResourceNew(TypeResourceTableIndex),
    /// The representation of a handle (CanonicalABI.md, "canon resource.rep").
    ResourceRep(TypeResourceTableIndex),
    /// The end of a handle (CanonicalABI.md, "canon resource.drop"). The guest runs the destructor itself: it gets
    /// `2 * rep + 1` where there is a representation to end, else 0.
    ResourceDrop(TypeResourceTableIndex),
}

/// What a component has: its types, the options of its functions, its exports, and its imports.
#[derive(Drop)]
pub struct Component {
    /// The table of its types, in its store.
    pub types: InstanceType,
    /// The options that exports and imports name.
    pub options: Vec<CanonicalOptions>,
    /// What it gives, by the number of an `ExportIndex`.
    pub exports: Vec<Export>,
    /// What its core functions may ask for, by its number.
    pub imports: Vec<Import>,
}

impl Component {
    /// Whether all indexes of its exports and imports are inside their tables, and no function of the host is async, by its type
    /// or its options. It is a condition of `Core::new`.
    pub fn check(&self) -> bool
        ensures { IsTrue result ↔ IsComponent self.now }
    {
        self.has_exports() && self.has_imports()
    }

    // Whether the exports' are.
    fn has_exports(&self) -> bool
        ensures { IsTrue result ↔ All (IsInside self.now) self.now.exports.items }
    {
        self.exports.iter().all(|export| {
            self.types.types().contains_func(export.ty)
                && (export.options.as_u32() as usize) < self.options.len()
        })
    }

    // Whether the imports' are.
    fn has_imports(&self) -> bool
        ensures { IsTrue result ↔ All (IsImport self.now) self.now.imports.items }
    {
        self.imports.iter().all(|import| self.has_import(import))
    }

    // Whether an import's are.
    fn has_import(&self, import: &Import) -> bool
        ensures { IsTrue result ↔ IsImport self.now import.now }
    {
        match *import {
            Import::Host { ty, options } => self.has_host_import(ty, options),
            Import::ResourceNew(ty) | Import::ResourceRep(ty) | Import::ResourceDrop(ty) => {
                self.types.types().contains(&InterfaceType::Own(ty))
            }
        }
    }

    // Whether those of a function of the host are, and it isn't async.
    fn has_host_import(&self, ty: TypeFuncIndex, options: OptionsIndex) -> bool
        ensures { IsTrue result ↔ IsHostImport self.now ty options }
    {
        let types = self.types.types();
        let Some(options) = self.options.get(options.as_u32() as usize) else {
            return false;
        };
        types.contains_func(ty) && !types.func(ty).async_ && !options.async_
    }
}
