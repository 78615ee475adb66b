//! What a function of the host reaches of a core.

ghost use Rattle.std.specs.Prelude.{◌≡◌, ◌≤◌, ◌^◌, IfSome, length, slice_get};
ghost use Rattle.canon_types.specs.Table.{HasFunc};
ghost use Rattle.canon_context.specs.Core.{component_types};
ghost use Rattle.canon_context.specs.Host.{Gave, HostSteps, Keeps, StaticGave, StaticKeeps, lenders_in};

use super::Core;
use crate::host::{call, call_static};
use crate::{HostStop, HostView, MemoryView};
use canon_ledger::{HostResourceTables, KnownTypes, ResourceTables};
use canon_types::{TypeFunc, TypeFuncIndex};

impl<T, G> Core<T, G> {
    /// The memory, with the component and the number of the store.
    pub fn view(&self) -> MemoryView<'_>
        ensures memory { result.bytes.now ≡ self.now.memory }
        ensures component { result.component.now ≡ self.now.component }
        ensures id { result.id ≡ self.now.id }
    {
        MemoryView {
            bytes: self.memory.as_slice(),
            component: &self.component,
            id: self.id,
        }
    }

    /// Calls a function of the host once, over the core's data, its resource tables outside any call and its memory.
    pub fn host_call<
        X,
        F: Fn(&mut HostView<'_, '_, T>, &TypeFunc, &[X], &mut [X]) -> Result<(), HostStop>,
    >(&mut self, f: &F, ty: TypeFuncIndex, params: &[X], results: &mut [X]) -> Result<(), HostStop>
        requires keeps { Keeps F.Fn f.now }
        requires func { HasFunc (component_types self.old) ty }
        ensures gave { IfSome (slice_get (component_types self.old).funcs ty) (λ t. Gave F.Fn f.now self.old self.new t params.now results.old result results.new) }
        ensures steps { HostSteps self.old.ledger self.new.ledger }
        ensures scopes { lenders_in self.new.ledger ≡ lenders_in self.old.ledger }
        ensures slots { length results.new ≡ length results.old }
        ensures same { self.new ≡ record self.old { state = self.new.state; ledger = self.new.ledger } }
    {
        let func = *self.component.types.types().func(ty);
        let mut view = HostView {
            state: &mut self.state,
            tables: HostResourceTables {
                tables: ResourceTables {
                    ledger: &mut self.ledger,
                    types: KnownTypes::none(),
                    current_scope: None,
                },
            },
            memory: MemoryView {
                bytes: self.memory.as_slice(),
                component: &self.component,
                id: self.id,
            },
        };
        call(f, &mut view, &func, params, results)
    }

    /// The same of a function over Rust types.
    pub fn host_call_static<P, R, F: Fn(&mut HostView<'_, '_, T>, P) -> Result<R, HostStop>>(
        &mut self,
        f: &F,
        params: P,
    ) -> Result<R, HostStop>
        requires keeps { StaticKeeps F.Fn f.now }
        ensures gave { StaticGave F.Fn f.now self.old self.new params result }
        ensures steps { HostSteps self.old.ledger self.new.ledger }
        ensures scopes { lenders_in self.new.ledger ≡ lenders_in self.old.ledger }
        ensures same { self.new ≡ record self.old { state = self.new.state; ledger = self.new.ledger } }
    {
        let mut view = HostView {
            state: &mut self.state,
            tables: HostResourceTables {
                tables: ResourceTables {
                    ledger: &mut self.ledger,
                    types: KnownTypes::none(),
                    current_scope: None,
                },
            },
            memory: MemoryView {
                bytes: self.memory.as_slice(),
                component: &self.component,
                id: self.id,
            },
        };
        call_static(f, &mut view, params)
    }
}
