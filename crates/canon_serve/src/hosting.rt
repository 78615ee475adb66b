//! The data of a session's store, which its imports reach.

ghost use Rattle.std.specs.Prelude.{◌≡◌, IfOk, OnErr};
ghost use Rattle.canon_types.specs.Table.{HasTuple, shape_of};
ghost use Rattle.canon_host.specs.Forms.{outcome};
ghost use Rattle.canon_serve.specs.Asks.{AsksHost, ListsValues};

use crate::asking::{exchange, give};
use crate::images::image_copies;
use canon_host::HostStop;
use canon_relay::Channel;
use canon_resources::ResourceAny;
use canon_types::{ComponentTypes, InterfaceType, OutOfMemory, TypeFunc, TypeTupleIndex};
use canon_value::Val;
use std::alloc::Global;
use std::marker::Model;
use std::mem;

/// The channel to the functions of the host, and the list of the resources that have numbers, which stands here while a call lasts.
#[derive(Drop)]
pub struct HostState<H> {
    channel: H,
    list: Vec<ResourceAny>,
}

impl<H> Model for HostState<H> {
    ghost use Rattle.canon_serve.specs.Asks.{Hosting};

    ghost Value = { Hosting H };

    ghost view = { λ s. record { channel = s.channel; list = s.list.items } };
}

impl<H> HostState<H> {
    ghost use Rattle.std.specs.Prelude.{◌≡◌, []};

    /// Functions of the host at the other end of this channel, and no resources.
    pub fn new(alloc: Global, channel: H) -> Self
        ensures { result ≡ record { channel = channel; list = [] } }
    {
        HostState {
            channel,
            list: Vec::new(alloc),
        }
    }

    /// Exchanges the list with another.
    pub(crate) fn swap_list(&mut self, list: &mut Vec<ResourceAny>)
        ensures state { self.new ≡ record self.old { list = list.old.items } }
        ensures list { list.new.items ≡ self.old.list }
    {
        mem::swap(&mut self.list, list);
    }
}

impl<H: Channel> HostState<H> {
    /// Asks for the import of this number with these parameters, and writes its results into the slots.
    pub(crate) fn ask(
        &mut self,
        alloc: Global,
        n: u32,
        types: &ComponentTypes,
        ty: &TypeFunc,
        params: &[Val],
        slots: &mut [Val],
    ) -> Result<(), HostStop>
        ensures { AsksHost H.log n types.now ty.now self.old params.now (outcome result slots.new) self.new }
    {
        if !types.contains(&InterfaceType::Tuple(ty.params))
            || !types.contains(&InterfaceType::Tuple(ty.results))
        {
            // The types of a function are those of its table.
            return Err(HostStop::OutOfMemory);
        }
        let Ok(asked) = self.listed(alloc, types, ty.params, params) else {
            return Err(HostStop::OutOfMemory);
        };
        match exchange(alloc, &mut self.channel, n, &asked) {
            Ok(answered) => give(alloc, types, ty.results, &answered, &self.list, slots),
            Err(stop) => Err(stop),
        }
    }

    /// The image of parameters, whose resources are added to the list. Where there is none, the list stays.
    fn listed(
        &mut self,
        alloc: Global,
        types: &ComponentTypes,
        tuple: TypeTupleIndex,
        params: &[Val],
    ) -> Result<Vec<u8>, OutOfMemory>
        requires { HasTuple types.now tuple }
        ensures listed { IfOk result (λ asked. ListsValues (shape_of types.now (InterfaceType.Tuple tuple)) params.now self.old.list self.new.list asked.items) }
        ensures channel { self.new.channel ≡ self.old.channel }
        ensures same { OnErr result (self.new ≡ self.old) }
    {
        let mut list = Vec::from_slice(alloc, &self.list)?;
        let asked = image_copies(alloc, types, tuple, params, &mut list)?;
        self.list = list;
        Ok(asked)
    }
}
