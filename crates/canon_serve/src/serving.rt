//! Hears commands and tells what came of them, until the session ends.

ghost use Rattle.std.specs.Prelude.{◌≡◌, IfSome, IsNone};
ghost use Rattle.canon_relay.specs.Channel.{AddsMessages};
ghost use Rattle.canon_relay.specs.Relay.{PassesMessages};
ghost use Rattle.canon_serve.specs.Carries.{CarriesOutCommand, both_logs, session};
ghost use Rattle.canon_serve.specs.Messages.{answer_messages};
ghost use Rattle.canon_serve.specs.Sessions.{CutsCommand, EndsSession, EndsUnbegun, IsSession, ServesOne, ServesUntil, ToldOrCut, unheard_end};

use crate::answer::{Answer, Senseless, tell_answer};
use crate::begin::{NoStore, store_of};
use crate::command::{Command, Unheard, hear_command};
use crate::session::{EngineStore, carry_out};
use canon_func::Error;
use canon_relay::Channel;
use canon_resources::ResourceAny;
use canon_value::Fault;
use std::alloc::Global;

/// Why a session ended.
#[derive(Clone, Copy, Debug, PartialEq, Eq)]
pub enum End {
    /// The caller ended it.
    Asked,
    /// The caller's channel failed, or brought more commands than a session has: 2^64 - 1.
    Broken,
    /// The caller gave no component.
    NoComponent,
    /// The engine didn't put the component's data into memory.
    NotInstantiated,
    OutOfMemory,
}

/// Serves one session: hears the component of the caller, has the engine instantiate it, and carries out the caller's commands until it
/// ends the session. The engine runs the component's code, and the host serves its imports.
pub fn serve<E: Channel + Drop, H: Channel + Drop, P: Channel>(
    alloc: Global,
    engine: E,
    host: H,
    caller: &mut P,
) -> End
    ensures { IsSession (both_logs E.log H.log) engine host (P.log caller.old) (P.log caller.new) result }
{
    let command = match hear_command(alloc, caller) {
        Ok(command) => command,
        Err(why) => return unheard(why),
    };
    let Command::Begin {
        watches_all,
        keeps_events,
        json,
    } = command
    else {
        let answer = Answer::Senseless(Senseless::NoCommand);
        return end_with(alloc, caller, &answer, End::NoComponent);
    };
    let mut store = match store_of(alloc, engine, host, watches_all, keeps_events, &json) {
        Ok(store) => store,
        Err(why) => return end_unbegun(alloc, caller, why),
    };
    let answer = Answer::Done(Vec::new(alloc));
    if !tell_answer(alloc, caller, &answer) {
        return End::Broken;
    }
    let mut list = Vec::new(alloc);
    serve_store(alloc, &mut store, &mut list, caller)
}

/// How a session ends in which nothing more was heard.
fn unheard(why: Unheard) -> End
    ensures { result ≡ unheard_end why }
{
    match why {
        Unheard::Broken => End::Broken,
        Unheard::OutOfMemory => End::OutOfMemory,
    }
}

/// Tells an answer, with which the session ends so.
fn end_with<P: Channel>(alloc: Global, caller: &mut P, answer: &Answer, end: End) -> End
    ensures { ToldOrCut answer.now end (P.log caller.old) (P.log caller.new) result }
{
    if tell_answer(alloc, caller, answer) {
        end
    } else {
        End::Broken
    }
}

/// Tells the caller why its component isn't served.
fn end_unbegun<P: Channel>(alloc: Global, caller: &mut P, why: NoStore) -> End
    ensures { EndsUnbegun why (P.log caller.old) (P.log caller.new) result }
{
    match why {
        NoStore::NoComponent => {
            let answer = Answer::Senseless(Senseless::NoComponent);
            end_with(alloc, caller, &answer, End::NoComponent)
        }
        NoStore::NotInstantiated => {
            let answer = Answer::Refused(Error::Fault(Fault::GuestTrap));
            end_with(alloc, caller, &answer, End::NotInstantiated)
        }
        NoStore::OutOfMemory => End::OutOfMemory,
    }
}

/// Serves commands until the caller ends the session.
fn serve_store<E: Channel, H: Channel, P: Channel>(
    alloc: Global,
    store: &mut EngineStore<E, H>,
    list: &mut Vec<ResourceAny>,
    caller: &mut P,
) -> End
    ensures { ServesUntil (both_logs E.log H.log) (P.log caller.old) (P.log caller.new) (session store.old list.old.items) result }
{
    for _ in 0..u64::MAX {
        if let Some(end) = serve_next(alloc, store, list, caller) {
            return end;
        }
    }
    End::Broken
}

/// Serves one command. Answers how the session ended, where it did.
fn serve_next<E: Channel, H: Channel, P: Channel>(
    alloc: Global,
    store: &mut EngineStore<E, H>,
    list: &mut Vec<ResourceAny>,
    caller: &mut P,
) -> Option<End>
    ensures one { IsNone result → ServesOne (both_logs E.log H.log) (P.log caller.old) (P.log caller.new) (session store.old list.old.items) (session store.new list.new.items) }
    ensures ends { IfSome result (λ why. PassesMessages (P.log caller.old) (P.log caller.new) (EndsSession (both_logs E.log H.log) why (session store.old list.old.items))) }
{
    let command = match hear_command(alloc, caller) {
        Ok(command) => command,
        Err(why) => return Some(unheard(why)),
    };
    match command {
        Command::End => Some(End::Asked),
        _ => serve_command(alloc, store, list, caller, &command),
    }
}

/// Carries out a command that was heard, and tells its answer. Answers how the session ended, where it did.
fn serve_command<E: Channel, H: Channel, P: Channel>(
    alloc: Global,
    store: &mut EngineStore<E, H>,
    list: &mut Vec<ResourceAny>,
    caller: &mut P,
    command: &Command,
) -> Option<End>
    ensures served { IsNone result → (a : Answer) × CarriesOutCommand (both_logs E.log H.log) command.now (session store.old list.old.items) (session store.new list.new.items) a × AddsMessages (P.log caller.old) (P.log caller.new) (answer_messages a) }
    ensures cut { IfSome result (λ why. CutsCommand (both_logs E.log H.log) why command.now (session store.old list.old.items) (session store.new list.new.items) (P.log caller.old) (P.log caller.new)) }
{
    match carry_out(alloc, store, list, command) {
        Ok(answer) => {
            if tell_answer(alloc, caller, &answer) {
                None
            } else {
                Some(End::Broken)
            }
        }
        Err(_) => Some(End::OutOfMemory),
    }
}
