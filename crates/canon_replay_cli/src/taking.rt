//! The calls of a script that was played, as a recording.

ghost use Rattle.std.specs.Prelude.{◌≡◌, ◌↔◌, IfOk, map};
ghost use Rattle.canon_script.specs.Script.{call_item, call_item_view, item_view};
ghost use Rattle.canon_recording.specs.Recordings.{calls_in, served_ask, served_asks};
ghost use Rattle.canon_replay_cli.specs.Taken.{IsTakenCall, TakesCalls, asked_of_served, breaks_law, orders_address, reallocs_in};

use canon_memory::Event;
use canon_recording::{Recorded, Recording, Served};
use canon_script::{CallItem, Item};
use canon_scripted::Ordered;
use canon_transcript::{Answer, Record};
use canon_types::OutOfMemory;
use std::alloc::Global;

/// The recording of the calls that answered Ok, up to the first that didn't or whose guest broke the law of `realloc` by order of the script.
pub(crate) fn recording_of(
    alloc: Global,
    items: Vec<Item>,
    records: Vec<Record>,
) -> Result<Recording, OutOfMemory>
    ensures takes { IfOk result (λ r. TakesCalls (map item_view items.items) records.items (calls_in r)) }
{
    let mut calls = Vec::new(alloc);
    let mut records = records.into_iter();
    for item in items {
        let played = match records.next() {
            Some(played) => played,
            None => return Ok(Recording { calls }),
        };
        let call = match recorded_of(alloc, item, played)? {
            Some(call) => call,
            None => return Ok(Recording { calls }),
        };
        calls.push(call)?;
    }
    Ok(Recording { calls })
}

/// The call of an item and of what it did, unless it didn't answer Ok, or its guest broke the law of `realloc` by order of the script.
fn recorded_of(alloc: Global, item: Item, played: Record) -> Result<Option<Recorded>, OutOfMemory>
    ensures taken { IfOk result (λ o. IsTakenCall (item_view item) played o) }
{
    match item {
        Item::Call(call) => recorded_call(alloc, call, played),
        Item::Typed(_) | Item::New(_) | Item::Drop(_) => Ok(None),
    }
}

/// The same of a call.
fn recorded_call(
    alloc: Global,
    call: CallItem,
    played: Record,
) -> Result<Option<Recorded>, OutOfMemory>
    ensures taken { IfOk result (λ o. IsTakenCall (call_item (call_item_view call)) played o) }
{
    let Record {
        events,
        served,
        answer,
        ..
    } = played;
    if breaks_law(&call.reallocs, events.as_slice()) {
        return Ok(None);
    }
    let results = match answer {
        Answer::Ok(results) => results,
        Answer::Err(_) | Answer::Typecheck | Answer::Skipped => return Ok(None),
    };
    let CallItem { func, params, .. } = call;
    let served = served_of(alloc, served)?;
    Ok(Some(Recorded {
        export: func,
        params,
        events,
        served,
        results,
    }))
}

/// The asks that were served, as a recording keeps them.
fn served_of(
    alloc: Global,
    served: Vec<canon_transcript::Served>,
) -> Result<Vec<Served>, OutOfMemory>
    ensures { IfOk result (λ asks. served_asks asks.items ≡ map asked_of_served served.items) }
{
    let mut asks = Vec::with_capacity(alloc, served.len())?;
    for entry in served {
        asks.push(ask_of(entry))?;
    }
    Ok(asks)
}

fn ask_of(entry: canon_transcript::Served) -> Served
    ensures { served_ask result ≡ asked_of_served entry }
{
    let (import, params, results) = entry;
    Served {
        import,
        params,
        results,
    }
}

/// Whether `realloc` answered an address by order of the script, which breaks its law.
fn breaks_law(orders: &[Ordered], events: &[Event]) -> bool
    ensures { result ≡ breaks_law orders.now events.now }
{
    let followed = reallocs_in(events).min(orders.len());
    orders_address(&orders[..followed])
}

/// Whether an address is among these orders.
fn orders_address(orders: &[Ordered]) -> bool
    ensures { result ≡ orders_address orders.now }
{
    for order in orders {
        if let Ordered::Answer(_) = order {
            return true;
        }
    }
    false
}

/// How often `realloc` answered.
fn reallocs_in(events: &[Event]) -> usize
    ensures { result ≡ reallocs_in events.now }
{
    let mut count = 0;
    for event in events {
        if let Event::Realloc { .. } = event {
            count += 1;
        }
    }
    count
}
