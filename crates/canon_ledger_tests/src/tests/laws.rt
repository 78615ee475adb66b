//! What who has a ledger, or is lent the host's tables, knows by their laws.

ghost use Rattle.std.specs.Prelude.{◌≡◌, ◌≤◌, [], None};
ghost use Rattle.canon_handles.specs.Table.{entry_at};
ghost use Rattle.canon_ledger.specs.Handles.{stands, sum_over_tables, table_at};
ghost use Rattle.canon_ledger.specs.Ledger.{last_generation};
ghost use Rattle.canon_ledger.specs.Reached.{ledger_in};

use super::with_ledger;
use canon_ledger::{HostResourceData, HostResourceTables, KnownTypes, Ledger, ResourceTables};

/// How many handles stand while no call runs: as many as are live.
fn handles_at_rest(ledger: &Ledger) -> u64
    requires { ledger.now.handles.scopes ≡ [] }
    ensures { result ≡ sum_over_tables stands ledger.now.handles }
{
    ledger.laws();
    ledger.live()
}

#[test]
fn no_handle_stands_in_a_new_ledger(rt: HostRuntime) {
    let host = HostResourceData::new(rt.alloc());
    let told = match Ledger::new(rt.alloc(), 100, host) {
        Ok(ledger) => Some(handles_at_rest(&ledger)),
        Err(_) => None,
    };
    assert!(rt; told == Some(0));
}

/// Index 0 of the host's table names nothing.
fn zero_names_nothing(ledger: &Ledger)
    ensures { entry_at (table_at ledger.now.handles 0) 0 ≡ None }
{
    let table = ledger.host_table();
    ledger.table_laws(table);
}

/// No generation is above the last one.
fn generations_end(tables: &HostResourceTables)
    ensures { (ledger_in tables.now).host.generation ≤ last_generation }
{
    tables.laws();
}

// Asks for the laws through the host's tables.
fn through_host_tables(ledger: &mut Ledger) {
    let tables = HostResourceTables::new_host(ledger);
    generations_end(&tables);
}

// And through the tables of a call.
fn through_tables(ledger: &mut Ledger) {
    let current_scope = ledger.current();
    let tables = ResourceTables {
        ledger,
        types: KnownTypes::none(),
        current_scope,
    };
    tables.laws();
}

fn known_by_laws(ledger: &mut Ledger) -> Option<u64> {
    zero_names_nothing(ledger);
    through_host_tables(ledger);
    through_tables(ledger);
    Some(ledger.live())
}

#[test]
fn the_laws_of_a_ledger_are_known_through_the_tables(rt: HostRuntime) {
    assert!(rt; with_ledger(rt.alloc(), 3, known_by_laws) == Some(0));
}
