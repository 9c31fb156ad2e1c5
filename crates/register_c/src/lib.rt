// The archive that C links: one export for each call of `register`, under its name and with its promise.
#![tactic(auto)]

ghost use Rattle.std.specs.Prelude.{◌≡◌};
ghost use Rattle.wire.specs.Numbers.{number_of};
ghost use Rattle.store.specs.Table.{BlankGives};
ghost use Rattle.steps.specs.Node.{NodeGives};
ghost use Rattle.register.specs.Boundary.{RelayLeaves, OpenLeaves, FenceLeaves, CopyLeaves, ActivateLeaves, CancelLeaves, RemoveLeaves, EnterLeaves, StartLeaves, ReadLeaves, WriteLeaves, good_call, find_number};

// ---- the node step

// On a table, a packet and an outlet, which do not overlap.
#[unsafe(no_mangle)]
pub extern "C" fn register_node_step(table: &mut [u8], packet: &[u8], outlet: &mut [u8]) -> u8
    ensures { NodeGives table.old packet.now outlet.old result table.new outlet.new }
{
    register::register_node_step(table, packet, outlet)
}

// ---- the relay step

// The record as numbers. Dropped is the refusal, sent to the client 65536, and to a node 65536 + its id.
#[unsafe(no_mangle)]
pub extern "C" fn register_relay_step(rec: &[u32], packet: &[u8], outlet: &mut [u8]) -> u32
    ensures { RelayLeaves rec.now packet.now outlet.old result outlet.new }
{
    register::register_relay_step(rec, packet, outlet)
}

// ---- the controller steps: the record as numbers, and the tables

// The kind is 1 before, 2 after.
#[unsafe(no_mangle)]
pub extern "C" fn register_open(rec: &mut [u32], kind: u8, named: u16, fresh: u16) -> u8
    ensures { OpenLeaves rec.old kind named fresh result rec.new }
{
    register::register_open(rec, kind, named, fresh)
}

#[unsafe(no_mangle)]
pub extern "C" fn register_fence(rec: &mut [u32], table: &mut [u8]) -> u8
    ensures { FenceLeaves rec.old table.old result rec.new table.new }
{
    register::register_fence(rec, table)
}

#[unsafe(no_mangle)]
pub extern "C" fn register_copy(rec: &mut [u32], slot: u16, named: &[u8], fresh: &mut [u8]) -> u8
    ensures { CopyLeaves rec.old slot named.now fresh.old result rec.new fresh.new }
{
    register::register_copy(rec, slot, named, fresh)
}

#[unsafe(no_mangle)]
pub extern "C" fn register_activate(rec: &mut [u32]) -> u8
    ensures { ActivateLeaves rec.old result rec.new }
{
    register::register_activate(rec)
}

#[unsafe(no_mangle)]
pub extern "C" fn register_cancel(rec: &mut [u32]) -> u8
    ensures { CancelLeaves rec.old result rec.new }
{
    register::register_cancel(rec)
}

#[unsafe(no_mangle)]
pub extern "C" fn register_remove(rec: &mut [u32], id: u16) -> u8
    ensures { RemoveLeaves rec.old id result rec.new }
{
    register::register_remove(rec, id)
}

#[unsafe(no_mangle)]
pub extern "C" fn register_enter(rec: &[u32], table: &mut [u8], id: u16, key: &[u8; 16]) -> u8
    ensures { EnterLeaves rec.now table.old id key.now result table.new }
{
    register::register_enter(rec, table, id, key)
}

// ---- at the start

// The ids in chain order.
#[unsafe(no_mangle)]
pub extern "C" fn register_start(rec: &mut [u32], ids: &[u16], count: u16) -> u8
    ensures { StartLeaves rec.old ids.now count result rec.new }
{
    register::register_start(rec, ids, count)
}

#[unsafe(no_mangle)]
pub extern "C" fn register_blank(table: &mut [u8], id: u16, count: u16) -> u8
    ensures { BlankGives table.old id count result table.new }
{
    register::register_blank(table, id, count)
}

// ---- packets

#[unsafe(no_mangle)]
pub extern "C" fn register_packet_read(packet: &[u8], fields: &mut [u32]) -> u8
    ensures { ReadLeaves packet.now fields.old result fields.new }
{
    register::register_packet_read(packet, fields)
}

#[unsafe(no_mangle)]
pub extern "C" fn register_packet_write(
    outlet: &mut [u8],
    fields: &[u32],
    key: &[u8],
    value: &[u8],
) -> u8
    ensures { WriteLeaves outlet.old fields.now key.now value.now result outlet.new }
{
    register::register_packet_write(outlet, fields, key, value)
}

// ---- a table alone

// 0 if it keeps the rules, or 1.
#[unsafe(no_mangle)]
pub extern "C" fn register_table_good(table: &[u8]) -> u8
    ensures { result ≡ number_of (good_call table.now) }
{
    register::register_table_good(table)
}

// The lowest used slot that has the key, or 65536; the table is not checked.
#[unsafe(no_mangle)]
pub extern "C" fn register_find(table: &[u8], key: &[u8]) -> u32
    ensures { result ≡ find_number table.now key.now }
{
    register::register_find(table, key)
}
