// The register as C sees it: each call is handed on, the record, fields and answers as numbers.
#![tactic(auto)]

ghost use Rattle.std.specs.Prelude.{◌≡◌};
ghost use Rattle.wire.specs.Numbers.{number_of};
ghost use Rattle.store.specs.Table.{BlankGives};
ghost use Rattle.steps.specs.Node.{NodeGives};
ghost use Rattle.register.specs.Boundary.{RelayLeaves, OpenLeaves, FenceLeaves, CopyLeaves, ActivateLeaves, CancelLeaves, RemoveLeaves, EnterLeaves, StartLeaves, ReadLeaves, WriteLeaves, good_call, find_number};

mod ruling;

use chain::MOST_NODES;
use numbers::{FIELDS_SIZE, RECORD_SIZE};
use ruling::ruled;
use wire::Refusal;

// ---- the node step

// On a table, a packet and an outlet, which do not overlap.
pub fn register_node_step(table: &mut [u8], packet: &[u8], outlet: &mut [u8]) -> u8
    ensures { NodeGives table.old packet.now outlet.old result table.new outlet.new }
{
    wire::number(node::step(table, packet, outlet))
}

// ---- the relay step

// The record as numbers. Dropped is the refusal, sent to the client 65536, and to a node 65536 + its id.
pub fn register_relay_step(rec: &[u32], packet: &[u8], outlet: &mut [u8]) -> u32
    ensures { RelayLeaves rec.now packet.now outlet.old result outlet.new }
{
    let o = relay::step(numbers::record_of(rec), packet, outlet);
    numbers::outcome(o.map_err(u8::from))
}

// ---- the controller steps: the record as numbers, and the tables

// The kind is 1 before, 2 after.
pub fn register_open(rec: &mut [u32], kind: u8, named: u16, fresh: u16) -> u8
    ensures { OpenLeaves rec.old kind named fresh result rec.new }
{
    if (kind == 1) | (kind == 2) {
        return ruled(rec, |c| record::open(c, kind == 2, named, fresh));
    }
    u8::from(Refusal::Broken)
}

// Fence and copy leave a table too, which the call says and no closure would.
pub fn register_fence(rec: &mut [u32], table: &mut [u8]) -> u8
    ensures { FenceLeaves rec.old table.old result rec.new table.new }
{
    let mut c = numbers::record_of(rec);
    let done = control::fence(&mut c, table);
    numbers::settle(rec, wire::number(done), c)
}

pub fn register_copy(rec: &mut [u32], slot: u16, named: &[u8], fresh: &mut [u8]) -> u8
    ensures { CopyLeaves rec.old slot named.now fresh.old result rec.new fresh.new }
{
    let mut c = numbers::record_of(rec);
    let done = control::copy(&mut c, slot, named, fresh);
    numbers::settle(rec, wire::number(done), c)
}

pub fn register_activate(rec: &mut [u32]) -> u8
    ensures { ActivateLeaves rec.old result rec.new }
{
    ruled(rec, |c| record::activate(c))
}

pub fn register_cancel(rec: &mut [u32]) -> u8
    ensures { CancelLeaves rec.old result rec.new }
{
    ruled(rec, |c| record::cancel(c))
}

pub fn register_remove(rec: &mut [u32], id: u16) -> u8
    ensures { RemoveLeaves rec.old id result rec.new }
{
    ruled(rec, |c| record::remove(c, id))
}

pub fn register_enter(rec: &[u32], table: &mut [u8], id: u16, key: &[u8; 16]) -> u8
    ensures { EnterLeaves rec.now table.old id key.now result table.new }
{
    wire::number(control::enter(numbers::record_of(rec), table, id, key))
}

// ---- at the start

// The ids in chain order.
pub fn register_start(rec: &mut [u32], ids: &[u16], count: u16) -> u8
    ensures { StartLeaves rec.old ids.now count result rec.new }
{
    if (rec.len() != RECORD_SIZE) | (MOST_NODES < ids.len()) {
        return u8::from(Refusal::Broken);
    }
    let (c, done) = chain::start(ids.len() as u8, numbers::places_of(ids), count);
    numbers::settle(rec, wire::number(done), c)
}

pub fn register_blank(table: &mut [u8], id: u16, count: u16) -> u8
    ensures { BlankGives table.old id count result table.new }
{
    wire::number(table::blank(table, id, count))
}

// ---- packets

pub fn register_packet_read(packet: &[u8], fields: &mut [u32]) -> u8
    ensures { ReadLeaves packet.now fields.old result fields.new }
{
    if fields.len() != FIELDS_SIZE {
        return u8::from(Refusal::SmallOutlet);
    }
    match packet::read(packet) {
        Ok(h) => {
            numbers::give_fields(fields, h);
            0
        }
        Err(r) => u8::from(r),
    }
}

pub fn register_packet_write(outlet: &mut [u8], fields: &[u32], key: &[u8], value: &[u8]) -> u8
    ensures { WriteLeaves outlet.old fields.now key.now value.now result outlet.new }
{
    wire::number(packet::write(outlet, numbers::head_of(fields), key, value))
}

// ---- a table alone

// 0 if it keeps the rules, or 1.
pub fn register_table_good(table: &[u8]) -> u8
    ensures { result ≡ number_of (good_call table.now) }
{
    if table::good(table) {
        0
    } else {
        u8::from(Refusal::Broken)
    }
}

// The lowest used slot that has the key, or 65536; the table is not checked.
pub fn register_find(table: &[u8], key: &[u8]) -> u32
    ensures { result ≡ find_number table.now key.now }
{
    numbers::found(table::find(table, key))
}
