// Packets in bytes: reading one, its key and its value as parts of it, and writing one.
#![tactic(auto)]

ghost use Rattle.std.specs.Prelude.{◌≡◌, ◌≤◌, length, take, drop};
ghost use Rattle.wire.specs.Numbers.{said};
ghost use Rattle.wire.specs.Packet.{front_size, key_size, value_size, outlet_size, head_of, key_of, value_of, shape_ok, head_ok, well_formed, read_call, key_part, value_part, packet, packet_ok, sent_in, WriteGives};
ghost use Rattle.packet.specs.Emit.{emitted};

use wire::{
    Answer, FRONT_SIZE, Head, KEY_SIZE, OUTLET_SIZE, Op, Refusal, Stamp, VALUE_SIZE, Version,
};

// Where a field stands, a zero byte among them, and the key.
const OP_AT: usize = 0;

const ANSWER_AT: usize = 1;

const FROM_AT: usize = 2;

const TO_AT: usize = 4;

const CLIENT_AT: usize = 6;

const REQUEST_AT: usize = 8;

const STAMP_AT: usize = 12;

const SESSION_AT: usize = 16;

const LENGTH_AT: usize = 18;

const ZERO_AT: usize = 19;

const SEQUENCE_AT: usize = 20;

const KEY_AT: usize = 24;

#[tactic(auto, unfolding(wire::specs::Packet::head_of))]
fn fields(p: &[u8]) -> Head
    requires { front_size ≤ length p.now }
    ensures { result ≡ head_of p.now }
{
    Head {
        op: p[OP_AT],
        answer: p[ANSWER_AT],
        from: be::read(p, FROM_AT),
        to: be::read(p, TO_AT),
        client: be::read(p, CLIENT_AT),
        request: be::read(p, REQUEST_AT),
        stamp: Stamp(be::read(p, STAMP_AT)),
        version: Version::new(be::read(p, SESSION_AT), be::read(p, SEQUENCE_AT)),
        length: p[LENGTH_AT],
    }
}

// The bytes of the answers and the ops: a pattern takes a constant.
const QUERY: u8 = Answer::Query as u8;

const VALUE: u8 = Answer::Value as u8;

const NO_VALUE: u8 = Answer::NoValue as u8;

const NO_KEY: u8 = Answer::NoKey as u8;

const WRITTEN: u8 = Answer::Written as u8;

const READ: u8 = Op::Read as u8;

const WRITE: u8 = Op::Write as u8;

const DELETE: u8 = Op::Delete as u8;

// The table of cases: answer, op, length, version.
fn shape_ok(answer: u8, op: u8, n: u8, v: Version) -> bool
    ensures { result ≡ shape_ok answer op n v }
{
    let empty = n == 0;
    match (answer, op) {
        (QUERY, READ) => empty & v.is_zero(),
        (QUERY, WRITE) => v.is_orderly(),
        (QUERY, DELETE) => empty & v.is_orderly(),
        (VALUE, READ) => v.is_given(),
        (NO_VALUE, READ) => empty & (v.is_zero() | v.is_given()),
        (NO_KEY, READ | WRITE | DELETE) => empty & v.is_zero(),
        (WRITTEN, WRITE | DELETE) => empty & v.is_given(),
        _ => false,
    }
}

#[tactic(auto, unfolding(wire::specs::Packet::head_ok))]
fn head_ok(h: Head) -> bool
    ensures { result ≡ head_ok h }
{
    (usize::from(h.length) <= VALUE_SIZE) & shape_ok(h.answer, h.op, h.length, h.version)
}

#[tactic(auto, unfolding(wire::specs::Packet::well_formed))]
fn well_formed(p: &[u8]) -> bool
    ensures { result ≡ well_formed p.now }
{
    (FRONT_SIZE <= p.len())
        && ((p.len() == FRONT_SIZE + usize::from(p[LENGTH_AT]))
            & ((p[ZERO_AT] == 0) & head_ok(fields(p))))
}

// The fields of a packet.
#[tactic(auto, unfolding(wire::specs::Packet::read_call, wire::specs::Packet::well_formed, wire::specs::Numbers::guard))]
pub fn read(p: &[u8]) -> Result<Head, Refusal>
    ensures { said result ≡ read_call p.now }
{
    if well_formed(p) {
        Ok(fields(p))
    } else {
        Err(Refusal::Malformed)
    }
}

// The n bytes from `at` on, or those of them that there are.
fn part(p: &[u8], at: usize, n: usize) -> &[u8]
    ensures { result.now ≡ take n (drop at p.now) }
{
    match p.get(at..) {
        Some(rest) => &rest[..n.min(rest.len())],
        None => &p[..0],
    }
}

// The part of any slice that holds the key of a packet.
#[tactic(auto, unfolding(wire::specs::Packet::key_of))]
pub fn key_of(p: &[u8]) -> &[u8]
    ensures { result.now ≡ key_of p.now }
{
    part(p, KEY_AT, KEY_SIZE)
}

// The part of any slice that holds the value of a packet.
#[tactic(auto, unfolding(wire::specs::Packet::value_of))]
pub fn value_of(p: &[u8]) -> &[u8]
    ensures { result.now ≡ value_of p.now }
{
    match p.get(LENGTH_AT) {
        Some(n) => part(p, FRONT_SIZE, usize::from(*n)),
        None => &p[..0],
    }
}

// The part that shows a packet's key; nothing of what is no packet.
#[tactic(auto, unfolding(wire::specs::Packet::key_part, wire::specs::Numbers::pick))]
pub fn key(p: &[u8]) -> &[u8]
    ensures { result.now ≡ key_part p.now }
{
    if well_formed(p) { key_of(p) } else { &p[..0] }
}

// The part that shows a packet's value; nothing of what is no packet.
#[tactic(auto, unfolding(wire::specs::Packet::value_part, wire::specs::Numbers::pick))]
pub fn value(p: &[u8]) -> &[u8]
    ensures { result.now ≡ value_part p.now }
{
    if well_formed(p) { value_of(p) } else { &p[..0] }
}

#[tactic(auto, unfolding(wire::specs::Packet::packet_ok))]
fn packet_ok(h: Head, key: &[u8], value: &[u8]) -> bool
    ensures { result ≡ packet_ok (packet h key.now value.now) }
{
    head_ok(h) & ((key.len() == KEY_SIZE) & (value.len() == usize::from(h.length)))
}

// Op to value, one behind the other; an outlet may be larger, and what is behind stays. A head is made, key and value are parts of other slices: nothing
// has all three.
fn put_packet(out: &mut [u8], h: Head, key: &[u8], value: &[u8])
    requires { (outlet_size ≤ length out.old) × (length key.now ≡ key_size) × (length value.now ≤ value_size) }
    ensures { out.new ≡ sent_in out.old (packet h key.now value.now) }
{
    be::put(out, OP_AT, h.op);
    be::put(out, ANSWER_AT, h.answer);
    be::put(out, FROM_AT, h.from);
    be::put(out, TO_AT, h.to);
    be::put(out, CLIENT_AT, h.client);
    be::put(out, REQUEST_AT, h.request);
    be::put(out, STAMP_AT, h.stamp.0);
    be::put(out, SESSION_AT, h.version.session.0);
    be::put(out, LENGTH_AT, h.length);
    be::put(out, ZERO_AT, 0u8);
    be::put(out, SEQUENCE_AT, h.version.sequence.0);
    be::put_bytes(out, KEY_AT, key);
    be::put_bytes(out, FRONT_SIZE, value);
}

// A packet that the caller made: its bytes go into an outlet that is large enough, if key and value have lengths of a packet; else nothing does.
#[tactic(auto, unfolding(crate::specs::Emit::emitted, crate::specs::Emit::room, wire::specs::Numbers::pick))]
pub fn emit(out: &mut [u8], h: Head, key: &[u8], value: &[u8])
    ensures { out.new ≡ emitted out.old (packet h key.now value.now) }
{
    if (OUTLET_SIZE <= out.len()) & ((key.len() == KEY_SIZE) & (value.len() <= VALUE_SIZE)) {
        put_packet(out, h, key, value);
    }
}

// A packet of anybody: judged, and written if it is one.
#[tactic(auto, unfolding(wire::specs::Packet::write_call, wire::specs::Numbers::guard))]
pub fn write(out: &mut [u8], h: Head, key: &[u8], value: &[u8]) -> Result<(), Refusal>
    ensures { WriteGives out.old (packet h key.now value.now) (said result) out.new }
{
    if out.len() < OUTLET_SIZE {
        return Err(Refusal::SmallOutlet);
    }
    if packet_ok(h, key, value) {
        put_packet(out, h, key, value);
        Ok(())
    } else {
        Err(Refusal::Malformed)
    }
}
