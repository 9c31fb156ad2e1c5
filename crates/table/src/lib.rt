// The bytes of a table: its check, the slot that has a key, the parts of a slot, and what is written to a table.

#![tactic(auto)]

ghost use Rattle.std.specs.Prelude.{◌≡◌, ◌+◌, ◌≤◌, length, leb};
ghost use Rattle.be.specs.Be.{be};
ghost use Rattle.wire.specs.Numbers.{pick, code};
ghost use Rattle.store.specs.Table.{slot, row_at, slots, whole_slots, table_ok, frame_ok, find, lowest_free, head_size, BlankGives, blank_bytes};
ghost use Rattle.table.specs.Parts.{fence_part, id_part, count_part, rows_of, row_part, state_part, version_part, value_part, slot_written, slot_stored, fence_set, slot_copied};

mod rules;
mod search;

use be::Number;
use store::{HEAD_SIZE, MOST_SLOTS, ROW_SIZE, SIZE_AT, STATE_AT, State, VALUE_AT};
use wire::{KEY_SIZE, Refusal, Stamp, VALUE_SIZE, Version};

// Where the id and the slot count stand in the head.
const ID_AT: usize = 4;

const COUNT_AT: usize = 6;

// Where the session and the sequence stand in a slot.
const SESSION_AT: usize = 18;

const SEQUENCE_AT: usize = 20;

// The bytes of a slot, and a key.
type Row = [u8; ROW_SIZE];

type Key = [u8; KEY_SIZE];

// ---- the head

// The number at `at` in the head, or the other one where there is no whole head.
#[tactic(auto, unfolding(wire::specs::Numbers::pick))]
fn in_head<T: Number + Copy>(t: &[u8], at: usize, other: T) -> T
    requires { at + T.SIZE ≤ head_size }
    ensures { T.value result ≡ pick (leb head_size (length t.now)) (be T.SIZE t.now at) (T.value other) }
{
    if t.len() < HEAD_SIZE {
        other
    } else {
        be::read(t, at)
    }
}

#[tactic(auto, unfolding(crate::specs::Parts::fence_part, wire::specs::Numbers::pick))]
pub fn fence(t: &[u8]) -> Stamp
    ensures { result ≡ fence_part t.now }
{
    Stamp(in_head(t, 0, 0))
}

#[tactic(auto, unfolding(crate::specs::Parts::id_part))]
pub fn id(t: &[u8]) -> u16
    ensures { result ≡ id_part t.now }
{
    in_head(t, ID_AT, 0)
}

#[tactic(auto, unfolding(crate::specs::Parts::count_part))]
pub fn count(t: &[u8]) -> u16
    ensures { result ≡ count_part t.now }
{
    in_head(t, COUNT_AT, 0)
}

// ---- the parts of a slot, of any bytes: a state may be any byte, and is judged by the rules

// The whole slots that a slice has, a table or not.
#[tactic(auto, using(crate::proofs::Laws::chunks_rows, crate::proofs::Laws::no_rows, crate::proofs::Laws::length_rows))]
fn rows(t: &[u8]) -> &[Row]
    ensures value { result.now ≡ rows_of t.now }
    ensures len { length result.now ≡ whole_slots t.now }
{
    match t.get(HEAD_SIZE..) {
        Some(slots) => slots.as_chunks::<ROW_SIZE>().0,
        None => &[],
    }
}

// The bytes of slot i, a part of the slice; none where it has no whole slot i.
#[tactic(auto, using(crate::proofs::Laws::row_there, crate::proofs::Laws::row_nowhere))]
pub fn row(t: &[u8], i: usize) -> &[u8]
    ensures { result.now ≡ row_part t.now i }
{
    match rows(t).get(i) {
        Some(r) => r,
        None => &t[..0],
    }
}

#[tactic(auto, unfolding(wire::specs::Numbers::pick, crate::specs::Parts::state_part, store::specs::Table::slot_of))]
pub fn state(r: &[u8]) -> u8
    ensures { result ≡ state_part r.now }
{
    if r.len() == ROW_SIZE {
        r[STATE_AT]
    } else {
        State::Free as u8
    }
}

#[tactic(auto, unfolding(wire::specs::Numbers::pick, crate::specs::Parts::version_part, store::specs::Table::slot_of))]
pub fn version(r: &[u8]) -> Version
    ensures { result ≡ version_part r.now }
{
    if r.len() == ROW_SIZE {
        Version::new(be::read(r, SESSION_AT), be::read(r, SEQUENCE_AT))
    } else {
        Version::default()
    }
}

// The value, a part of the row: no more than there is, whatever the length byte says.
#[tactic(auto, unfolding(crate::specs::Parts::value_part, wire::specs::Numbers::pick))]
pub fn value(r: &[u8]) -> &[u8]
    ensures { result.now ≡ value_part r.now }
{
    if r.len() != ROW_SIZE {
        return &r[..0];
    }
    let n = usize::from(r[SIZE_AT]).min(VALUE_SIZE);
    &r[VALUE_AT..VALUE_AT + n]
}

// ---- which slot

// The lowest used slot that has the key, of a table or any other slice.
#[tactic(auto, using(crate::proofs::Laws::find_no_key))]
pub fn find(t: &[u8], key: &[u8]) -> Option<usize>
    ensures { result ≡ find key.now (slots (whole_slots t.now) t.now) }
{
    search::scan(rows(t), key.as_array()?)
}

pub fn lowest_free(t: &[u8]) -> Option<usize>
    ensures { result ≡ lowest_free (slots (whole_slots t.now) t.now) }
{
    rows(t)
        .iter()
        .position(|r| r[STATE_AT] == State::Free as u8)
}

// ---- the check

#[tactic(auto, using(crate::proofs::Laws::frame_parts))]
fn frame_ok(t: &[u8]) -> bool
    ensures { result ≡ frame_ok t.now }
{
    let n = usize::from(count(t));
    (id(t) != 0) & (((0 < n) & (n <= MOST_SLOTS)) & (t.len() == HEAD_SIZE + ROW_SIZE * n))
}

// Whether a slice is a table that keeps the rules.
pub fn good(t: &[u8]) -> bool
    ensures { result ≡ table_ok t.now }
{
    frame_ok(t) && rows(t).iter().all(rules::row_ok)
}

// ---- what is written

// The slot writer: writes all of a row that is lent to it, and nothing where the part, the key or the value has no right length.
// The zeros come first, and all of them: a fixed count takes eight stores and no call.
pub fn write_slot(part: &mut [u8], key: &[u8], state: u8, v: Version, value: &[u8])
    ensures { part.new ≡ slot_written part.old (slot key.now state v value.now) }
{
    if (part.len() == ROW_SIZE) & ((key.len() == KEY_SIZE) & (value.len() <= VALUE_SIZE)) {
        be::put_zeros(part, VALUE_AT, VALUE_SIZE);
        be::put_bytes(part, 0, key);
        part[STATE_AT] = state;
        part[SIZE_AT] = value.len() as u8;
        be::put(part, SESSION_AT, v.session.0);
        be::put(part, SEQUENCE_AT, v.sequence.0);
        be::put_bytes(part, VALUE_AT, value);
    }
}

// Slot i of a table: only its bytes are lent to the slot writer.
#[tactic(auto, unfolding(crate::specs::Parts::slot_stored, wire::specs::Numbers::pick))]
pub fn store(t: &mut [u8], i: usize, key: &[u8], state: u8, v: Version, value: &[u8])
    ensures { t.new ≡ slot_stored t.old i (slot key.now state v value.now) }
{
    if i < rows(t).len() {
        let at = HEAD_SIZE + ROW_SIZE * i;
        write_slot(&mut t[at..at + ROW_SIZE], key, state, v, value);
    }
}

#[tactic(auto, unfolding(wire::specs::Numbers::pick, crate::specs::Parts::fence_set))]
pub fn set_fence(t: &mut [u8], n: Stamp)
    ensures { t.new ≡ fence_set t.old n }
{
    if HEAD_SIZE <= t.len() {
        be::put(t, 0, n.0);
    }
}

// Slot i of one table to slot i of another.
#[tactic(auto, using(crate::proofs::Laws::copied, crate::proofs::Laws::not_copied, crate::proofs::Laws::row_got, store::proofs::Rows::length_row))]
pub fn copy_slot(from: &[u8], to: &mut [u8], i: usize)
    ensures { to.new ≡ slot_copied from.now to.old i }
{
    if i < rows(to).len() {
        if let Some(r) = rows(from).get(i) {
            be::put_bytes(to, HEAD_SIZE + ROW_SIZE * i, r);
        }
    }
}

fn clear(t: &mut [u8], id: u16, n: u16)
    requires { length t.old ≡ row_at n }
    ensures { t.new ≡ blank_bytes id n }
{
    let all = t.len();
    be::put_zeros(t, 0, all);
    be::put(t, ID_AT, id);
    be::put(t, COUNT_AT, n);
}

// Makes a blank table of the slice, or writes nothing.
#[tactic(auto, unfolding(store::specs::Table::blank_call, wire::specs::Numbers::guard))]
pub fn blank(t: &mut [u8], id: u16, count: u16) -> Result<(), Refusal>
    ensures { BlankGives t.old id count (code result) t.new }
{
    let n = usize::from(count);
    if (id == 0) | ((n == 0) | ((MOST_SLOTS < n) | (t.len() != HEAD_SIZE + ROW_SIZE * n))) {
        return Err(Refusal::Broken);
    }
    clear(t, id, count);
    Ok(())
}
