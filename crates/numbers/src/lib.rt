// The chain record, the fields of a packet and the answers of the calls, as numbers, as they cross to C.

#![tactic(auto)]

ghost use Rattle.std.specs.Prelude.{◌≡◌, get_or};
ghost use Rattle.numbers.specs.Record.{top_byte, top_id, within, low_bits, change_fits, record_fits, record_or, places_made, joining_made, chain_of, change_of, Stands, kind_of, numbers_of, Settles, places_of};
ghost use Rattle.numbers.specs.Fields.{fields_fit, head_from, FieldsStand, head_or, fields_of, fields_given};
ghost use Rattle.numbers.specs.Answers.{numbered, outcome_code, found_code};

use std::array;
use steps::{Chain, Change, Destination, Joining};
use wire::{Head, Sequence, Session, Stamp, Version};

pub const RECORD_SIZE: usize = 18;

pub const FIELDS_SIZE: usize = 10;

const TOP_BYTE: u32 = 255;

const TOP_ID: u32 = 65535;

const CLIENT_CODE: u32 = 65536;

const NO_SLOT: u32 = 65536;

// A record that breaks the rules; of a derived default less would be known.
const NO_RECORD: Chain = Chain {
    length: 0,
    places: [0; 8],
    wiring: Stamp(0),
    session: Session(0),
    highest: 0,
    count: 0,
    change: Change::Still,
};

// Fields of no packet.
const NO_HEAD: Head = Head {
    op: 0,
    answer: 0,
    from: 0,
    to: 0,
    client: 0,
    request: 0,
    stamp: Stamp(0),
    version: Version {
        session: Session(0),
        sequence: Sequence(0),
    },
    length: 0,
};

// The numbers of a record, and those of a packet's fields, by their places as include/register.h has them.
type Record = [u32; RECORD_SIZE];

type Fields = [u32; FIELDS_SIZE];

// The low 16 bits of a number. No cast drops bits, so that each width says how.
fn id(n: u32) -> u16
    ensures { result ≡ low_bits top_id n }
{
    (n % (TOP_ID + 1)) as u16
}

// The low 8 bits.
fn byte(n: u32) -> u8
    ensures { result ≡ low_bits top_byte n }
{
    (n % (TOP_BYTE + 1)) as u8
}

// ---- the record, coming in

// Each of the eight is tested, with no way out before: a relay step asks this of every record.
fn places_fit(l: &Record) -> bool
    ensures { result ≡ within top_id 8 l.now 1 }
{
    (l[1] <= TOP_ID)
        & (l[2] <= TOP_ID)
        & (l[3] <= TOP_ID)
        & (l[4] <= TOP_ID)
        & (l[5] <= TOP_ID)
        & (l[6] <= TOP_ID)
        & (l[7] <= TOP_ID)
        & (l[8] <= TOP_ID)
}

fn change_fits(l: &Record) -> bool
    ensures { result ≡ change_fits l.now }
{
    (l[13] == 0)
        | ((l[13] <= 2)
            & (((l[14] <= TOP_ID) & (l[15] <= TOP_ID)) & ((l[16] <= 1) & (l[17] <= TOP_ID))))
}

fn fits(l: &Record) -> bool
    ensures { result ≡ record_fits l.now }
{
    (l[0] <= TOP_BYTE)
        & (places_fit(l)
            & (((l[10] <= TOP_ID) & (l[11] <= TOP_ID) & (l[12] <= TOP_ID)) & change_fits(l)))
}

fn places_at(l: &Record) -> [u16; 8]
    ensures { result ≡ places_made l.now }
{
    array::from_fn(|i| id(l[1 + i]))
}

fn change_of(kind: u32, j: Joining) -> Change
    ensures { result ≡ change_of kind j }
{
    match kind {
        0 => Change::Still,
        1 => Change::Before(j),
        _ => Change::After(j),
    }
}

fn joining_at(l: &Record) -> Joining
    ensures { result ≡ joining_made l.now }
{
    Joining {
        named: id(l[14]),
        fresh: id(l[15]),
        fenced: l[16] == 1,
        next: id(l[17]),
    }
}

fn chain_at(l: &Record) -> Chain
    requires { Stands l.now }
    ensures { result ≡ chain_of l.now }
{
    Chain {
        length: byte(l[0]),
        places: places_at(l),
        wiring: Stamp(l[9]),
        session: Session(id(l[10])),
        highest: id(l[11]),
        count: id(l[12]),
        change: change_of(l[13], joining_at(l)),
    }
}

// The record that numbers stand for; where they stand for none, one that breaks the rules, so that every step refuses it with 1. It is inlined:
// called, activate and remove took about 20 ns more, open and cancel 3 ns.
#[inline(always)]
pub fn record_of(l: &[u32]) -> Chain
    ensures { result ≡ record_or l.now }
{
    let Ok(l) = <&Record>::try_from(l) else {
        return NO_RECORD;
    };
    if fits(l) { chain_at(l) } else { NO_RECORD }
}

// ---- the record, going out

fn kind_of(ch: Change) -> u32
    ensures { result ≡ kind_of ch }
{
    match ch {
        Change::Still => 0,
        Change::Before(_) => 1,
        Change::After(_) => 2,
    }
}

#[tactic(auto, unfolding(crate::specs::Record::numbers_of))]
fn numbers_of(c: Chain) -> Record
    ensures { result ≡ numbers_of c }
{
    let [p1, p2, p3, p4, p5, p6, p7, p8] = c.places;
    let j = c.change.joining().unwrap_or_default();
    [
        u32::from(c.length),
        u32::from(p1),
        u32::from(p2),
        u32::from(p3),
        u32::from(p4),
        u32::from(p5),
        u32::from(p6),
        u32::from(p7),
        u32::from(p8),
        c.wiring.0,
        u32::from(c.session.0),
        u32::from(c.highest),
        u32::from(c.count),
        kind_of(c.change),
        u32::from(j.named),
        u32::from(j.fresh),
        u32::from(j.fenced),
        u32::from(j.next),
    ]
}

// After a step on the record: its number, any number, and where it is 0 the numbers of the record that it left.
pub fn settle(l: &mut [u32], number: u8, c: Chain) -> u8
    ensures { Settles l.old number c result l.new }
{
    if (number == 0) & (l.len() == RECORD_SIZE) {
        l.copy_from_slice(&numbers_of(c));
    }
    number
}

// ---- ids in chain order

fn id_or(ids: &[u16], i: usize) -> u16
    ensures { result ≡ get_or ids.now i 0 }
{
    ids.get(i).copied().unwrap_or(0)
}

// The eight places that ids take, unused ones 0. They stand one by one: what `from_fn` says of its calls did not make the definition.
pub fn places_of(ids: &[u16]) -> [u16; 8]
    ensures { result ≡ places_of ids.now }
{
    [
        id_or(ids, 0),
        id_or(ids, 1),
        id_or(ids, 2),
        id_or(ids, 3),
        id_or(ids, 4),
        id_or(ids, 5),
        id_or(ids, 6),
        id_or(ids, 7),
    ]
}

// ---- the fields of a packet

fn fields_fit(f: &Fields) -> bool
    ensures { result ≡ fields_fit f.now }
{
    ((f[0] <= TOP_BYTE) & (f[1] <= TOP_BYTE))
        & (((f[2] <= TOP_ID) & (f[3] <= TOP_ID) & (f[4] <= TOP_ID))
            & ((f[7] <= TOP_ID) & (f[9] <= TOP_BYTE)))
}

fn head_at(f: &Fields) -> Head
    requires { FieldsStand f.now }
    ensures { result ≡ head_from f.now }
{
    Head {
        op: byte(f[0]),
        answer: byte(f[1]),
        from: id(f[2]),
        to: id(f[3]),
        client: id(f[4]),
        request: f[5],
        stamp: Stamp(f[6]),
        version: Version::new(id(f[7]), f[8]),
        length: byte(f[9]),
    }
}

// The fields that numbers stand for; where they stand for none, those of no packet, so that writing refuses them with 3.
pub fn head_of(f: &[u32]) -> Head
    ensures { result ≡ head_or f.now }
{
    let Ok(f) = <&Fields>::try_from(f) else {
        return NO_HEAD;
    };
    if fields_fit(f) { head_at(f) } else { NO_HEAD }
}

#[tactic(auto, unfolding(crate::specs::Fields::fields_of))]
fn fields_of(h: Head) -> Fields
    ensures { result ≡ fields_of h }
{
    [
        u32::from(h.op),
        u32::from(h.answer),
        u32::from(h.from),
        u32::from(h.to),
        u32::from(h.client),
        h.request,
        h.stamp.0,
        u32::from(h.version.session.0),
        h.version.sequence.0,
        u32::from(h.length),
    ]
}

// The fields go out where there is room for just them.
pub fn give_fields(f: &mut [u32], h: Head)
    ensures { f.new ≡ fields_given f.old h }
{
    if f.len() == FIELDS_SIZE {
        f.copy_from_slice(&fields_of(h));
    }
}

// ---- answers

// Where a packet is sent, or the number under which it is dropped, any number.
pub fn outcome(o: Result<Destination, u8>) -> u32
    ensures { result ≡ outcome_code (numbered o) }
{
    match o {
        Ok(Destination::ToNode(id)) => CLIENT_CODE + u32::from(id),
        Ok(Destination::ToClient) => CLIENT_CODE,
        Err(n) => u32::from(n),
    }
}

pub fn found(f: Option<usize>) -> u32
    ensures { result ≡ found_code f }
{
    match f {
        Some(i) if i < NO_SLOT as usize => i as u32,
        _ => NO_SLOT,
    }
}
