// The chain record: its rules, the ids of its chain, its state of change, and the eight places with one id inserted or removed.

#![tactic(auto)]

ghost use Rattle.std.specs.Prelude.{◌≡◌, drop, ltb, eqb};
ghost use Rattle.store.specs.Table.{all_zero};
ghost use Rattle.wire.specs.Numbers.{number_of, code, pick};
ghost use Rattle.steps.specs.Chain.{members, memb, first_of, last_of, next_of, place_of, insert_at, remove_at, largest, joining_ok, change_ok, chain_ok, start_chain, start_call};
ghost use Rattle.chain.specs.Ids.{ids_ok};

use steps::{Chain, Change, Joining};
use store::MOST_SLOTS;
use wire::{Refusal, Session, Stamp};

pub const MOST_NODES: usize = 8;

// ---- the ids of a chain; none is told as 0, as in `first_of`, `last_of` and `next_of`

// The ids of the chain: the places that its length takes, of the eight that there are.
fn used(c: &Chain) -> &[u16]
    ensures { result.now ≡ members c.now }
{
    &c.places[..usize::from(c.length).min(MOST_NODES)]
}

// The places behind.
fn unused(c: &Chain) -> &[u16]
    ensures { result.now ≡ drop c.now.length c.now.places }
{
    &c.places[usize::from(c.length).min(MOST_NODES)..]
}

// The first place that has the id, or the length.
fn seek(ids: &[u16], id: u16) -> usize
    ensures { result ≡ place_of id ids.now }
{
    ids.iter().position(|x| *x == id).unwrap_or(ids.len())
}

// By `any`: `contains` is made for long slices, and a relay step then took a tenth longer.
fn has(ids: &[u16], id: u16) -> bool
    ensures { result ≡ memb id ids.now }
{
    ids.iter().any(|x| *x == id)
}

pub fn place(c: Chain, id: u16) -> usize
    ensures { result ≡ place_of id (members c) }
{
    seek(used(&c), id)
}

#[tactic(auto, using(crate::proofs::Ids::memb_place))]
pub fn member(c: Chain, id: u16) -> bool
    ensures { result ≡ memb id (members c) }
{
    let ids = used(&c);
    seek(ids, id) < ids.len()
}

#[tactic(auto, using(crate::proofs::Ids::first_got))]
pub fn first(c: Chain) -> u16
    ensures { result ≡ first_of (members c) }
{
    used(&c).first().copied().unwrap_or(0)
}

#[tactic(auto, using(crate::proofs::Ids::last_got))]
fn last_in(ids: &[u16]) -> u16
    ensures { result ≡ last_of ids.now }
{
    ids.last().copied().unwrap_or(0)
}

pub fn last(c: Chain) -> u16
    ensures { result ≡ last_of (members c) }
{
    last_in(used(&c))
}

#[tactic(auto, using(crate::proofs::Ids::next_at))]
pub fn next(c: Chain, id: u16) -> u16
    ensures { result ≡ next_of id (members c) }
{
    let ids = used(&c);
    ids.get(seek(ids, id) + 1).copied().unwrap_or(0)
}

// ---- the rules

// Whether the ids are distinct, not 0 and not above the highest.
#[tactic(auto, using(crate::proofs::Ids::ids_none, crate::proofs::Ids::ids_turn))]
fn ids_ok(mut ids: &[u16], highest: u16) -> bool
    ensures { result ≡ ids_ok highest ids.now }
{
    while let Some((id, rest)) = ids.split_first() {
        if *id == 0 || has(rest, *id) || highest < *id {
            return false;
        }
        ids = rest;
    }
    true
}

fn zeros(ids: &[u16]) -> bool
    ensures { result ≡ all_zero ids.now }
{
    ids.iter().all(|id| *id == 0)
}

// The largest of the ids; 0 where there is none.
fn most(ids: &[u16]) -> u16
    ensures { result ≡ largest ids.now }
{
    ids.iter().copied().max().unwrap_or(0)
}

#[tactic(auto, unfolding(steps::specs::Chain::joining_ok))]
fn joining(c: &Chain, j: Joining) -> bool
    ensures { result ≡ joining_ok c.now j }
{
    has(used(c), j.named)
        && !has(used(c), j.fresh)
        && j.fresh == c.highest
        && usize::from(c.length) < MOST_NODES
        && j.next <= c.count
        && (j.fenced || j.next == 0)
}

// What is asked of a change, which is more after a node than before one.
fn change(c: &Chain) -> bool
    ensures { result ≡ change_ok c.now c.now.change }
{
    match c.change {
        Change::Still => true,
        Change::Before(j) => joining(c, j),
        Change::After(j) => joining(c, j) && j.named == last_in(used(c)),
    }
}

// Whether a record keeps the rules of document 01.
#[tactic(auto, unfolding(steps::specs::Chain::chain_ok, crate::specs::Ids::ids_ok))]
pub fn good(c: Chain) -> bool
    ensures { result ≡ chain_ok c }
{
    (0 < c.length && usize::from(c.length) <= MOST_NODES)
        && ids_ok(used(&c), c.highest)
        && zeros(unused(&c))
        && c.session != Session(0)
        && (0 < c.count && usize::from(c.count) <= MOST_SLOTS)
        && change(&c)
}

// ---- one id inserted or removed

// What stands at place i once an id is inserted at a place: what stood there, the id, or what stood before.
#[tactic(auto, unfolding(wire::specs::Numbers::pick))]
fn shifted(at: usize, i: usize, id: u16, here: u16, before: u16) -> u16
    ensures { result ≡ pick (ltb i at) here (pick (eqb i at) id before) }
{
    if i < at {
        here
    } else if i == at {
        id
    } else {
        before
    }
}

// What stands at place i once a place is removed: what stood there, or what stood behind.
#[tactic(auto, unfolding(wire::specs::Numbers::pick))]
fn closed(at: usize, i: usize, here: u16, behind: u16) -> u16
    ensures { result ≡ pick (ltb i at) here behind }
{
    if i < at { here } else { behind }
}

// The id at a place, the later ones one place on; nothing changes from place 8 on. Each place is chosen by itself, as the law has it:
// by `copy_within` activate and remove took about 2 ns more, and `rotate_right` takes 4 KB of the stack.
pub fn insert(places: [u16; 8], at: usize, id: u16) -> [u16; 8]
    ensures { result ≡ insert_at places at id }
{
    let [a, b, c, d, e, f, g, h] = places;
    [
        shifted(at, 0, id, a, a),
        shifted(at, 1, id, b, a),
        shifted(at, 2, id, c, b),
        shifted(at, 3, id, d, c),
        shifted(at, 4, id, e, d),
        shifted(at, 5, id, f, e),
        shifted(at, 6, id, g, f),
        shifted(at, 7, id, h, g),
    ]
}

// Without a place, the later ones one place back, and 0 last; nothing changes from place 8 on. Each by itself, as above.
pub fn remove(places: [u16; 8], at: usize) -> [u16; 8]
    ensures { result ≡ remove_at places at }
{
    let [a, b, c, d, e, f, g, h] = places;
    [
        closed(at, 0, a, b),
        closed(at, 1, b, c),
        closed(at, 2, c, d),
        closed(at, 3, d, e),
        closed(at, 4, e, f),
        closed(at, 5, f, g),
        closed(at, 6, g, h),
        closed(at, 7, h, 0),
    ]
}

// ---- at the start

// The record of a start, whether or not it keeps the rules.
#[tactic(auto, unfolding(steps::specs::Chain::start_chain))]
pub fn starting(length: u8, places: [u16; 8], count: u16) -> Chain
    ensures { result ≡ start_chain length places count }
{
    let mut c = Chain {
        length,
        places,
        wiring: Stamp(1),
        session: Session(1),
        highest: 0,
        count,
        change: Change::Still,
    };
    c.highest = most(used(&c));
    c
}

// A starting record, and whether it keeps the rules; one that is refused is given too.
#[tactic(auto, unfolding(steps::specs::Chain::start_call, wire::specs::Numbers::guard))]
pub fn start(length: u8, places: [u16; 8], count: u16) -> (Chain, Result<(), Refusal>)
    ensures number { code result.1 ≡ number_of (start_call length places count) }
    ensures chain { result.0 ≡ start_chain length places count }
{
    let c = starting(length, places, count);
    if good(c) {
        (c, Ok(()))
    } else {
        (c, Err(Refusal::Broken))
    }
}
