// The controller steps on the record alone: open, activate, cancel, remove.
// A step is its rows, the first of which that applies refuses, and then what it does to the record.

#![tactic(auto)]

ghost use Rattle.std.specs.Prelude.{◌≡◌, not, [], ◌∷◌, ltb};
ghost use Rattle.wire.specs.Numbers.{pick, code, test, first_number, broken, out_of_turn};
ghost use Rattle.wire.specs.Version.{next_session};
ghost use Rattle.steps.specs.Chain.{chain_ok, is_open, when_open};
ghost use Rattle.steps.specs.Control.{ChainGives, open_tests, open_call, becomes_first, join_place, join_id, activate_tests, activate_call, cancel_call, remove_tests, remove_call};

use chain::MOST_NODES;
use steps::{Chain, Change, Joining};
use wire::{Kind, Refusal, Session};

// The session goes on by one where another node becomes the first.
#[tactic(auto, unfolding(wire::specs::Numbers::pick))]
fn session_after(s: Session, first_changes: bool) -> Session
    ensures { result ≡ pick first_changes (next_session s) s }
{
    if first_changes { s.next() } else { s }
}

// ---- open

fn open_rows(c: Chain, after: bool, named: u16, fresh: u16) -> Result<(), Refusal>
    ensures { code result ≡ first_number (test broken (not (chain_ok c)) ∷ open_tests c after named fresh) }
{
    let away = !chain::member(c, named) || (after && named != chain::last(c));
    wire::first_of([
        (!chain::good(c), Refusal::Broken),
        (c.wiring.last(), Refusal::NoNumberLeft),
        (c.change.is_open(), Refusal::ChangeOpen),
        (away, Refusal::NotMeant),
        (fresh <= c.highest, Refusal::IdUsed),
        (c.length as usize == MOST_NODES, Refusal::ChainFull),
    ])
}

// After the named node, or before it: a Bool, as in `open_call`.
pub fn open(c: &mut Chain, after: bool, named: u16, fresh: u16) -> Result<(), Refusal>
    ensures { ChainGives c.old (open_call c.old after named fresh) (code result) c.new }
{
    open_rows(*c, after, named, fresh)?;
    let j = Joining {
        named,
        fresh,
        fenced: false,
        next: 0,
    };
    c.wiring = c.wiring.next();
    c.highest = fresh;
    c.change = if after {
        Change::After(j)
    } else {
        Change::Before(j)
    };
    Ok(())
}

// ---- activate

// Whether the new node would be first: of a node before another alone.
fn becomes_first(c: Chain) -> bool
    ensures { result ≡ becomes_first c c.change }
{
    match c.change {
        Change::Before(j) => j.named == chain::first(c),
        Change::Still | Change::After(_) => false,
    }
}

// The place that the new node takes, another one on each side.
#[tactic(auto, using(chain::proofs::Ids::place_low))]
fn join_place(c: Chain) -> usize
    ensures { result ≡ join_place c c.change }
{
    match c.change {
        Change::Still => 0,
        Change::Before(j) => chain::place(c, j.named),
        Change::After(j) => chain::place(c, j.named) + 1,
    }
}

fn join_id(ch: Change) -> u16
    ensures { result ≡ join_id ch }
{
    ch.joining().map_or(0, |j| j.fresh)
}

// Whether a slot is not yet copied.
fn slots_left(c: Chain) -> bool
    ensures { result ≡ when_open c.change (λ j. ltb j.next c.count) }
{
    c.change.joining().is_some_and(|j| j.next < c.count)
}

fn activate_rows(c: Chain) -> Result<(), Refusal>
    ensures { code result ≡ first_number (test broken (not (chain_ok c)) ∷ activate_tests c) }
{
    wire::first_of([
        (!chain::good(c), Refusal::Broken),
        (becomes_first(c) && c.session.last(), Refusal::NoNumberLeft),
        (!c.change.is_open() || slots_left(c), Refusal::OutOfTurn),
    ])
}

pub fn activate(c: &mut Chain) -> Result<(), Refusal>
    ensures { ChainGives c.old (activate_call c.old) (code result) c.new }
{
    activate_rows(*c)?;
    *c = Chain {
        length: c.length + 1,
        places: chain::insert(c.places, join_place(*c), join_id(c.change)),
        session: session_after(c.session, becomes_first(*c)),
        change: Change::Still,
        ..*c
    };
    Ok(())
}

// ---- cancel

fn cancel_rows(c: Chain) -> Result<(), Refusal>
    ensures { code result ≡ first_number (test broken (not (chain_ok c)) ∷ test out_of_turn (not (is_open c.change)) ∷ []) }
{
    wire::first_of([
        (!chain::good(c), Refusal::Broken),
        (!c.change.is_open(), Refusal::OutOfTurn),
    ])
}

pub fn cancel(c: &mut Chain) -> Result<(), Refusal>
    ensures { ChainGives c.old (cancel_call c.old) (code result) c.new }
{
    cancel_rows(*c)?;
    c.change = Change::Still;
    Ok(())
}

// ---- remove

fn remove_rows(c: Chain, id: u16) -> Result<(), Refusal>
    ensures { code result ≡ first_number (test broken (not (chain_ok c)) ∷ remove_tests c id) }
{
    let first = id == chain::first(c);
    wire::first_of([
        (!chain::good(c), Refusal::Broken),
        (first & c.session.last(), Refusal::NoNumberLeft),
        (c.change.is_open(), Refusal::ChangeOpen),
        (!chain::member(c, id), Refusal::NotMeant),
        (c.length == 1, Refusal::OnlyNode),
    ])
}

pub fn remove(c: &mut Chain, id: u16) -> Result<(), Refusal>
    ensures { ChainGives c.old (remove_call c.old id) (code result) c.new }
{
    remove_rows(*c, id)?;
    *c = Chain {
        length: c.length - 1,
        places: chain::remove(c.places, chain::place(*c, id)),
        session: session_after(c.session, id == chain::first(*c)),
        ..*c
    };
    Ok(())
}
