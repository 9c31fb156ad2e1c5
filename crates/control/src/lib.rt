// The controller steps that touch a table: fence, copy, enter.
// A step is its rows, the first of which that applies refuses, and then what it does to the record and the table.

#![tactic(auto)]

ghost use Rattle.std.specs.Prelude.{◌≡◌};
ghost use Rattle.std.specs.Option.{ForSome};
ghost use Rattle.wire.specs.Numbers.{code, first_number};
ghost use Rattle.steps.specs.Chain.{joined};
ghost use Rattle.steps.specs.Control.{FenceGives, CopyGives, EnterGives};
ghost use Rattle.control.specs.Turn.{Mapped, fence_all, copy_all, enter_first};

use steps::{Chain, Change, Joining};
use store::State;
use wire::{Refusal, Version};

// The change with the node that joins, on either side, as f makes it. What is written through a reference into the change is not tied to it.
fn map_joining<F: FnOnce(Joining) -> Joining>(ch: Change, f: F) -> Change
    requires { ForSome (joined ch) (F.pre f) }
    ensures { Mapped (F.post f) ch result }
{
    match ch {
        Change::Still => Change::Still,
        Change::Before(j) => Change::Before(f(j)),
        Change::After(j) => Change::After(f(j)),
    }
}

// ---- fence

fn fence_rows(c: Chain, table: &[u8]) -> Result<(), Refusal>
    ensures { code result ≡ first_number (fence_all c table.now) }
{
    let joins = c.change.joining();
    wire::first_of([
        (!chain::good(c) || !table::good(table), Refusal::Broken),
        (joins.is_none(), Refusal::OutOfTurn),
        (
            joins.is_some_and(|j| table::id(table) != j.named),
            Refusal::NotMeant,
        ),
        (table::count(table) != c.count, Refusal::OtherCount),
        (c.wiring < table::fence(table), Refusal::FenceAbove),
    ])
}

pub fn fence(c: &mut Chain, table: &mut [u8]) -> Result<(), Refusal>
    ensures { FenceGives c.old table.old (code result) c.new table.new }
{
    fence_rows(*c, table)?;
    table::set_fence(table, c.wiring);
    c.change = map_joining(c.change, |j| Joining { fenced: true, ..j });
    Ok(())
}

// ---- copy

fn copy_rows(c: Chain, i: u16, named: &[u8], fresh: &[u8]) -> Result<(), Refusal>
    ensures { code result ≡ first_number (copy_all c i named.now fresh.now) }
{
    let joins = c.change.joining();
    let from = table::id(named);
    let to = table::id(fresh);
    let broken = !chain::good(c) || !table::good(named) || !table::good(fresh);
    // Not fenced, another slot than the next, or none left.
    let out_of_turn = joins.is_none_or(|j| !j.fenced || i != j.next || j.next == c.count);
    let not_meant = joins.is_some_and(|j| from != j.named || to != j.fresh);
    let other_count = table::count(named) != c.count || table::count(fresh) != c.count;
    wire::first_of([
        (broken, Refusal::Broken),
        (out_of_turn, Refusal::OutOfTurn),
        (not_meant, Refusal::NotMeant),
        (other_count, Refusal::OtherCount),
    ])
}

pub fn copy(c: &mut Chain, i: u16, named: &[u8], fresh: &mut [u8]) -> Result<(), Refusal>
    ensures { CopyGives c.old i named.now fresh.old (code result) c.new fresh.new }
{
    copy_rows(*c, i, named, fresh)?;
    table::copy_slot(named, fresh, i as usize);
    c.change = map_joining(
        c.change,
        |j| Joining {
            next: j.next + 1,
            ..j
        },
    );
    Ok(())
}

// ---- enter

// All rows but the last, which asks for a free slot.
fn enter_rows(c: Chain, table: &[u8], id: u16, key: &[u8]) -> Result<(), Refusal>
    ensures { code result ≡ first_number (enter_first c table.now id key.now) }
{
    wire::first_of([
        (!chain::good(c) || !table::good(table), Refusal::Broken),
        (c.change.is_open(), Refusal::ChangeOpen),
        (
            !chain::member(c, id) || table::id(table) != id,
            Refusal::NotMeant,
        ),
        (table::count(table) != c.count, Refusal::OtherCount),
        (table::find(table, key).is_some(), Refusal::KeyThere),
    ])
}

pub fn enter(c: Chain, table: &mut [u8], id: u16, key: &[u8; 16]) -> Result<(), Refusal>
    ensures { EnterGives c table.old id key.now (code result) table.new }
{
    enter_rows(c, table, id, key)?;
    let i = table::lowest_free(table).ok_or(Refusal::NoFreeSlot)?;
    table::store(table, i, key, State::Entered as u8, Version::new(0, 0), &[]);
    Ok(())
}
