// Each public call as an event of the system over bytes: a function that makes the call, and whose promise is the event.
// It is proved from the call's own promise alone. None of them is for anyone to call.
#![tactic(auto)]

ghost use Rattle.wire.specs.Numbers.{said, code};
ghost use Rattle.claims.specs.Bytes.{activating as activates, cancelling as cancels, removing as removes};
ghost use Rattle.claims.specs.Events.{StartEvent, BlankEvent, NodeEvent, RelayEvent, ControlEvent, OpenEvent, FenceEvent, CopyEvent, EnterEvent};

use steps::{Chain, Outcome};
use wire::Refusal;

fn starting(length: u8, places: [u16; 8], count: u16) -> Result<Chain, Refusal>
    ensures { StartEvent length places count (said result) }
{
    let (c, done) = chain::start(length, places, count);
    done?;
    Ok(c)
}

fn blanking(table: &mut [u8], id: u16, count: u16) -> Result<(), Refusal>
    ensures { BlankEvent id count (code result) table.new }
{
    table::blank(table, id, count)
}

fn stepping(table: &mut [u8], packet: &[u8], out: &mut [u8]) -> Result<(), Refusal>
    ensures { NodeEvent table.old packet.now out.old (code result) table.new out.new }
{
    node::step(table, packet, out)
}

fn relaying(c: Chain, packet: &[u8], out: &mut [u8]) -> Outcome
    ensures { RelayEvent c packet.now out.old (said result) out.new }
{
    relay::step(c, packet, out)
}

fn opening(c: &mut Chain, after: bool, named: u16, fresh: u16) -> Result<(), Refusal>
    ensures { OpenEvent c.old after named fresh (code result) c.new }
{
    record::open(c, after, named, fresh)
}

fn fencing(c: &mut Chain, table: &mut [u8]) -> Result<(), Refusal>
    ensures { FenceEvent c.old table.old (code result) c.new table.new }
{
    control::fence(c, table)
}

fn copying(c: &mut Chain, i: u16, named: &[u8], fresh: &mut [u8]) -> Result<(), Refusal>
    ensures { CopyEvent c.old i named.now fresh.old (code result) c.new fresh.new }
{
    control::copy(c, i, named, fresh)
}

fn activating(c: &mut Chain) -> Result<(), Refusal>
    ensures { ControlEvent activates c.old (code result) c.new }
{
    record::activate(c)
}

fn cancelling(c: &mut Chain) -> Result<(), Refusal>
    ensures { ControlEvent cancels c.old (code result) c.new }
{
    record::cancel(c)
}

fn removing(c: &mut Chain, id: u16) -> Result<(), Refusal>
    ensures { ControlEvent (removes id) c.old (code result) c.new }
{
    record::remove(c, id)
}

fn entering(c: Chain, table: &mut [u8], id: u16, key: &[u8; 16]) -> Result<(), Refusal>
    ensures { EnterEvent c table.old id key.now (code result) table.new }
{
    control::enter(c, table, id, key)
}
