// The node step: what a node does with a packet is settled first, and then one packet is sent and one slot written at most.
#![tactic(auto)]

ghost use Rattle.std.specs.Prelude.{◌≡◌, ℕ, ◌≤◌, length, eqb, true};
ghost use Rattle.wire.specs.Numbers.{pick, code};
ghost use Rattle.wire.specs.Packet.{head_of, key_of, value_of, well_formed, sent_in, outlet_size, op_read, op_write};
ghost use Rattle.store.specs.Table.{table_of, table_ok, find, valued, deleted, write_bytes};
ghost use Rattle.steps.specs.Node.{is_read, Alters, Unnumbered, node_step, NodeGives};
ghost use Rattle.node.specs.Ways.{answer_of, version_of, carried, sent_by, taken_at, outcome, asked, Comes};

use store::State;
use wire::{Answer, Head, Kind, Op, Refusal, Sequence, Session, Version};

// What is sent, and under which version. A write or delete that is taken goes on and is stored in its slot; answer 1 shows the slot's value.
#[derive(Clone, Copy)]
enum Reply {
    Taken(Version, usize),
    Value(Version, usize),
    NoValue(Version),
    NoKey,
}

impl Reply {
    // The byte that is sent; what is taken goes on as a query.
    fn answer(self) -> u8
        ensures { result ≡ answer_of self }
    {
        match self {
            Reply::Taken(..) => Answer::Query as u8,
            Reply::Value(..) => Answer::Value as u8,
            Reply::NoValue(..) => Answer::NoValue as u8,
            Reply::NoKey => Answer::NoKey as u8,
        }
    }

    fn version(self) -> Version
        ensures { result ≡ version_of self }
    {
        match self {
            Reply::Taken(v, _) | Reply::Value(v, _) | Reply::NoValue(v) => v,
            Reply::NoKey => Version::new(0, 0),
        }
    }
}

// A packet as it was read, and the table that is asked: a table that keeps the rules.
#[derive(Clone, Copy)]
struct Query<'a> {
    table: &'a [u8],
    packet: &'a [u8],
    head: Head,
    ghost rules: { table_ok table.now ≡ true },
    ghost formed: { well_formed packet.now ≡ true },
    ghost fields: { head ≡ head_of packet.now },
}

// What is settled.
#[tactic(auto, unfolding(wire::specs::Numbers::guard, wire::specs::Numbers::pick, steps::specs::Node::absent, steps::specs::Node::answered, steps::specs::Node::at_slot, steps::specs::Node::version_for, steps::specs::Node::given, steps::specs::Node::taken, crate::specs::Ways::sent_by))]
impl<'a> Query<'a> {
    ghost use Rattle.node.specs.Queries.{table_asked, asked_by, StoredAt, Settles};

    fn is_read(&self) -> bool
        ensures { result ≡ is_read (asked_by self.now) }
    {
        self.head.op == Op::Read as u8
    }

    // Unnumbered: the node is head, and gives the number after the stored one.
    fn number(&self, stored: Version) -> Result<Version, Refusal>
        requires { Unnumbered (asked_by self.now) }
        ensures { (i : ℕ) → StoredAt i self.now stored → Settles self.now (Some i) (taken_at i result) }
    {
        let session = self.head.version.session;
        if session < stored.session {
            return Err(Refusal::SessionOver);
        }
        if session != stored.session {
            return Ok(Version {
                session,
                sequence: Sequence(1),
            });
        }
        if stored.sequence.last() {
            return Err(Refusal::NoNumberLeft);
        }
        Ok(Version {
            session,
            sequence: stored.sequence.next(),
        })
    }

    // A write or delete: numbered, it is taken if it is strictly newer.
    fn alter(&self, stored: Version) -> Result<Version, Refusal>
        requires { Alters (asked_by self.now) }
        ensures { (i : ℕ) → StoredAt i self.now stored → Settles self.now (Some i) (taken_at i result) }
    {
        if self.head.version.sequence == Sequence(0) {
            return self.number(stored);
        }
        if self.head.version.newer(stored) {
            return Ok(self.head.version);
        }
        Err(Refusal::NotNewer)
    }

    // The key stands in slot i: a read answers from it.
    fn at_slot(&self, i: usize) -> Result<Reply, Refusal>
        ensures { Settles self.now (Some i) result }
    {
        let row = table::row(self.table, i);
        let stored = table::version(row);
        if !self.is_read() {
            let version = self.alter(stored)?;
            return Ok(Reply::Taken(version, i));
        }
        if table::state(row) == State::Valued as u8 {
            return Ok(Reply::Value(stored, i));
        }
        Ok(Reply::NoValue(stored))
    }

    // The key is missing, which is told to a read and to an unnumbered write or delete.
    fn at_none(&self) -> Result<Reply, Refusal>
        ensures { Settles self.now None result }
    {
        if !self.is_read() & (self.head.version.sequence != Sequence(0)) {
            return Err(Refusal::KeyMissing);
        }
        Ok(Reply::NoKey)
    }

    // The rows behind 8, and the ways past them, by where the key stands.
    fn look(&self) -> Result<Reply, Refusal>
        ensures { Settles self.now (find (asked_by self.now).key (table_asked self.now).slots) result }
    {
        match table::find(self.table, packet::key_of(self.packet)) {
            Some(i) => self.at_slot(i),
            None => self.at_none(),
        }
    }

    // Rows 4, 7 and 8, which the head decides; then where the key stands.
    fn ask(&self) -> Result<Reply, Refusal>
        ensures { node_step (table_asked self.now) (asked_by self.now) ≡ outcome (table_asked self.now) (asked_by self.now) result }
    {
        let h = self.head;
        if (h.to != table::id(self.table)) | ((h.from != 0) | (h.answer != Answer::Query as u8)) {
            return Err(Refusal::Misaddressed);
        }
        if h.stamp < table::fence(self.table) {
            return Err(Refusal::BelowFence);
        }
        if !self.is_read() & (h.version.session == Session(0)) {
            return Err(Refusal::Sessionless);
        }
        self.look()
    }
}

// What is sent.
impl<'a> Query<'a> {
    ghost use Rattle.node.specs.Queries.{table_asked, asked_by, Gives};

    // The value that a reply carries: a part of the packet, or of the slot.
    fn value_in(&self, reply: Reply) -> &'a [u8]
        ensures { result.now ≡ carried (table_asked self.now) (asked_by self.now).value reply }
    {
        match reply {
            Reply::Taken(..) => packet::value_of(self.packet),
            Reply::Value(_, i) => table::value(table::row(self.table, i)),
            Reply::NoValue(..) | Reply::NoKey => &self.packet[..0],
        }
    }

    // Outgoing: from own id, which the packet was sent to, to 0; op, client, request, stamp and key kept.
    fn send(&self, reply: Reply, out: &mut [u8])
        requires { Gives self.now reply × (outlet_size ≤ length out.old) }
        ensures { out.new ≡ sent_in out.old (sent_by (table_asked self.now) (asked_by self.now) reply).packet }
    {
        let value = self.value_in(reply);
        let head = Head {
            answer: reply.answer(),
            from: self.head.to,
            to: 0,
            version: reply.version(),
            length: value.len() as u8,
            ..self.head
        };
        packet::emit(out, head, packet::key_of(self.packet), value);
    }
}

// The state that a write or a delete leaves, as the byte that is stored.
#[tactic(auto, unfolding(wire::specs::Numbers::pick))]
fn written(op: u8) -> u8
    ensures { result ≡ pick (eqb op op_write) valued deleted }
{
    if op == Op::Write as u8 {
        State::Valued as u8
    } else {
        State::Deleted as u8
    }
}

// A taken write or delete stores content and version; any other answer stores nothing. The table is written here, so no query has it.
fn store_taken(reply: Reply, table: &mut [u8], packet: &[u8], h: Head)
    requires { Comes table.old packet.now h reply }
    ensures { table.new ≡ write_bytes (sent_by (table_of table.old) (asked h packet.now) reply).write table.old }
{
    let Reply::Taken(version, slot) = reply else {
        return;
    };
    table::store(
        table,
        slot,
        packet::key_of(packet),
        written(h.op),
        version,
        packet::value_of(packet),
    );
}

// The step, every refusal of document 01 included.
pub fn step(table: &mut [u8], packet: &[u8], out: &mut [u8]) -> Result<(), Refusal>
    ensures { NodeGives table.old packet.now out.old (code result) table.new out.new }
{
    if !table::good(table) {
        return Err(Refusal::Broken);
    }
    if out.len() < wire::OUTLET_SIZE {
        return Err(Refusal::SmallOutlet);
    }
    let head = packet::read(packet)?;
    let query = Query {
        table,
        packet,
        head,
    };
    let reply = query.ask()?;
    query.send(reply, out);
    store_taken(reply, table, packet, head);
    Ok(())
}
