// The relay step: a packet is sent to a node, sent to the client, or dropped under a number.
#![tactic(auto)]

ghost use Rattle.std.specs.Prelude.{◌≡◌, List, ℕ, ◌≤◌, length, true};
ghost use Rattle.wire.specs.Numbers.{said};
ghost use Rattle.wire.specs.Packet.{Packet, head_of, well_formed, sent_in, outlet_size};
ghost use Rattle.steps.specs.Node.{is_read};
ghost use Rattle.steps.specs.Relay.{node, to_client, stops as stops_at, stray_client, stray_node, outcome_of, relay_step, RelayGives};
ghost use Rattle.relay.specs.Ways.{unless_stopped, version_to, for_node, for_client, head_to, under_head};

use steps::{Chain, Change, Destination, Outcome};
use wire::{Answer, Head, Op, Refusal, Sequence, Stamp, Version};

// A packet as it was read, and the chain that it is to pass.
#[derive(Clone, Copy)]
struct Passage<'a> {
    chain: Chain,
    packet: &'a [u8],
    head: Head,
    ghost formed: { well_formed packet.now ≡ true },
    ghost fields: { head ≡ head_of packet.now },
}

impl<'a> Passage<'a> {
    ghost use Rattle.relay.specs.Passages.{passing};

    // ---- where the packet goes, as this head says; a node asks its own query

    fn is_read(&self) -> bool
        ensures { result ≡ is_read (passing self.now) }
    {
        self.head.op == Op::Read as u8
    }

    // Row 4: no client's packet, and no node's.
    fn stray_client(&self) -> bool
        ensures { result ≡ stray_client (passing self.now) }
    {
        let h = self.head;
        (h.to != 0)
            | ((h.stamp != Stamp(0)) | ((h.answer != Answer::Query as u8) | !h.version.is_zero()))
    }

    fn stray_node(&self) -> bool
        ensures { result ≡ stray_node (passing self.now) }
    {
        let h = self.head;
        let read = self.is_read();
        (h.to != 0)
            | ((h.answer == Answer::Query as u8)
                & (read | (!read & (h.version.sequence == Sequence(0)))))
    }

    // Whether a change stops the packet, where it is addressed to a node: a rule for each side.
    fn stops(&self, id: u16) -> bool
        ensures { result ≡ stops_at self.now.chain.change (is_read (passing self.now)) id }
    {
        match self.chain.change {
            Change::Still => false,
            Change::Before(j) => (id == j.named) & !self.is_read(),
            Change::After(j) => id == j.named,
        }
    }

    // Row 6, or to the node.
    #[tactic(auto, unfolding(crate::specs::Ways::unless_stopped, wire::specs::Numbers::guard))]
    fn unless_stopped(&self, id: u16) -> Outcome
        ensures { (q : Packet) → said result ≡ outcome_of (unless_stopped self.now.chain (passing self.now) (node id q)) }
    {
        if self.stops(id) {
            return Err(Refusal::Stopped);
        }
        Ok(Destination::ToNode(id))
    }

    // From a client: a read goes to the last node, a write or delete to the first.
    fn from_client(&self) -> Outcome
        requires { self.now.head.from ≡ 0 }
        ensures { said result ≡ outcome_of (relay_step self.now.chain (passing self.now)) }
    {
        if self.stray_client() {
            return Err(Refusal::Misaddressed);
        }
        if self.is_read() {
            return self.unless_stopped(chain::last(self.chain));
        }
        self.unless_stopped(chain::first(self.chain))
    }

    // From a node: an answer goes to the client; a numbered write or delete goes to the next node, or from the last to the client.
    fn from_node(&self) -> Outcome
        requires { self.now.head.from ≡ 0 → ⊥ }
        ensures { said result ≡ outcome_of (relay_step self.now.chain (passing self.now)) }
    {
        let from = self.head.from;
        if self.stray_node() {
            return Err(Refusal::Misaddressed);
        }
        if !chain::member(self.chain, from) {
            return Err(Refusal::Stranger);
        }
        if self.head.answer != Answer::Query as u8 {
            return Ok(Destination::ToClient);
        }
        if from == chain::last(self.chain) {
            return Ok(Destination::ToClient);
        }
        self.unless_stopped(chain::next(self.chain, from))
    }

    fn way(&self) -> Outcome
        ensures { said result ≡ outcome_of (relay_step self.now.chain (passing self.now)) }
    {
        if self.head.from == 0 {
            return self.from_client();
        }
        self.from_node()
    }

    // ---- what is sent there

    // A client's write or delete has the record's session put in; all else keeps its version.
    #[tactic(auto, unfolding(crate::specs::Ways::version_to, wire::specs::Numbers::pick))]
    fn version_to(&self) -> Version
        ensures { result ≡ version_to self.now.chain (passing self.now) }
    {
        if (self.head.from == 0) & !self.is_read() {
            return Version {
                session: self.chain.session,
                sequence: Sequence(0),
            };
        }
        self.head.version
    }

    // To a node: from 0, to its id, stamp = wiring number.
    #[tactic(auto, unfolding(steps::specs::Relay::to_node))]
    fn node_head(&self, id: u16) -> Head
        ensures { result ≡ (for_node self.now.chain id (passing self.now)).head }
    {
        Head {
            answer: Answer::Query as u8,
            from: 0,
            to: id,
            stamp: self.chain.wiring,
            version: self.version_to(),
            ..self.head
        }
    }

    // To a client: from, to and stamp are 0.
    #[tactic(auto, unfolding(steps::specs::Relay::to_client))]
    fn answer_head(&self, answer: u8, n: u8) -> Head
        ensures { (v : List ℕ) → n ≡ length v → result ≡ (to_client answer v (passing self.now)).head }
    {
        Head {
            answer,
            from: 0,
            to: 0,
            stamp: Stamp(0),
            length: n,
            ..self.head
        }
    }

    // An answer goes as it is; a query, a write or delete that the last node took, as answer 4 with length 0.
    fn client_head(&self) -> Head
        ensures { result ≡ (for_client (passing self.now)).head }
    {
        if self.head.answer == Answer::Query as u8 {
            return self.answer_head(Answer::Written as u8, 0);
        }
        self.answer_head(self.head.answer, self.head.length)
    }

    fn head_to(&self, to: Destination) -> Head
        ensures { result ≡ head_to self.now.chain (passing self.now) to }
    {
        match to {
            Destination::ToNode(id) => self.node_head(id),
            Destination::ToClient => self.client_head(),
        }
    }

    // The packet under the head for where it goes: its key, and as much of its value as the head says.
    fn send(&self, to: Destination, out: &mut [u8])
        requires { outlet_size ≤ length out.old }
        ensures { out.new ≡ sent_in out.old (under_head (head_to self.now.chain (passing self.now) to) self.now.packet.now) }
    {
        let head = self.head_to(to);
        let value = packet::value_of(self.packet);
        let n = head.length as usize;
        packet::emit(out, head, packet::key_of(self.packet), &value[..n]);
    }
}

// The step, every refusal of document 01 included.
pub fn step(c: Chain, packet: &[u8], out: &mut [u8]) -> Outcome
    ensures { RelayGives c packet.now out.old (said result) out.new }
{
    if !chain::good(c) {
        return Err(Refusal::Broken);
    }
    if out.len() < wire::OUTLET_SIZE {
        return Err(Refusal::SmallOutlet);
    }
    let head = packet::read(packet)?;
    let passage = Passage {
        chain: c,
        packet,
        head,
    };
    let to = passage.way()?;
    passage.send(to, out);
    Ok(to)
}
