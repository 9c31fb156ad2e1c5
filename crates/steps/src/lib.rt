// The chain record with its state of change, and what the relay does with a packet.
#![tactic(auto)]

ghost use Rattle.std.specs.Prelude.{◌≡◌};
ghost use Rattle.steps.specs.Chain.{joined, is_open};

use wire::{Refusal, Session, Stamp};

// A node that joins at a named one: its id, whether the named node is fenced, and the next slot to copy, which an unfenced one may not have earned
// (`joining_ok`).
#[derive(Clone, Copy, Default)]
pub struct Joining {
    pub named: u16,
    pub fresh: u16,
    pub fenced: bool,
    pub next: u16,
}

#[derive(Clone, Copy)]
pub enum Change {
    Still,
    Before(Joining),
    After(Joining),
}

impl Change {
    // The node that joins, on either side; none where no change is open.
    pub fn joining(self) -> Option<Joining>
        ensures { result ≡ joined self }
    {
        match self {
            Change::Still => None,
            Change::Before(j) | Change::After(j) => Some(j),
        }
    }

    pub fn is_open(self) -> bool
        ensures { result ≡ is_open self }
    {
        self.joining().is_some()
    }
}

// The eight places are in chain order; those from length on are 0. Document 01 names this form, an array of eight by value, and the rules of a
// record judge length and places, so a broken one has to be there to be refused.
#[derive(Clone, Copy)]
pub struct Chain {
    pub length: u8,
    pub places: [u16; 8],
    pub wiring: Stamp,
    pub session: Session,
    pub highest: u16,
    pub count: u16,
    pub change: Change,
}

#[derive(Clone, Copy)]
pub enum Destination {
    ToNode(u16),
    ToClient,
}

// The relay's outcome: where a packet is sent, or the refusal under which it is dropped.
pub type Outcome = Result<Destination, Refusal>;
