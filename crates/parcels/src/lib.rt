// The bench's parcels: of each where it goes, and its packet. None ever vanishes.
#![tactic(auto)]

ghost use Rattle.std.specs.Prelude.{◌≡◌, ◌≤◌, length};
ghost use Rattle.std.specs.Option.{option_copied};
ghost use Rattle.parcels.specs.Sizes.{most_parcels};
ghost use Rattle.parcels.specs.Parcels.{number_of, count_of, part_of, to_of, packet_in, packet_at, destination_of, none_yet, KeepGives};
ghost use Rattle.parcels.specs.Query.{padded_key, query_of, SendGives};

use lines::output::{Made, Place};
use wire::{Answer, FRONT_SIZE, Head, KEY_SIZE, OUTLET_SIZE, Stamp, Version};

// Why a line failed: a refusal, by the number that the register's exports give, or the bench's own reasons, tried first, and the second before the first.
#[derive(Clone, Copy)]
pub enum Fault {
    Refused(u8),
    Halted,
    Unclear,
}

impl From<Fault> for u8 {
    ghost from_gives = { λ fault n. n ≡ number_of fault };

    fn from(fault: Fault) -> u8 {
        match fault {
            Fault::Refused(number) => number,
            Fault::Halted => 23,
            Fault::Unclear => 24,
        }
    }
}

const MOST_PARCELS: usize = 64;

// Room for a packet that a step makes.
pub type Outlet = [u8; OUTLET_SIZE];

// Where a parcel goes, and the outlet that begins with its packet.
#[derive(Clone, Copy)]
pub struct Parcel {
    pub to: Place,
    pub outlet: Outlet,
}

impl Parcel {
    #[tactic(auto, using(crate::proofs::Laws::value_fits, crate::proofs::Laws::packet_cut), unfolding(crate::specs::Parcels::packet_in))]
    fn packet(&self) -> &[u8]
        ensures { result.now ≡ packet_in self.now.outlet }
    {
        &self.outlet[..FRONT_SIZE + packet::value_of(&self.outlet).len()]
    }
}

// All parcels, side by side in fixed memory; no more of them than there is room for, whatever the count says.
#[derive(Clone, Copy)]
pub struct Parcels {
    pub parcels: [Parcel; MOST_PARCELS],
    pub count: u8,
}

impl Parcels {
    // No parcel yet.
    pub fn new() -> Parcels
        ensures { result ≡ none_yet }
    {
        let none = Parcel {
            to: Place::Client,
            outlet: [0; OUTLET_SIZE],
        };
        Parcels {
            parcels: [none; MOST_PARCELS],
            count: 0,
        }
    }

    // How many parcels there are.
    #[tactic(auto, unfolding(crate::specs::Parcels::count_of, crate::specs::Parcels::bounded, wire::specs::Numbers::pick))]
    pub fn count(&self) -> usize
        ensures value { result ≡ count_of self.now }
        ensures bound { result ≤ most_parcels }
    {
        usize::from(self.count).min(MOST_PARCELS)
    }

    // A parcel by its number, from 1 on.
    #[tactic(auto, unfolding(crate::specs::Parcels::part_of, crate::specs::Parcels::part_in, wire::specs::Numbers::pick))]
    fn part(&self, p: usize) -> Option<&Parcel>
        ensures { option_copied result ≡ part_of self.now p }
    {
        if p == 0 || self.count() < p {
            return None;
        }
        self.parcels.get(p - 1)
    }

    // Where a parcel goes; where there is no such parcel, to a client.
    #[tactic(auto, unfolding(crate::specs::Parcels::to_of))]
    fn to(&self, p: usize) -> Place
        ensures { result ≡ to_of self.now p }
    {
        match self.part(p) {
            Some(parcel) => parcel.to,
            None => Place::Client,
        }
    }

    // The packet of a parcel; nothing where there is no such parcel.
    #[tactic(auto, unfolding(crate::specs::Parcels::packet_at))]
    pub fn packet_of(&self, p: usize) -> &[u8]
        ensures { result.now ≡ packet_at self.now p }
    {
        match self.part(p) {
            Some(parcel) => parcel.packet(),
            None => &[],
        }
    }

    // Where a parcel is delivered to; to a client, so nowhere, where there is no such parcel or no room for another.
    #[tactic(auto, unfolding(crate::specs::Parcels::destination_of, wire::specs::Numbers::pick))]
    pub fn destination(&self, p: usize) -> Place
        ensures { result ≡ destination_of self.now p }
    {
        if self.count() == MOST_PARCELS {
            return Place::Client;
        }
        self.to(p)
    }

    // The packet in an outlet becomes a parcel, if there is room.
    #[tactic(auto, unfolding(crate::specs::Parcels::keep_outcome, crate::specs::Parcels::kept, crate::specs::Parcels::placed, wire::specs::Numbers::pick))]
    pub fn keep(&mut self, to: Place, outlet: Outlet) -> Result<(), Fault>
        ensures { KeepGives self.old to outlet result self.new }
    {
        let n = self.count();
        if n == MOST_PARCELS {
            return Err(Fault::Unclear);
        }
        self.parcels[n] = Parcel { to, outlet };
        self.count = n as u8 + 1;
        Ok(())
    }

    // The query of a line that sends, of any op that a byte can say.
    pub fn send(&mut self, op: u8, line: &[u8]) -> Result<(), Fault>
        ensures { SendGives self.old op line.now result self.new }
    {
        let key = key(line);
        let value = script::value(line);
        let mut outlet = [0u8; OUTLET_SIZE];
        let h = query(op, self.count() as u32 + 1, value.len() as u8);
        // What is no packet is not written, and the outlet stays zeros.
        let _ = packet::write(&mut outlet, h, &key, value);
        self.keep(Place::Relay, outlet)
    }

    // The parcel made since there were n, if one was.
    fn made(&self, n: usize) -> Option<Made<'_>> {
        let parcel = self.count();
        if parcel <= n {
            return None;
        }
        Some(Made {
            parcel,
            to: self.to(parcel),
            packet: self.packet_of(parcel),
        })
    }

    // Writes what a line gave, with the parcel made since there were n.
    pub fn tell(&self, rt: &impl Print, line: u64, outcome: Result<(), Fault>, n: usize) {
        let number = match outcome {
            Ok(()) => 0,
            Err(fault) => u8::from(fault),
        };
        lines::output::tell(rt, line, number, self.made(n));
    }
}

// ---- the query of a line that sends

// A client's packet for the relay.
#[tactic(auto, unfolding(crate::specs::Query::query_of))]
fn query(op: u8, request: u32, length: u8) -> Head
    ensures { result ≡ query_of op request length }
{
    Head {
        op,
        answer: Answer::Query as u8,
        from: 0,
        to: 0,
        client: 1,
        request,
        stamp: Stamp(0),
        version: Version::new(0, 0),
        length,
    }
}

// The key of a line, padded with zeros.
pub fn key(line: &[u8]) -> [u8; KEY_SIZE]
    ensures { result ≡ padded_key line.now }
{
    let text = script::key(line);
    let mut key = [0u8; KEY_SIZE];
    key[..text.len()].copy_from_slice(text);
    key
}
