// Parcels delivered: what a node or the relay makes of one becomes the next.
use crate::{World, answered};
use lines::output::Place;
use parcels::Fault;
use wire::OUTLET_SIZE;

// The relay's number of a packet that is sent on: this and where it goes, 0 for the client. A smaller one is a refusal.
const SENT: u32 = 65536;

// Where a packet that is sent on goes.
fn place(id: u16) -> Place {
    match id {
        0 => Place::Client,
        id => Place::Node(id),
    }
}

impl World {
    // A parcel to the relay.
    fn relay(&mut self, p: usize) -> Result<(), Fault> {
        let mut outlet = [0u8; OUTLET_SIZE];
        let packet = self.parcels.packet_of(p);
        let code = register::register_relay_step(&self.record, packet, &mut outlet);
        if code < SENT {
            return Err(Fault::Refused((code % 256) as u8));
        }
        self.parcels.keep(place((code % SENT) as u16), outlet)
    }

    // A parcel to a node; what the node makes of it goes to the relay.
    fn node(&mut self, p: usize, id: u16) -> Result<(), Fault> {
        if self.nodes.is_halted(id) {
            return Err(Fault::Halted);
        }
        let mut outlet = [0u8; OUTLET_SIZE];
        let packet = self.parcels.packet_of(p);
        let table = self.nodes.table(id);
        answered(register::register_node_step(table, packet, &mut outlet))?;
        self.parcels.keep(Place::Relay, outlet)
    }

    pub(crate) fn deliver(&mut self, p: usize) -> Result<(), Fault> {
        match self.parcels.destination(p) {
            Place::Client => Err(Fault::Unclear),
            Place::Relay => self.relay(p),
            Place::Node(id) => self.node(p, id),
        }
    }
}
