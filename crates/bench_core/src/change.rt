// The controller's steps on the bench.
use crate::nodes::{MOST_NODES, Table};
use crate::{World, answered};
use parcels::Fault;
use script::{Order, Side};

// Where the record has the named id, the new id and the next slot of the open change; all are 0 where none is open.
const NAMED: usize = 14;

const FRESH: usize = 15;

const NEXT: usize = 17;

// An id or a slot of the record; both take 16 bits.
fn short(n: u32) -> u16 {
    (n % 65536) as u16
}

// The record's number of a kind of change.
fn kind(side: Side) -> u8 {
    match side {
        Side::Before => 1,
        Side::After => 2,
    }
}

impl World {
    // An open that succeeds makes the new node's table.
    fn open(&mut self, side: Side, named: u16, fresh: u16) -> Result<(), Fault> {
        if MOST_NODES < fresh || !self.nodes.is_known(named) {
            return Err(Fault::Unclear);
        }
        answered(register::register_open(&mut self.record, kind(side), named, fresh))?;
        self.nodes.blank(fresh);
        Ok(())
    }

    fn fence(&mut self) -> Result<(), Fault> {
        let named = short(self.record[NAMED]);
        if self.nodes.is_halted(named) {
            return Err(Fault::Halted);
        }
        let table = self.nodes.table(named);
        answered(register::register_fence(&mut self.record, table))
    }

    fn copied(&mut self, from: &Table, fresh: u16) -> Result<(), Fault> {
        let next = short(self.record[NEXT]);
        let table = self.nodes.table(fresh);
        answered(register::register_copy(&mut self.record, next, from, table))
    }

    // The named node's table goes by value: two tables of one array cannot be lent together.
    fn copy(&mut self) -> Result<(), Fault> {
        let named = short(self.record[NAMED]);
        let fresh = short(self.record[FRESH]);
        if self.nodes.is_halted(named) || self.nodes.is_halted(fresh) {
            return Err(Fault::Halted);
        }
        let from = *self.nodes.table(named);
        self.copied(&from, fresh)
    }

    fn remove(&mut self, id: u16) -> Result<(), Fault> {
        if !self.nodes.is_halted(id) {
            return Err(Fault::Unclear);
        }
        answered(register::register_remove(&mut self.record, id))
    }

    pub(crate) fn change(&mut self, order: Order) -> Result<(), Fault> {
        match order {
            Order::Open(side, named, fresh) => self.open(
                side,
                named.ok_or(Fault::Unclear)?,
                fresh.ok_or(Fault::Unclear)?,
            ),
            Order::Fence => self.fence(),
            Order::Copy => self.copy(),
            Order::Activate => answered(register::register_activate(&mut self.record)),
            Order::Cancel => answered(register::register_cancel(&mut self.record)),
            Order::Remove(id) => self.remove(id.ok_or(Fault::Unclear)?),
        }
    }
}
