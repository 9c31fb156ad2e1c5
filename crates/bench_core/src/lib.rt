// The bench: reads a script from standard input, line by line, and writes a line for each.
#![tactic(auto)]

mod change;
mod nodes;
mod post;

use lines::input::Lines;
use nodes::{FIRST, Nodes, SLOTS};
use numbers::RECORD_SIZE;
use parcels::{Fault, Parcels};
use script::Command;

// What the commands change: the record in numbers, as the exports take it, the nodes, and the parcels.
#[derive(Drop)]
struct World {
    record: [u32; RECORD_SIZE],
    nodes: Nodes,
    parcels: Parcels,
}

// What a call of the register answered, by its number.
fn answered(number: u8) -> Result<(), Fault> {
    if number == 0 {
        return Ok(());
    }
    Err(Fault::Refused(number))
}

impl World {
    // The first nodes, and the record of their chain.
    fn new() -> World {
        let mut record = [0u32; RECORD_SIZE];
        register::register_start(&mut record, &FIRST, SLOTS);
        World {
            record,
            nodes: Nodes::new(),
            parcels: Parcels::new(),
        }
    }

    // The key of a line enters a node's table.
    fn enter(&mut self, id: u16, line: &[u8]) -> Result<(), Fault> {
        if !self.nodes.is_known(id) {
            return Err(Fault::Unclear);
        }
        if self.nodes.is_halted(id) {
            return Err(Fault::Halted);
        }
        let key = parcels::key(line);
        let table = self.nodes.table(id);
        answered(register::register_enter(&self.record, table, id, &key))
    }

    // One line.
    fn step(&mut self, line: &[u8]) -> Result<(), Fault> {
        let command = script::read(line);
        match command {
            Command::Enter(id) => self.enter(id.ok_or(Fault::Unclear)?, line),
            Command::Send(op) => self.parcels.send(op as u8, line),
            Command::Deliver(p) => self.deliver(usize::from(p.ok_or(Fault::Unclear)?)),
            Command::Halt(id) => self.nodes.halt(id.ok_or(Fault::Unclear)?),
            Command::Rule(order) => self.change(order),
            Command::Unclear => Err(Fault::Unclear),
        }
    }

    // A line: what it gives is written.
    fn answer(&mut self, rt: &impl Print, number: u64, line: &[u8]) {
        let n = self.parcels.count();
        let outcome = self.step(line);
        self.parcels.tell(rt, number, outcome, n);
    }
}

// All lines of the input. A proved loop has to end, so there is a last number.
pub fn run(rt: &(impl Input + Print)) {
    let mut world = World::new();
    let mut lines = Lines::new(rt.reader());
    for number in 1..=u64::MAX {
        let Some(line) = lines.next() else {
            return;
        };
        world.answer(rt, number, line);
    }
}
