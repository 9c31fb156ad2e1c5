// The nodes: of each that there can be its table, and whether it is halted. An unknown node has a table too, of zeros, since calls are lent one in any case.
ghost use Rattle.std.specs.Prelude.{◌<◌};
ghost use Rattle.bench_core.specs.Sizes.{most_nodes};

use parcels::Fault;
use store::{HEAD_SIZE, ROW_SIZE};

pub const MOST_NODES: u16 = 8;

pub const SLOTS: u16 = 8;

// The nodes at the start.
pub const FIRST: [u16; 3] = [1, 2, 3];

const TABLE_SIZE: usize = HEAD_SIZE + ROW_SIZE * SLOTS as usize;

pub type Table = [u8; TABLE_SIZE];

#[derive(Clone, Copy)]
struct Node {
    table: Table,
    halted: bool,
}

#[derive(Drop)]
pub struct Nodes {
    nodes: [Node; MOST_NODES as usize],
}

// Where the node of an id is; node 1 for what is no id.
fn place(id: u16) -> usize
    ensures { result < most_nodes }
{
    match id {
        1..=MOST_NODES => usize::from(id) - 1,
        _ => 0,
    }
}

impl Nodes {
    // The first nodes with blank tables.
    pub(crate) fn new() -> Nodes {
        let unknown = Node {
            table: [0; TABLE_SIZE],
            halted: false,
        };
        let mut nodes = Nodes {
            nodes: [unknown; MOST_NODES as usize],
        };
        for id in FIRST {
            nodes.blank(id);
        }
        nodes
    }

    pub(crate) fn table(&mut self, id: u16) -> &mut Table {
        &mut self.nodes[place(id)].table
    }

    pub(crate) fn blank(&mut self, id: u16) {
        register::register_blank(self.table(id), id, SLOTS);
    }

    // A node is known once its table was made: before, its id stands nowhere.
    pub(crate) fn is_known(&self, id: u16) -> bool {
        table::id(&self.nodes[place(id)].table) == id
    }

    // Whether a known node is halted.
    pub(crate) fn is_halted(&self, id: u16) -> bool {
        self.is_known(id) && self.nodes[place(id)].halted
    }

    pub(crate) fn halt(&mut self, id: u16) -> Result<(), Fault> {
        if !self.is_known(id) {
            return Err(Fault::Unclear);
        }
        self.nodes[place(id)].halted = true;
        Ok(())
    }
}
