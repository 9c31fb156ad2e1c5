// A table of one node: the sizes of its parts, and the states of a slot.

#![tactic(auto)]

// The head: fence, node id, slot count.
pub const HEAD_SIZE: usize = 8;

// A slot: key, state, length, session, sequence, value; and where its state, its length and its value stand.
pub const ROW_SIZE: usize = 152;

pub const STATE_AT: usize = 16;

pub const SIZE_AT: usize = 17;

pub const VALUE_AT: usize = 24;

pub const MOST_SLOTS: usize = 256;

// States of a slot. Its byte may hold any number, so it is compared as one: `State::Free as u8`.
#[derive(Clone, Copy)]
pub enum State {
    Free = 0,
    Entered = 1,
    Valued = 2,
    Deleted = 3,
}
