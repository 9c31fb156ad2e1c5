// The rules of a table's rows.
ghost use Rattle.std.specs.Prelude.{◌≡◌, ◌+◌, ◌≤◌, drop};
ghost use Rattle.wire.specs.Packet.{value_size};
ghost use Rattle.store.specs.Table.{row_size, value_at, all_zero, row_ok};

use crate::{Row, version};
use store::{ROW_SIZE, SIZE_AT, STATE_AT, State, VALUE_AT};
use wire::VALUE_SIZE;

// Only zeros. There is no way out before the last one, as `all` has: so many bytes are tested at once.
fn zeros(part: &[u8]) -> bool
    ensures { result ≡ all_zero part.now }
{
    part.iter().fold(true, |all, b| all & (*b == 0))
}

// Zeros from `at` to the end of a row: in the first k of these bytes and in the last k, where no byte is between.
#[tactic(auto, using(crate::proofs::Laws::zero_ends))]
fn ends_zero(r: &Row, at: usize, k: usize) -> bool
    requires { (at + k ≤ row_size) × (row_size ≤ at + k + k) }
    ensures { result ≡ all_zero (drop at r.now) }
{
    zeros(&r[at..at + k]) & zeros(&r[ROW_SIZE - k..])
}

// Zeros from behind a value of n bytes to the end of a row: by counts that are fixed, but for the last few bytes.
// Of 256 slots a check takes 1064 ns so; a loop over the counts took 1667 ns, no fixed count 2358 ns.
fn tail_ok(r: &Row, n: usize) -> bool
    requires { n ≤ value_size }
    ensures { result ≡ all_zero (drop (value_at + n) r.now) }
{
    let at = VALUE_AT + n;
    match n {
        0..=64 => ends_zero(r, at, 64),
        65..=96 => ends_zero(r, at, 32),
        97..=112 => ends_zero(r, at, 16),
        113..=120 => ends_zero(r, at, 8),
        _ => zeros(&r[at..]),
    }
}

#[tactic(auto, using(crate::proofs::Laws::version_is, crate::proofs::Laws::row_unused, crate::proofs::Laws::row_valued, crate::proofs::Laws::row_bare))]
pub(crate) fn row_ok(r: &Row) -> bool
    ensures { result ≡ row_ok r.now }
{
    let state = r[STATE_AT];
    if state == State::Free as u8 {
        return zeros(r);
    }
    let n = usize::from(r[SIZE_AT]);
    let v = version(r);
    if state == State::Valued as u8 {
        return ((n <= VALUE_SIZE) & v.is_given()) && tail_ok(r, n);
    }
    (((state == State::Entered as u8) & v.is_zero())
        | ((state == State::Deleted as u8) & v.is_given()))
        & ((n == 0) & zeros(&r[VALUE_AT..]))
}
