// A line of a script: its words, and the command that they make.
#![tactic(auto)]

ghost use Rattle.std.specs.Prelude.{◌≤◌, ◌≡◌, length};
ghost use Rattle.wire.specs.Numbers.{eqs};
ghost use Rattle.script.specs.Sizes.{most_text, most_number};
ghost use Rattle.script.specs.Words.{word, word_count, plain, text_of, key_of, value_of, capped, longer, number_of};
ghost use Rattle.script.specs.Commands.{of_one, of_two, bare_of, of_three, write_of, open_of, of_four, of_count, command_of};

use wire::Op;

// The most bytes of a line, and of a key or a value.
const MOST_LINE: usize = 64;

const MOST_TEXT: usize = 16;

// The largest number that a node or a parcel can have.
const MOST_NUMBER: u16 = 64;

// Where a new node goes: before the named one, or after it.
#[derive(Clone, Copy)]
pub enum Side {
    Before,
    After,
}

// The controller's steps, and all commands. Nodes and parcels by their numbers, where the word shows one; key and value are parts of the line.
#[derive(Clone, Copy)]
pub enum Order {
    Open(Side, Option<u16>, Option<u16>),
    Fence,
    Copy,
    Activate,
    Cancel,
    Remove(Option<u16>),
}

#[derive(Clone, Copy)]
pub enum Command {
    Enter(Option<u16>),
    Send(Op),
    Deliver(Option<u16>),
    Halt(Option<u16>),
    Rule(Order),
    Unclear,
}

// ---- words: what stands between single spaces, so a word may be empty

// Word n, from 0 on; empty where there are fewer words.
fn word(line: &[u8], n: usize) -> &[u8]
    ensures { result.now ≡ word n line.now }
{
    line.split(|b| *b == b' ').nth(n).unwrap_or(&[])
}

fn count(line: &[u8]) -> usize
    ensures { result ≡ word_count line.now }
{
    line.split(|b| *b == b' ').count()
}

// ---- numbers, keys and values

#[tactic(auto, unfolding(wire::specs::Numbers::pick, crate::specs::Words::capped))]
fn cap(n: u16) -> Option<u16>
    ensures { result ≡ capped n }
{
    if n <= MOST_NUMBER { Some(n) } else { None }
}

// The number with a digit more; none for what is no digit, and once the number is over.
#[tactic(auto, unfolding(wire::specs::Numbers::pick, crate::specs::Words::longer))]
fn more(n: u16, b: u8) -> Option<u16>
    requires { n ≤ most_number }
    ensures { result ≡ longer n b }
{
    if b.is_ascii_digit() {
        return cap(n * 10 + u16::from(b - b'0'));
    }
    None
}

// The number that a word shows, if it shows one that is not too large; `parse` would take a sign too.
#[tactic(auto, using(crate::proofs::Laws::number_turn, crate::proofs::Laws::number_end), unfolding(wire::specs::Numbers::pick, crate::specs::Words::number_of))]
fn number(w: &[u8]) -> Option<u16>
    ensures { result ≡ number_of w.now }
{
    if w.is_empty() {
        return None;
    }
    let mut n = 0;
    for b in w {
        n = more(n, *b)?;
    }
    Some(n)
}

fn is_plain(w: &[u8]) -> bool
    ensures { result ≡ plain w.now }
{
    w.iter().all(|b| b.is_ascii_alphanumeric())
}

// A word where it can be a key or a value; else nothing.
#[tactic(auto, using(crate::proofs::Laws::text_fits), unfolding(wire::specs::Numbers::pick, crate::specs::Words::text_of))]
fn text(w: &[u8]) -> &[u8]
    ensures value { result.now ≡ text_of w.now }
    ensures bound { length result.now ≤ most_text }
{
    if w.len() <= MOST_TEXT && is_plain(w) {
        return w;
    }
    &[]
}

// The key of a line, where its third word can be one; else the empty part, as in `key_of`.
pub fn key(line: &[u8]) -> &[u8]
    ensures value { result.now ≡ key_of line.now }
    ensures bound { length result.now ≤ most_text }
{
    text(word(line, 2))
}

// The value of a line, where its fourth word can be one.
pub fn value(line: &[u8]) -> &[u8]
    ensures value { result.now ≡ value_of line.now }
    ensures bound { length result.now ≤ most_text }
{
    text(word(line, 3))
}

// ---- commands, by how many words they have

// A match on byte strings would be a case for each byte to the check.
fn same(a: &[u8], b: &[u8]) -> bool
    ensures { result ≡ eqs a.now b.now }
{
    a == b
}

#[tactic(auto, unfolding(wire::specs::Numbers::pick, crate::specs::Commands::of_one))]
fn of_one(w: &[u8]) -> Command
    ensures { result ≡ of_one w.now }
{
    if same(w, b"fence") {
        Command::Rule(Order::Fence)
    } else if same(w, b"copy") {
        Command::Rule(Order::Copy)
    } else if same(w, b"activate") {
        Command::Rule(Order::Activate)
    } else if same(w, b"cancel") {
        Command::Rule(Order::Cancel)
    } else {
        Command::Unclear
    }
}

#[tactic(auto, unfolding(wire::specs::Numbers::pick, crate::specs::Commands::of_two))]
fn of_two(w: &[u8], n: Option<u16>) -> Command
    ensures { result ≡ of_two w.now n }
{
    if same(w, b"deliver") {
        Command::Deliver(n)
    } else if same(w, b"halt") {
        Command::Halt(n)
    } else if same(w, b"remove") {
        Command::Rule(Order::Remove(n))
    } else {
        Command::Unclear
    }
}

// A query that has no value.
#[tactic(auto, unfolding(wire::specs::Numbers::pick, crate::specs::Commands::bare_of))]
fn bare(x: &[u8]) -> Command
    ensures { result ≡ bare_of x.now }
{
    if same(x, b"r") {
        Command::Send(Op::Read)
    } else if same(x, b"d") {
        Command::Send(Op::Delete)
    } else {
        Command::Unclear
    }
}

#[tactic(auto, unfolding(wire::specs::Numbers::pick, crate::specs::Commands::of_three))]
fn of_three(w: &[u8], x: &[u8], k: &[u8]) -> Command
    ensures { result ≡ of_three w.now x.now k.now }
{
    if k.is_empty() {
        Command::Unclear
    } else if same(w, b"enter") {
        Command::Enter(number(x))
    } else if same(w, b"send") {
        bare(x)
    } else {
        Command::Unclear
    }
}

#[tactic(auto, unfolding(wire::specs::Numbers::pick, crate::specs::Commands::write_of))]
fn write(x: &[u8], k: &[u8], v: &[u8]) -> Command
    ensures { result ≡ write_of x.now k.now v.now }
{
    if k.is_empty() || v.is_empty() {
        Command::Unclear
    } else if same(x, b"w") {
        Command::Send(Op::Write)
    } else {
        Command::Unclear
    }
}

#[tactic(auto, unfolding(wire::specs::Numbers::pick, crate::specs::Commands::open_of))]
fn open(x: &[u8], named: Option<u16>, fresh: Option<u16>) -> Command
    ensures { result ≡ open_of x.now named fresh }
{
    if same(x, b"b") {
        Command::Rule(Order::Open(Side::Before, named, fresh))
    } else if same(x, b"a") {
        Command::Rule(Order::Open(Side::After, named, fresh))
    } else {
        Command::Unclear
    }
}

#[tactic(auto, unfolding(wire::specs::Numbers::pick, crate::specs::Commands::of_four))]
fn of_four(line: &[u8]) -> Command
    ensures { result ≡ of_four line.now }
{
    let w = word(line, 0);
    let x = word(line, 1);
    if same(w, b"send") {
        write(x, key(line), value(line))
    } else if same(w, b"open") {
        open(x, number(word(line, 2)), number(word(line, 3)))
    } else {
        Command::Unclear
    }
}

// The command of a line of so many words.
#[tactic(auto, unfolding(wire::specs::Numbers::pick, crate::specs::Commands::of_count))]
fn made(line: &[u8], n: usize) -> Command
    ensures { result ≡ of_count line.now n }
{
    let w = word(line, 0);
    match n {
        1 => of_one(w),
        2 => of_two(w, number(word(line, 1))),
        3 => of_three(w, word(line, 1), key(line)),
        4 => of_four(line),
        _ => Command::Unclear,
    }
}

// The command of a line.
#[tactic(auto, unfolding(wire::specs::Numbers::pick, crate::specs::Commands::command_of))]
pub fn read(line: &[u8]) -> Command
    ensures { result ≡ command_of line.now }
{
    if MOST_LINE < line.len() {
        return Command::Unclear;
    }
    made(line, count(line))
}
