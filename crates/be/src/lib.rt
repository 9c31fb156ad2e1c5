// Big-endian numbers in a slice of bytes, and bytes copied and cleared in a part of one.
#![tactic(auto)]

ghost use Rattle.std.specs.Prelude.{◌≡◌, ◌+◌, ◌<◌, ◌^◌, ◌≤◌, ℕ, List, [], ◌∷◌, length, take, drop, replicate, refl, eqb};
ghost use Rattle.std.proofs.Common.{ap, sym};
ghost use Rattle.std.proofs.Math.Nat.{mod-eq_of_lt};
ghost use Rattle.be.specs.Be.{be, digits, put};

// A number of some bytes, the highest first. Each size has an impl of its own: std converts each type by its own methods, and no macro writes one.
pub trait Number {
    // how many bytes it has
    ghost SIZE: { ℕ };

    // the number that it is
    ghost value: { Self → ℕ };

    // its bytes
    ghost bytes: { Self → List ℕ };

    const SIZE: usize;

    // The number that a part of that size stands for.
    fn of_bytes(part: &[u8]) -> Self
        requires { length part.now ≡ SIZE }
        ensures { value result ≡ be SIZE part.now 0 };

    // Its bytes, over a part of that size.
    fn give_bytes(self, part: &mut [u8])
        requires { length part.old ≡ SIZE }
        ensures { part.new ≡ bytes self };

    // Its value tells it apart.
    ghost told: { (x y : Self) → value x ≡ value y → x ≡ y };

    // Its bytes are those of its value.
    ghost bytes_are: { (x : Self) → value x < 256 ^ SIZE → bytes x ≡ digits SIZE (value x) };
}

impl Number for u8 {
    ghost SIZE = { 1 };

    ghost value = { λ n. n };

    ghost bytes = { λ n. n ∷ [] };

    ghost told = { λ x y e. e };

    ghost bytes_are = { λ x h. ap (λ m. m ∷ []) (sym (mod-eq_of_lt h)) };

    const SIZE: usize = 1;

    fn of_bytes(part: &[u8]) -> u8 {
        part[0]
    }

    fn give_bytes(self, part: &mut [u8]) {
        part[0] = self;
    }
}

impl Number for u16 {
    ghost SIZE = { 2 };

    ghost value = { λ n. n };

    ghost bytes = { λ n. digits 2 n };

    ghost told = { λ x y e. e };

    ghost bytes_are = { λ x h. refl };

    const SIZE: usize = 2;

    fn of_bytes(part: &[u8]) -> u16 {
        u16::from_be_bytes([part[0], part[1]])
    }

    fn give_bytes(self, part: &mut [u8]) {
        part.copy_from_slice(&u16::to_be_bytes(self));
    }
}

impl Number for u32 {
    ghost SIZE = { 4 };

    ghost value = { λ n. n };

    ghost bytes = { λ n. digits 4 n };

    ghost told = { λ x y e. e };

    ghost bytes_are = { λ x h. refl };

    const SIZE: usize = 4;

    fn of_bytes(part: &[u8]) -> u32 {
        u32::from_be_bytes([part[0], part[1], part[2], part[3]])
    }

    fn give_bytes(self, part: &mut [u8]) {
        part.copy_from_slice(&u32::to_be_bytes(self));
    }
}

impl Number for u64 {
    ghost SIZE = { 8 };

    ghost value = { λ n. n };

    ghost bytes = { λ n. digits 8 n };

    ghost told = { λ x y e. e };

    ghost bytes_are = { λ x h. refl };

    const SIZE: usize = 8;

    fn of_bytes(part: &[u8]) -> u64 {
        u64::from_be_bytes([
            part[0], part[1], part[2], part[3], part[4], part[5], part[6], part[7],
        ])
    }

    fn give_bytes(self, part: &mut [u8]) {
        part.copy_from_slice(&u64::to_be_bytes(self));
    }
}

// The number that stands at `at`: a load, and a turn of its bytes. A struct of slice and place would be made for each call alone.
#[tactic(auto, using(crate::proofs::Laws::be_part))]
pub fn read<T: Number>(s: &[u8], at: usize) -> T
    requires { at + T.SIZE ≤ length s.now }
    ensures { T.value result ≡ be T.SIZE s.now at }
{
    T::of_bytes(&s[at..at + T::SIZE])
}

// The bytes of n, from `at` on: a turn, and a store.
#[tactic(auto, using(crate::proofs::Laws::mid_put))]
pub fn put<T: Number>(s: &mut [u8], at: usize, n: T)
    requires { at + T.SIZE ≤ length s.old }
    ensures { s.new ≡ put s.old at (T.bytes n) }
{
    n.give_bytes(&mut s[at..at + T::SIZE]);
}

// Whether two numbers of eight bytes are the same: neither is turned.
pub fn same64(s: &[u8], at: usize, t: &[u8], to: usize) -> bool
    requires { (at + 8 ≤ length s.now) × (to + 8 ≤ length t.now) }
    ensures { result ≡ eqb (be 8 s.now at) (be 8 t.now to) }
{
    read::<u64>(s, at) == read::<u64>(t, to)
}

// All of src, from `at` on, byte by byte.
#[tactic(auto, using(crate::proofs::Laws::turn, crate::proofs::Laws::done))]
fn put_short(s: &mut [u8], at: usize, src: &[u8])
    requires { at + length src.now ≤ length s.old }
    ensures { s.new ≡ put s.old at src.now }
{
    for (i, b) in src.iter().enumerate() {
        s[at + i] = *b;
    }
}

// The word of src from i on, to its place in s.
fn put_word(s: &mut [u8], at: usize, src: &[u8], i: usize)
    requires { (at + length src.now ≤ length s.old) × (i + 8 ≤ length src.now) }
    ensures { s.new ≡ put s.old (at + i) (take 8 (drop i src.now)) }
{
    put(s, at + i, read::<u64>(src, i));
}

// All of src, from `at` on, by words; the last may go over bytes that the one before it put.
fn put_words(s: &mut [u8], at: usize, src: &[u8])
    requires { (at + length src.now ≤ length s.old) × (8 ≤ length src.now) }
    ensures { s.new ≡ put s.old at src.now }
{
    let last = src.len() - 8;
    for i in (0..last).step_by(8) {
        put_word(s, at, src, i);
    }
    put_word(s, at, src, last);
}

// All of src, from `at` on; `copy_from_slice` took 3 ns more at a key or an empty value, a relay step 8 ns more.
pub fn put_bytes(s: &mut [u8], at: usize, src: &[u8])
    requires { at + length src.now ≤ length s.old }
    ensures { s.new ≡ put s.old at src.now }
{
    if src.len() < 8 {
        put_short(s, at, src);
    } else {
        put_words(s, at, src);
    }
}

// n zeros, from `at` on.
#[tactic(auto, using(crate::proofs::Laws::mid_put))]
pub fn put_zeros(s: &mut [u8], at: usize, n: usize)
    requires { at + n ≤ length s.old }
    ensures { s.new ≡ put s.old at (replicate n 0) }
{
    s[at..at + n].fill(0);
}
