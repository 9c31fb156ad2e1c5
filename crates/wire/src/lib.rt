// Sizes, ops, answers and refusals.
// Sessions, sequences and stamps: numbers of three kinds, each compared only with its own kind.
// Versions, and the fields of a packet.
#![tactic(auto)]

ghost use Rattle.std.specs.Prelude.{◌≡◌, Bool, true, false, refl};
ghost use Rattle.wire.specs.Numbers.{pick, refusal_number, code, first_number, tests_of};
ghost use Rattle.wire.specs.Version.{version, session, sequence, stamp, top_session, top_sequence, top_stamp, last_session, next_session, last_sequence, next_sequence, last_stamp, next_stamp, newer, is_zero, is_given, is_orderly};

// All of a packet but its value; the key; the most of a value; what an outlet must hold.
pub const FRONT_SIZE: usize = 40;

pub const KEY_SIZE: usize = 16;

pub const VALUE_SIZE: usize = 128;

pub const OUTLET_SIZE: usize = 168;

// What a packet asks for. Its byte may hold any number, so it is compared as one: `Op::Read as u8`.
#[derive(Clone, Copy)]
pub enum Op {
    Read = 1,
    Write = 2,
    Delete = 3,
}

// Answers; a query is none.
#[derive(Clone, Copy)]
pub enum Answer {
    Query = 0,
    Value = 1,
    NoValue = 2,
    NoKey = 3,
    Written = 4,
}

// Numbers returned, under the names of the definitions.
#[derive(Clone, Copy)]
pub enum Refusal {
    Broken = 1,
    SmallOutlet = 2,
    Malformed = 3,
    Misaddressed = 4,
    Stranger = 5,
    Stopped = 6,
    BelowFence = 7,
    Sessionless = 8,
    KeyMissing = 9,
    SessionOver = 10,
    NoNumberLeft = 11,
    NotNewer = 12,
    ChangeOpen = 13,
    OutOfTurn = 14,
    NotMeant = 15,
    IdUsed = 16,
    ChainFull = 17,
    OnlyNode = 18,
    OtherCount = 19,
    KeyThere = 20,
    NoFreeSlot = 21,
    FenceAbove = 22,
}

impl From<Refusal> for u8 {
    ghost from_gives = { λ r n. n ≡ refusal_number r };

    fn from(r: Refusal) -> u8 {
        r as u8
    }
}

// The number returned: the refusal's, or 0 where the step is done.
pub fn number<T: Copy>(answer: Result<T, Refusal>) -> u8
    ensures { result ≡ code answer }
{
    match answer {
        Ok(_) => 0,
        Err(r) => u8::from(r),
    }
}

// A step's rows in their order, each with whether it applies, as document 01's table has them: the first that does refuses.
pub fn first_of<const N: usize>(rows: [(bool, Refusal); N]) -> Result<(), Refusal>
    ensures { code result ≡ first_number (tests_of rows.entry) }
{
    for (applies, refusal) in rows {
        if applies {
            return Err(refusal);
        }
    }
    Ok(())
}

#[derive(Clone, Copy, Default, PartialEq, Eq, PartialOrd, Ord)]
pub struct Session(pub u16);

#[derive(Clone, Copy, Default, PartialEq, Eq, PartialOrd, Ord)]
pub struct Sequence(pub u32);

#[derive(Clone, Copy, PartialEq, Eq, PartialOrd, Ord)]
pub struct Stamp(pub u32);

// Ordered by session first.
#[derive(Clone, Copy, Default, PartialEq, Eq, PartialOrd, Ord)]
pub struct Version {
    pub session: Session,
    pub sequence: Sequence,
}

// The fields of a packet but for its key and its value, which are parts of the packet's bytes.
#[derive(Clone, Copy)]
pub struct Head {
    pub op: u8,
    pub answer: u8,
    pub from: u16,
    pub to: u16,
    pub client: u16,
    pub request: u32,
    pub stamp: Stamp,
    pub version: Version,
    pub length: u8,
}

// A kind of numbers that grow by one: an impl says which is the largest, and which comes after one.
pub trait Kind: Copy + PartialEq {
    ghost TOP: { Self };

    ghost is_last: { Self → Bool };

    ghost after: { Self → Self };

    // The largest number of the kind.
    const TOP: Self;

    // The number after this one; the last stays as it is.
    fn next(self) -> Self
        ensures { result ≡ after self };

    // Whether no number comes after this one.
    final fn last(self) -> bool
        ensures { result ≡ is_last self }
    {
        self == Self::TOP
    }

    ghost tops: { (n : Self) → Self.PartialEq.eq n TOP ≡ is_last n };
}

impl Kind for Session {
    ghost TOP = { session top_session };

    ghost is_last = { last_session };

    ghost after = { next_session };

    const TOP: Session = Session(65535);

    #[tactic(auto, unfolding(crate::specs::Version::next_session, crate::specs::Numbers::pick))]
    fn next(self) -> Session {
        Session(self.0.saturating_add(1))
    }

    ghost tops = { λ n. refl };
}

impl Kind for Sequence {
    ghost TOP = { sequence top_sequence };

    ghost is_last = { last_sequence };

    ghost after = { next_sequence };

    const TOP: Sequence = Sequence(4294967295);

    #[tactic(auto, unfolding(crate::specs::Version::next_sequence, crate::specs::Numbers::pick))]
    fn next(self) -> Sequence {
        Sequence(self.0.saturating_add(1))
    }

    ghost tops = { λ n. refl };
}

impl Kind for Stamp {
    ghost TOP = { stamp top_stamp };

    ghost is_last = { last_stamp };

    ghost after = { next_stamp };

    const TOP: Stamp = Stamp(4294967295);

    #[tactic(auto, unfolding(crate::specs::Version::next_stamp, crate::specs::Numbers::pick))]
    fn next(self) -> Stamp {
        Stamp(self.0.saturating_add(1))
    }

    ghost tops = { λ n. refl };
}

impl Version {
    pub fn new(session: u16, sequence: u32) -> Version
        ensures { result ≡ version session sequence }
    {
        Version {
            session: Session(session),
            sequence: Sequence(sequence),
        }
    }

    // 0.0, by its two numbers as in the definition.
    pub fn is_zero(self) -> bool
        ensures { result ≡ is_zero self }
    {
        (self.session.0 == 0) & (self.sequence.0 == 0)
    }

    // Both numbers over 0.
    pub fn is_given(self) -> bool
        ensures { result ≡ is_given self }
    {
        (0 < self.session.0) & (0 < self.sequence.0)
    }

    // A sequence over 0 only with a session over 0.
    pub fn is_orderly(self) -> bool
        ensures { result ≡ is_orderly self }
    {
        (self.sequence.0 == 0) | (0 < self.session.0)
    }

    // Whether this version is strictly newer than the other.
    #[tactic(auto, unfolding(crate::specs::Version::newer))]
    pub fn newer(self, other: Version) -> bool
        ensures { result ≡ newer self other }
    {
        other < self
    }
}
