// The output line of a line: its number, the result, and the parcel made.
ghost use Rattle.std.specs.Prelude.{◌≡◌, ◌+◌, ◌*◌, ◌≤◌, ◌<◌, length, Some};
ghost use Rattle.wire.specs.Packet.{value_size};
ghost use Rattle.lines.specs.Sizes.{most_digits, row_size};
ghost use Rattle.lines.specs.Text.{place_text};

use std::fmt;
use wire::Version;

// The most digits of a number.
const MOST_DIGITS: usize = 20;

// Room for an output line.
const ROW_SIZE: usize = 256;

// Where a parcel goes: to the relay, to a client, or to the node of an id.
#[derive(Clone, Copy)]
pub enum Place {
    Relay,
    Client,
    Node(u16),
}

// Its column of a line, for other crates; a row writes it by `Row::to`.
impl fmt::Display for Place {
    ghost output = { λ to. Some (place_text to) };

    fn fmt<W: fmt::Write>(&self, f: &mut fmt::Formatter<W>) -> fmt::Result {
        match self {
            Place::Relay => write!(f, "r"),
            Place::Client => write!(f, "c"),
            Place::Node(id) => write!(f, "{id}"),
        }
    }
}

// A parcel that a line made: its number, where it goes, and its packet.
#[derive(Clone, Copy)]
pub struct Made<'a> {
    pub parcel: usize,
    pub to: Place,
    pub packet: &'a [u8],
}

// The value of a packet; nothing of what is no packet.
#[tactic(auto, using(crate::proofs::Laws::value_short))]
fn shown(packet: &[u8]) -> &[u8]
    ensures { length result.now ≤ value_size }
{
    packet::value(packet)
}

// An output line as it is written: its bytes in front of its room, and how many they are. What `write!` promises says nothing of how many bytes it writes.
#[derive(Drop)]
struct Row {
    room: [u8; ROW_SIZE],
    used: usize,
    ghost in_room: { used ≤ row_size },
}

impl Row {
    fn byte(&mut self, b: u8)
        requires { self.old.used < row_size }
        ensures { self.new.used ≡ self.old.used + 1 }
    {
        self.room[self.used] = b;
        self.used += 1;
    }

    fn bytes(&mut self, s: &[u8])
        requires { self.old.used + length s.now ≤ row_size }
        ensures { self.new.used ≡ self.old.used + length s.now }
    {
        be::put_bytes(&mut self.room, self.used, s);
        self.used += s.len();
    }

    // A number, and what stands behind it.
    fn decimal(&mut self, n: u64, end: u8)
        requires { self.old.used + most_digits < row_size }
        ensures { self.new.used ≤ self.old.used + most_digits + 1 }
    {
        let mut digits = [0u8; MOST_DIGITS];
        let k = io::decimal(n, &mut digits);
        self.bytes(&digits[..k]);
        self.byte(end);
    }

    fn to(&mut self, place: Place)
        requires { self.old.used + most_digits < row_size }
        ensures { self.new.used ≤ self.old.used + most_digits + 1 }
    {
        match place {
            Place::Relay => self.bytes(b"r "),
            Place::Client => self.bytes(b"c "),
            Place::Node(id) => self.decimal(u64::from(id), b' '),
        }
    }

    fn version(&mut self, v: Version)
        requires { self.old.used + 2 * most_digits + 2 ≤ row_size }
        ensures { self.new.used ≤ self.old.used + 2 * most_digits + 2 }
    {
        self.decimal(u64::from(v.session.0), b'.');
        self.decimal(u64::from(v.sequence.0), b' ');
    }

    // The value of a packet, and the end of the line.
    fn value(&mut self, packet: &[u8])
        requires { self.old.used + value_size + 1 ≤ row_size }
        ensures { self.new.used ≤ self.old.used + value_size + 1 }
    {
        let v = shown(packet);
        if v.is_empty() {
            self.bytes(b"-\n");
            return;
        }
        self.bytes(v);
        self.byte(b'\n');
    }

    // Destination, version and value of a packet; what is no packet has no columns.
    fn columns(&mut self, to: Place, packet: &[u8])
        requires { self.old.used + 3 * most_digits + 3 + value_size + 1 ≤ row_size }
    {
        match packet::read(packet) {
            Ok(h) => {
                self.to(to);
                self.version(h.version);
                self.value(packet);
            }
            Err(_) => self.bytes(b"- 0.0 -\n"),
        }
    }

    // The whole line.
    fn row(&mut self, line: u64, number: u8, made: Option<Made>)
        requires { self.old.used ≡ 0 }
    {
        self.decimal(line, b' ');
        self.decimal(u64::from(number), b' ');
        match made {
            Some(made) => {
                self.decimal(made.parcel as u64, b' ');
                self.columns(made.to, made.packet);
            }
            None => self.bytes(b"0 - 0.0 -\n"),
        }
    }
}

// Writes what a line gave, in one write: 0 or a refusal, and the parcel made, if one was. A write that fails is passed over.
pub fn tell(rt: &impl Print, line: u64, number: u8, made: Option<Made>) {
    let mut out = Row {
        room: [0; ROW_SIZE],
        used: 0,
    };
    out.row(line, number, made);
    let _ = rt.write_all(&out.room[..out.used]);
}

#[cfg(test)]
mod tests {
    use super::*;
    use std::test::Fail;

    // Document 01's column: `r` for the relay, `c` for a client, else the id; the other form and a width, of which no clause speaks, change nothing.
    #[test]
    fn places_shown(rt: HostRuntime) -> Result<(), Fail> {
        for (to, text) in [
            (Place::Relay, "r"),
            (Place::Client, "c"),
            (Place::Node(1), "1"),
            (Place::Node(65535), "65535"),
        ] {
            let plain = to.to_string(rt.alloc())?;
            let styled = format!(in rt.alloc(); "{to:#8}")?;
            assert_eq!(rt; plain.as_str(), text);
            assert_eq!(rt; styled.as_str(), text);
        }
        Ok(())
    }

    // No clause says that a destination is shown where there is room.
    #[test]
    fn each_node_shown(rt: HostRuntime) -> Result<(), Fail> {
        for id in 0..=u16::MAX {
            let to = Place::Node(id);
            let number = id.to_string(rt.alloc())?;
            let plain = to.to_string(rt.alloc())?;
            let styled = format!(in rt.alloc(); "{to:#8}")?;
            assert_eq!(rt; plain.as_str(), number.as_str());
            assert_eq!(rt; styled.as_str(), number.as_str());
        }
        Ok(())
    }
}
