// The lines of an input: what was read and not passed on yet, and the line that is made of it.
ghost use Rattle.std.specs.Prelude.{◌≡◌, ◌≤◌, IfSome, length};
ghost use Rattle.lines.specs.Sizes.{line_size, read_size};

use std::io::Read;

// One byte more than a line may have, so that the line is seen to be too long.
const LINE_SIZE: usize = 65;

// The most bytes of one read.
const READ_SIZE: usize = 4096;

// In fixed memory; std's readers of lines allocate.
#[derive(Drop)]
pub struct Lines<R> {
    reader: R,
    // What was read; unread of it is what stands from `at` to `end`.
    read: [u8; READ_SIZE],
    at: usize,
    end: usize,
    line: [u8; LINE_SIZE],
    used: usize,
    ghost in_order: { at ≤ end },
    ghost in_read: { end ≤ read_size },
    ghost in_line: { used ≤ line_size },
}

impl<R: Read> Lines<R> {
    // At first nothing is unread.
    pub fn new(reader: R) -> Lines<R>
        ensures { result.at ≡ result.end }
    {
        Lines {
            reader,
            read: [0; READ_SIZE],
            at: 0,
            end: 0,
            line: [0; LINE_SIZE],
            used: 0,
        }
    }

    // What a read gives; at the end of the input nothing. A read that fails is an end.
    fn fill(&mut self) {
        self.at = 0;
        self.end = self.reader.read(&mut self.read).unwrap_or(0);
    }

    // The next byte of the input, if there is one.
    fn byte(&mut self) -> Option<u8> {
        if self.at == self.end {
            self.fill();
        }
        if self.at == self.end {
            return None;
        }
        let b = self.read[self.at];
        self.at += 1;
        Some(b)
    }

    // A further byte of the line; one that finds no room is left out.
    fn keep(&mut self, b: u8) {
        if self.used < LINE_SIZE {
            self.line[self.used] = b;
            self.used += 1;
        }
    }

    // Whether there is a line: it ends at a newline or where the input does. A proved loop has to end, so there is a last byte.
    fn take(&mut self) -> bool {
        for _ in 0..u64::MAX {
            match self.byte() {
                None => return 0 < self.used,
                Some(b'\n') => return true,
                Some(b) => self.keep(b),
            }
        }
        true
    }

    // The next line, if there is one.
    pub fn next(&mut self) -> Option<&[u8]>
        ensures { IfSome result (λ line. length line.now ≤ line_size) }
    {
        self.used = 0;
        if self.take() {
            return Some(&self.line[..self.used]);
        }
        None
    }
}
