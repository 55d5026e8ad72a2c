// Plans and data sets, put together byte by byte.
// Numbers are narrowed by `as`: the bound is proved, and `try_from` would have a case that never comes.
use crate::tokens::{Words, number};

// How a word of a case is laid out: a number in one byte or in two, or elements as bits, the highest first.
// A value, since it holds from one line to the next, and matched once (`append_word`).
#[derive(Clone, Copy)]
pub enum Unit {
    Byte,
    Wide,
    Bits,
}

// What is being built: its bytes, in lent room and as many as the length says, and where the open section begins with its
// length. No vector: this program too runs without a heap.
#[derive(Drop)]
pub struct Draft<'a> {
    room: &'a mut [u8],
    len: usize,
    section: Option<usize>,
}

impl<'a> Draft<'a> {
    pub fn new(room: &'a mut [u8]) -> Self {
        Draft {
            room,
            len: 0,
            section: None,
        }
    }

    pub fn bytes(&self) -> &[u8] {
        self.room.get(..self.len).unwrap_or_default()
    }

    // Begins anew.
    pub fn clear(&mut self) {
        self.len = 0;
        self.section = None;
    }

    // What is appended from now on is outside any section.
    pub fn close(&mut self) {
        self.section = None;
    }

    // What is appended from now on is the body of a section, whose length is 0 still. None is counted that stands before any
    // edition.
    pub fn open(&mut self) {
        let start = self.len;
        self.push(0);
        self.push(0);
        self.section = (start > 0).then_some(start);
    }

    // Appends words as their unit says.
    pub fn append(&mut self, unit: Unit, words: Words<'_>) {
        for word in words {
            self.append_word(unit, word);
        }
        self.write_length();
    }

    fn append_word(&mut self, unit: Unit, word: &[u8]) {
        match unit {
            Unit::Byte => self.push((number(word) % 256) as u8),
            Unit::Wide => {
                let [high, low] = ((number(word) % 65536) as u16).to_be_bytes();
                self.push(high);
                self.push(low)
            }
            Unit::Bits => {
                for bits in word.chunks(8) {
                    self.push(eight_bits(bits));
                }
            }
        }
    }

    // Appends a byte, if there is room.
    fn push(&mut self, byte: u8) {
        if let Some(place) = self.room.get_mut(self.len) {
            *place = byte;
            self.len += 1;
        }
    }

    // Writes how long the open section is.
    fn write_length(&mut self) {
        let Some(start) = self.section else {
            return;
        };
        let Some(section) = self.room.get_mut(start..self.len) else {
            return;
        };
        if let [high, low, body @ ..] = section {
            [*high, *low] = ((body.len() % 65536) as u16).to_be_bytes();
        }
    }
}

// The byte of eight bits that are written; those that are not are 0.
fn eight_bits(bits: &[u8]) -> u8 {
    (0..8).fold(
        0u8,
        |byte, place| (byte << 1) | u8::from(bits.get(place).is_some_and(|bit| *bit == b'1')),
    )
}
