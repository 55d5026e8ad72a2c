// Words and numbers of a line.
ghost use Rattle.std.specs.Prelude.{◌<◌, ◌≤◌, length};
ghost use Rattle.std.specs.Iterator.{at_most};

// The words of a line that are still to be read. Spaces part them; the bytes need not be text.
#[derive(Clone, Copy)]
pub struct Words<'a> {
    line: &'a [u8],
}

impl<'a> Words<'a> {
    pub fn new(line: &'a [u8]) -> Self {
        Words { line }
    }

    // What is left of the line, from the next word on.
    pub fn rest(&self) -> &'a [u8]
        ensures { length result.now ≤ length self.now.line.now }
    {
        let start = self
            .line
            .iter()
            .position(|byte| *byte != b' ')
            .unwrap_or(self.line.len());
        &self.line[start..]
    }

    // The next word as a number; another value at the line's end.
    pub fn number_or(&mut self, otherwise: usize) -> usize {
        self.next().map_or(otherwise, number)
    }
}

impl<'a> Iterator for Words<'a> {
    type Item = &'a [u8];

    ghost remaining = { λ words. at_most (length words.line.now) };

    fn next(&mut self) -> Option<&'a [u8]> {
        let rest = self.rest();
        let (_first, others) = rest.split_first()?;
        let end = others
            .iter()
            .position(|byte| *byte == b' ')
            .map_or(rest.len(), |place| place + 1);
        let (word, line) = rest.split_at(end);
        self.line = line;
        Some(word)
    }
}

// The value of a digit; 0 for another byte.
fn digit(byte: u8) -> usize
    ensures { result < 10 }
{
    match byte {
        b'0'..=b'9' => usize::from(byte - b'0'),
        _ => 0,
    }
}

// A word as a number: 65535 for none, and the greatest of 64 bits for any that is not below it.
// Not by `parse`, which takes text alone and refuses what is too great: a word is any bytes, and each has its number here. By a
// test and not by saturating operations, of which each waits for the one before: with those a file of numbers took a quarter longer.
pub fn number(word: &[u8]) -> usize {
    if let b"none" = word {
        return 65535;
    }
    let mut value = 0;
    for byte in word {
        let last = digit(*byte);
        if value > (usize::MAX - last) / 10 {
            return usize::MAX;
        }
        value = value * 10 + last;
    }
    value
}
