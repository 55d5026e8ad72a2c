// What the lines of a case say, and what they do.
use crate::actions::{Built, MOST_WORDS};
use crate::building::{Draft, Unit};
use crate::explaining::Request;
use crate::tokens::Words;
use std::io;
use std::io::Write;

// Which of the two is being built: a value that holds from one line to the next, matched once (`draft`).
#[derive(Clone, Copy)]
enum Part {
    Plan,
    Data,
}

// A case: what has been built, which part of it the words belong to, and how they are laid out.
#[derive(Drop)]
pub struct Case<'a> {
    plan: Draft<'a>,
    data: Draft<'a>,
    part: Part,
    unit: Unit,
}

impl<'a> Case<'a> {
    // Nothing built yet; a plan and a data set are built where there is room lent for them, and cut where it ends.
    pub fn new(plan_room: &'a mut [u8], data_room: &'a mut [u8]) -> Self {
        Case {
            plan: Draft::new(plan_room),
            data: Draft::new(data_room),
            part: Part::Plan,
            unit: Unit::Byte,
        }
    }

    // Does what a line says, up to its comment.
    pub fn run_line<W: Write>(&mut self, out: &mut W, line: &[u8]) -> io::Result<()> {
        let mut words = Words::new(line);
        let Some(keyword) = words.next() else {
            return Ok(());
        };
        match keyword {
            b"plan" => self.begin(Part::Plan, words),
            b"data" => self.begin(Part::Data, words),
            b"regions"
            | b"maps"
            | b"supplied"
            | b"statements"
            | b"nodes"
            | b"assignments"
            | b"steps"
            | b"pieces" => self.open(Unit::Byte, words),
            b"sizes" | b"entries" => self.open(Unit::Wide, words),
            b"members" => self.open(Unit::Bits, words),
            b"bytes" => {
                self.close(Unit::Byte);
                self.append(words)
            }
            b"times" => self.append_times(words),
            b"none" | [b'0'..=b'9', ..] => self.append(Words::new(line)),
            b"case" => {
                out.write_all(words.rest())?;
                out.write_all(b": ")?
            }
            b"check" => self.built().check(out)?,
            b"evaluate" => self.built().evaluate(out, words.number_or(MOST_WORDS))?,
            b"explain" => self.built().explain(out, Request::read(words))?,
            b"charge" => self.built().charge(out, words)?,
            _ => print_unknown(out, line)?,
        }
        Ok(())
    }

    // What is being built.
    fn draft(&mut self) -> &mut Draft<'a> {
        match self.part {
            Part::Plan => &mut self.plan,
            Part::Data => &mut self.data,
        }
    }

    // The plan and the data set, as far as they are.
    fn built(&self) -> Built<'_> {
        Built {
            plan: self.plan.bytes(),
            data: self.data.bytes(),
        }
    }

    // Begins a plan or a data set anew.
    fn begin(&mut self, part: Part, words: Words<'_>) {
        self.part = part;
        self.unit = Unit::Byte;
        self.draft().clear();
        self.append(words)
    }

    // Lays words out in another way from now on, outside any section.
    fn close(&mut self, unit: Unit) {
        self.unit = unit;
        self.plan.close();
        self.data.close();
    }

    // Opens a section, and appends words to it.
    fn open(&mut self, unit: Unit, words: Words<'_>) {
        self.close(unit);
        self.draft().open();
        self.append(words)
    }

    // Appends words to what is being built.
    fn append(&mut self, words: Words<'_>) {
        let unit = self.unit;
        self.draft().append(unit, words)
    }

    // Appends the words behind a number as often as it says.
    fn append_times(&mut self, mut words: Words<'_>) {
        for _ in 0..words.number_or(0) {
            self.append(words);
        }
    }
}

// Says that nothing is known of a line's first word.
fn print_unknown<W: Write>(out: &mut W, line: &[u8]) -> io::Result<()> {
    out.write_all(b"unknown word ")?;
    out.write_all(line)?;
    out.write_all(b"\n")
}
