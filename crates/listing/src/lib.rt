// The text of a report, line by line: the answer, and the members of pieces or the pairs of a chain. Each line is one write.
// A function for each answer: text and clause differ, and a trait for them would be longer.
#![tactic(auto)]

mod line;
mod members;

ghost use Rattle.std.specs.Prelude.{◌≤◌, ◌<◌, length, OnOk};
ghost use Rattle.std.specs.Io.KnownBytes.{Appends};
ghost use Rattle.model.specs.Answers.{refusal_report, report, written_report, charge_report};
ghost use Rattle.listing.specs.Text.{numbers_text, answer_text, charge_text, explained_text, explanation_text, node_text, pair_text, piece_text, refused_text};

use line::{Line, append, append_byte, append_number, append_spaced};
use members::Members;
use model::{Acceptance, Charge, Refusal};
use std::io;
use std::io::Write;

// Writes the line of a refusal: its number, its place.
fn print_refusal<W: Write>(out: &mut W, refusal: Refusal) -> io::Result<()>
    ensures { OnOk result (Appends (W.contents out.old) (W.contents out.new) (refused_text (refusal_report refusal).number (refusal_report refusal).place)) }
{
    let mut line = Line::new();
    append(&mut line, b"refused");
    append_spaced(&mut line, refusal.number());
    append_spaced(&mut line, refusal.place());
    append_byte(&mut line, b'\n');
    out.write_all(line.as_slice())
}

// Writes the line of an acceptance or of a charge: its word, and its three numbers.
fn print_numbers<W: Write>(
    out: &mut W,
    word: &[u8],
    first: usize,
    second: usize,
    third: usize,
) -> io::Result<()>
    requires { length word.now ≤ 8 }
    ensures { OnOk result (Appends (W.contents out.old) (W.contents out.new) (numbers_text word.now first second third)) }
{
    let mut line = Line::new();
    append(&mut line, word);
    append_spaced(&mut line, first);
    append_spaced(&mut line, second);
    append_spaced(&mut line, third);
    append_byte(&mut line, b'\n');
    out.write_all(line.as_slice())
}

// Writes the line of an explanation: how long its chain is.
fn print_length<W: Write>(out: &mut W, pairs: usize) -> io::Result<()>
    ensures { OnOk result (Appends (W.contents out.old) (W.contents out.new) (explained_text pairs)) }
{
    let mut line = Line::new();
    append(&mut line, b"explained");
    append_spaced(&mut line, pairs);
    append_byte(&mut line, b'\n');
    out.write_all(line.as_slice())
}

// Writes the line of an answer.
#[tactic(auto, using(crate::proofs::Lines::accepted_numbers, crate::proofs::Lines::refused_answer_line))]
pub fn print_answer<W: Write>(out: &mut W, answer: Result<Acceptance, Refusal>) -> io::Result<()>
    ensures { OnOk result (Appends (W.contents out.old) (W.contents out.new) (answer_text (report answer))) }
{
    match answer {
        Ok(accepted) => print_numbers(
            out,
            b"accepted",
            accepted.symbols,
            accepted.nodes,
            accepted.steps,
        ),
        Err(refusal) => print_refusal(out, refusal),
    }
}

// Writes the line of an explanation or of its refusal.
#[tactic(auto, using(crate::proofs::Lines::explained_line, crate::proofs::Lines::refused_explanation_line))]
pub fn print_explanation<W: Write>(out: &mut W, answer: Result<usize, Refusal>) -> io::Result<()>
    ensures { OnOk result (Appends (W.contents out.old) (W.contents out.new) (explanation_text (written_report answer))) }
{
    match answer {
        Ok(pairs) => print_length(out, pairs),
        Err(refusal) => print_refusal(out, refusal),
    }
}

// Writes the line of a charge or of its refusal.
#[tactic(auto, using(crate::proofs::Lines::charged_numbers, crate::proofs::Lines::refused_charge_line))]
pub fn print_charge<W: Write>(out: &mut W, answer: Result<Charge, Refusal>) -> io::Result<()>
    ensures { OnOk result (Appends (W.contents out.old) (W.contents out.new) (charge_text (charge_report answer))) }
{
    match answer {
        Ok(charge) => print_numbers(
            out,
            b"charged",
            charge.count,
            charge.cents,
            charge.remainder,
        ),
        Err(refusal) => print_refusal(out, refusal),
    }
}

// Writes the line of a chain's pair.
pub fn print_pair<W: Write>(out: &mut W, node: u16, element: u16) -> io::Result<()>
    ensures { OnOk result (Appends (W.contents out.old) (W.contents out.new) (pair_text node element)) }
{
    let mut line = Line::new();
    append_number(&mut line, usize::from(node));
    append_spaced(&mut line, usize::from(element));
    append_byte(&mut line, b'\n');
    out.write_all(line.as_slice())
}

// Writes the line of a piece, whose words stand from the first on.
fn print_piece<W: Write>(
    out: &mut W,
    number: usize,
    piece: usize,
    words: &[u64],
    first: usize,
) -> io::Result<()>
    ensures { OnOk result (Appends (W.contents out.old) (W.contents out.new) (piece_text number piece words.now first)) }
{
    let mut line = Line::new();
    append_number(&mut line, number);
    append_spaced(&mut line, piece);
    append_byte(&mut line, b':');
    Members { words, first }.append_to(&mut line);
    append_byte(&mut line, b'\n');
    out.write_all(line.as_slice())
}

// Writes the lines of a node's pieces, each with a number in front. Five parameters: who prints has the words, the count of
// pieces and the numbers apart, and a struct of them would be made anew for each call.
#[tactic(auto, using(crate::proofs::Written::written), unfolding(crate::specs::Text::pieces_text))]
pub fn print_node<W: Write>(
    out: &mut W,
    number: usize,
    node: usize,
    pieces: usize,
    words: &[u64],
) -> io::Result<()>
    requires { (node < 256) × (pieces < 256) }
    ensures { OnOk result (Appends (W.contents out.old) (W.contents out.new) (node_text number node pieces words.now)) }
{
    for piece in 0..pieces {
        let first = (node * pieces + piece) * 8;
        print_piece(out, number, piece, words, first)?;
    }
    Ok(())
}
