// Evaluates the plan of the file plan.bin over the data set of the file data.bin, and prints the answer and, for each symbol
// and piece, the members.
#![tactic(auto)]

ghost use Rattle.std.specs.Prelude.{◌≡◌, length, OnOk};
ghost use Rattle.std.specs.Io.KnownBytes.{Appends};
ghost use Rattle.report.specs.Buffers.{plan_bytes, data_bytes};
ghost use Rattle.report.specs.Printed.{symbols_text, Printed};

use dataset::cells::piece_count;
use evaluate::evaluate;
use files::read_file;
use layout::cells::assigned_node;
use listing::{print_answer, print_node};
use model::Report;
use std::io;
use std::io::Write;

// How much of each file is read: of a longer one, this gives the answer of the whole (proofs/Prefixes.antt).
const PLAN_BYTES: usize = 458_761;

const DATA_BYTES: usize = 262_150;

// As many words as any plan needs.
const MOST_WORDS: usize = 6144;

// Prints the members of each symbol's pieces. Five parameters: the files' bytes, the words and the count come from three
// places, and a struct of them would be made for this call alone.
#[tactic(auto, using(listing::proofs::Written::written), unfolding(crate::specs::Printed::symbols_text))]
fn print_symbols<W: Write>(
    out: &mut W,
    plan: &[u8],
    data: &[u8],
    words: &[u64],
    symbols: usize,
) -> io::Result<()>
    ensures { OnOk result (Appends (W.contents out.old) (W.contents out.new) (symbols_text plan.now «data».now words.now symbols)) }
{
    let pieces = piece_count(data);
    for symbol in 0..symbols {
        print_node(out, symbol, assigned_node(plan, symbol), pieces, words)?;
    }
    Ok(())
}

// Evaluates, and prints the report.
fn print_report<W: Write>(out: &mut W, plan: &[u8], data: &[u8]) -> io::Result<()>
    ensures { OnOk result (Printed plan.now «data».now (W.contents out.old) (W.contents out.new)) }
{
    let mut words = [0; MOST_WORDS];
    let answer = evaluate(plan, data, &mut words);
    print_answer(out, answer)?;
    // As the report of the answer has them: on a refusal no symbol.
    let report = Report::from(answer);
    print_symbols(out, plan, data, &words, report.symbols)
}

// A buffer for a plan. Buffers, and no vectors: this program needs no heap.
#[tactic(auto, unfolding(crate::specs::Buffers::plan_bytes))]
fn plan_buffer() -> [u8; PLAN_BYTES]
    ensures { (PLAN_BYTES ≡ length result) × (PLAN_BYTES ≡ plan_bytes) }
{
    [0; PLAN_BYTES]
}

// A buffer for a data set.
#[tactic(auto, unfolding(crate::specs::Buffers::data_bytes))]
fn data_buffer() -> [u8; DATA_BYTES]
    ensures { (DATA_BYTES ≡ length result) × (DATA_BYTES ≡ data_bytes) }
{
    [0; DATA_BYTES]
}

// Both files are read before either is judged.
fn main(rt: HostRuntime) -> io::Result<()> {
    let mut plan = plan_buffer();
    let plan_length = read_file(&rt, b"plan.bin", &mut plan);
    let mut data = data_buffer();
    let data_length = read_file(&rt, b"data.bin", &mut data);
    if let (Some(plan_length), Some(data_length)) = (plan_length, data_length) {
        print_report(
            &mut io::writer(&rt),
            &plan[..plan_length],
            &data[..data_length],
        )?;
    }
    Ok(())
}
