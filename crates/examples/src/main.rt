// Runs cases that are written as text, and prints what each gives. The files are named by the arguments.
//
// A case is read line by line; # begins a comment. What a line's first word says:
//   case NAME                 prints the name
//   plan, data                begins a plan or a data set anew; the words behind it are bytes outside any section
//   regions, maps, supplied, statements, nodes, assignments, steps, pieces
//                             opens the next section, whose length is counted; numbers are its bytes
//   sizes, entries            opens a section whose numbers take two bytes each; none is 65535
//   members                   opens a section of pieces, each written as its elements' bits
//   bytes                     closes the section: the numbers are bytes outside any section
//   times N                   the rest of the line, N times
//   check                     checks the plan and prints the answer
//   evaluate N                evaluates it over the data set with N words lent, 6144 if N is left out, and prints the answer
//                             and, after an acceptance, the members of each node's pieces
//   explain N P E [A [B]]     explains why piece P of node N holds element E, with A places lent for nodes and B for elements,
//                             48 and as many as A if left out, and prints the answer and the chain's pairs; then changed,
//                             if a place that is not of the chain is
//   charge A O PRICE          charges for what node A accesses and node O does not own, and prints the charge
//   a number, a piece         belongs to the section that is open
#![tactic(auto)]

mod actions;
mod building;
mod cases;
mod explaining;
mod tokens;

use cases::Case;
use files::read_file;
use std::io;
use std::io::Write;
use std::rt::{Env, Files};

// A file of cases is shorter.
const TOO_LONG: usize = 65_536;

// How many bytes a case may build: a line's `times` could ask for any number.
const PLAN_ROOM: usize = 131_072;

const DATA_ROOM: usize = 32_768;

// Runs the cases of a text.
fn run_cases<W: Write>(out: &mut W, text: &[u8]) -> io::Result<()> {
    let mut plan = [0u8; PLAN_ROOM];
    let mut data = [0u8; DATA_ROOM];
    let mut case = Case::new(&mut plan, &mut data);
    for line in text.split(|byte| *byte == b'\n') {
        case.run_line(out, without_comment(line))?;
    }
    Ok(())
}

// What stands before the comment of a line.
fn without_comment(line: &[u8]) -> &[u8] {
    let end = line
        .iter()
        .position(|byte| *byte == b'#')
        .unwrap_or(line.len());
    &line[..end]
}

// Runs the cases of a file. Each line is written at once: no buffer keeps it while the next is run, and none is allocated.
fn run_file<R: Files + Print + Eprint>(rt: &R, path: &[u8]) -> io::Result<()> {
    let mut text = [0u8; TOO_LONG];
    let Some(length) = read_file(rt, path, &mut text) else {
        return Ok(());
    };
    if length == TOO_LONG {
        return eprintln!(rt; "a file of cases is too long");
    }
    run_cases(&mut io::writer(rt), &text[..length])
}

// Runs the file that an argument names, and answers whether there is such an argument.
fn run_argument<R: Env + Files + Print + Eprint>(rt: &R, number: usize) -> io::Result<bool> {
    // Not `env::args`, which fails for all arguments if one is not UTF-8: that one alone is named on standard error.
    let mut path = [0u8; 4096];
    let Ok(length) = rt.arg(number, &mut path) else {
        return Ok(false);
    };
    run_file(rt, &path[..length])?;
    Ok(true)
}

fn main(rt: HostRuntime) -> io::Result<()> {
    for number in 1..64 {
        if !run_argument(&rt, number)? {
            break;
        }
    }
    Ok(())
}
