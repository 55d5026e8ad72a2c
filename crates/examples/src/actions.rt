// What a case does with the plan and the data set that it has built.
// By `as`: there is no `From` between `usize` and `u64`, and `try_from` would have a case that never comes.
use crate::tokens::Words;
use dataset::cells::piece_count;
use listing::{print_answer, print_charge, print_node};
use model::Report;
use std::io;
use std::io::Write;

// As many words as any plan needs.
pub const MOST_WORDS: usize = 6144;

// The plan and the data set that a case has built.
#[derive(Clone, Copy)]
pub struct Built<'a> {
    pub plan: &'a [u8],
    pub data: &'a [u8],
}

impl Built<'_> {
    // Checks the plan, and prints the answer.
    pub fn check<W: Write>(self, out: &mut W) -> io::Result<()> {
        print_answer(out, plan::check(self.plan))
    }

    // Evaluates the plan with so many words lent, at most 6144, all of whose bits are 1 before, and prints the answer and the
    // members.
    pub fn evaluate<W: Write>(self, out: &mut W, lent: usize) -> io::Result<()> {
        let mut words = [u64::MAX; MOST_WORDS];
        let Some(lent_words) = words.get_mut(..lent) else {
            return Ok(());
        };
        let answer = evaluate::evaluate(self.plan, self.data, lent_words);
        print_answer(out, answer)?;
        self.print_nodes(out, &words, Report::from(answer).nodes)
    }

    // Prints the members of each node's pieces; there are at most 48 nodes.
    fn print_nodes<W: Write>(self, out: &mut W, words: &[u64], nodes: usize) -> io::Result<()> {
        let pieces = piece_count(self.data);
        for node in 0..nodes.min(48) {
            print_node(out, node, node, pieces, words)?;
        }
        Ok(())
    }

    // Charges for the two nodes and the price that a line names, and prints the charge.
    pub fn charge<W: Write>(self, out: &mut W, mut words: Words<'_>) -> io::Result<()> {
        let accessed = words.number_or(0);
        let owned = words.number_or(0);
        let price = words.number_or(0);
        print_charge(
            out,
            transfer::charge(self.plan, self.data, accessed, owned, price as u64),
        )
    }
}
