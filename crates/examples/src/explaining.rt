// Why a piece holds an element, over the plan and the data set that a case has built.
use crate::actions::Built;
use crate::tokens::Words;
use listing::{print_explanation, print_pair};
use model::{Question, WrittenReport};
use provenance::explain;
use std::io;
use std::io::Write;

// What a line asks, and how many places it lends for the nodes and for the elements of the chain.
#[derive(Clone, Copy)]
pub struct Request {
    question: Question,
    nodes: usize,
    elements: usize,
}

impl Request {
    // What the rest of a line asks: 48 places where it lends none, and as many for elements as for nodes.
    pub fn read(mut words: Words<'_>) -> Self {
        let node = words.number_or(0);
        let piece = words.number_or(0);
        let element = words.number_or(0);
        let nodes = words.number_or(48);
        let elements = words.number_or(nodes);
        Request {
            question: Question {
                node,
                piece,
                element,
            },
            nodes,
            elements,
        }
    }
}

// What each place holds when it is lent.
const UNTOUCHED: u16 = 65535;

impl Built<'_> {
    // Explains a membership with places lent, at most 48 for each slice, and prints the answer, the pairs, and whether a place
    // behind them is changed. Two arrays, and not one of pairs, since `explain` is lent them so (C interface).
    pub fn explain<W: Write>(self, out: &mut W, request: Request) -> io::Result<()> {
        let mut nodes = [UNTOUCHED; 48];
        let mut elements = [UNTOUCHED; 48];
        let (Some(for_nodes), Some(for_elements)) = (
            nodes.get_mut(..request.nodes),
            elements.get_mut(..request.elements),
        ) else {
            return Ok(());
        };
        let Question {
            node,
            piece,
            element,
        } = request.question;
        let answer = explain(
            self.plan,
            self.data,
            node,
            piece,
            element,
            for_nodes,
            for_elements,
        );
        print_explanation(out, answer)?;
        let pairs = WrittenReport::from(answer).length;
        for (node, element) in nodes.iter().zip(&elements).take(pairs) {
            print_pair(out, *node, *element)?;
        }
        if is_changed(&nodes, pairs) || is_changed(&elements, pairs) {
            out.write_all(b"changed\n")?;
        }
        Ok(())
    }
}

// Whether a place, from one on, holds something else than before.
fn is_changed(places: &[u16], from: usize) -> bool {
    places.iter().skip(from).any(|place| *place != UNTOUCHED)
}
