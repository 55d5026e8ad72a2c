// Evaluates accepted plans over data sets that fit them.
#![tactic(auto)]

ghost use Rattle.model.specs.Promises.{EvaluationPromise};

use crate::reading::read_inputs;
use crate::words::{fill_words, words_needed};
use model::{Acceptance, Refusal};

pub mod inputs;
pub mod reading;
pub mod words;

// Evaluates a plan over a data set into the lent words, written only where every refusal is ruled out.
pub fn evaluate(plan: &[u8], data: &[u8], words: &mut [u64]) -> Result<Acceptance, Refusal>
    ensures { EvaluationPromise plan.now «data».now words.old words.new result }
{
    let inputs = read_inputs(plan, data)?;
    let needed = words_needed(&inputs);
    if words.len() < needed {
        return Err(Refusal::OutputTooSmall(needed));
    }
    fill_words(&inputs, words);
    Ok(inputs.reading.acceptance())
}
