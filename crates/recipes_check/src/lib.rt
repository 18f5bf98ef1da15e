// Why a recipe is refused, and the words that its places announce.
#![tactic(auto)]

ghost use Rattle.std.specs.Prelude.{◌≡◌, map, ◌≤◌, length, take};
ghost use Rattle.lists.specs.Grow.{over};
ghost use Rattle.model.specs.Word.{header_of};
ghost use Rattle.model.specs.Passes.{Says};
ghost use Rattle.model_recipes.specs.Recipe.{recipe_of, total, largest};
ghost use Rattle.model_recipes.specs.Check.{inputs_refusal};
ghost use Rattle.recipes_kinds.specs.Known.{Known};
ghost use Rattle.recipes_check.specs.Judging.{Ready, StepsJudged};
ghost use Rattle.recipes_check.specs.Judged.{Judged};

use gates::stored_of;
use model::Refusal;
use recipes_kinds::gate::{announce, gate};
use shape::limits::most;
use shape_words::word::{bad_word, header_of, is_good, pack};

// The first input whose header breaks the rules.
fn inputs_refusal(headers: &[u64]) -> Result<(), Refusal>
    requires { length headers.now ≤ 64 }
    ensures { Says (λ r. r ≡ inputs_refusal 0 headers.now) result }
{
    for (i, word) in headers.iter().enumerate() {
        if !is_good(*word) {
            return Err(bad_word(*word, i as u8));
        }
    }
    Ok(())
}

// The words of `headers` into the front of `known`.
pub fn note_inputs(headers: &[u64], known: &mut [u64])
    requires { length headers.now ≤ length known.old }
    ensures { known.new ≡ over headers.now known.old }
{
    known[..headers.len()].copy_from_slice(headers);
}

// The first step that is refused, after `inputs` places whose words stand in `known`; the words announced before it
// follow them.
fn steps_refusal(
    edition: u64,
    steps: &[u64],
    inputs: usize,
    known: &mut [u64],
) -> Result<(), Refusal>
    requires { Ready steps.now inputs known.old }
    ensures { Says (StepsJudged edition steps.now (map header_of (take inputs known.old)) inputs known.old known.new)
        result }
{
    for (i, word) in steps.iter().enumerate() {
        let at = inputs + i;
        gate(edition, *word, &known[..at])?;
        known[at] = pack(announce(edition, *word, &known[..at]));
    }
    Ok(())
}

// The check's refusal in an edition; where there is none, the words that all places announce stand in `known`.
pub fn judge(headers: &[u64], steps: &[u64], edition: u64, known: &mut [u64]) -> Result<(), Refusal>
    requires { 64 ≤ length known.old }
    ensures { Says (Judged (recipe_of edition headers.now steps.now) known.old known.new) result }
{
    let inputs = headers.len();
    let count = steps.len();
    if !((edition <= 1) & ((inputs <= 16) & (1 <= count) & (inputs + count <= 64))) {
        return Err(Refusal::at(7, Refusal::NOWHERE));
    }
    inputs_refusal(headers)?;
    note_inputs(headers, known);
    steps_refusal(edition, steps, inputs, known)
}

// The sum of the announced counts.
pub fn total_of(words: &[u64]) -> usize
    requires fact_1 { Known (map header_of words.now) }
    requires fact_2 { length words.now ≤ 64 }
    ensures { result ≡ total (map header_of words.now) }
{
    let mut sum = 0;
    for word in words {
        sum += stored_of(header_of(*word));
    }
    sum
}

// The largest of the announced counts.
pub fn largest_of(words: &[u64]) -> usize
    requires { Known (map header_of words.now) }
    ensures { result ≡ largest (map header_of words.now) }
{
    let mut top = 0;
    for word in words {
        top = most(top, stored_of(header_of(*word)));
    }
    top
}
