// The second placing of step values (document 02, W4): a part is used again after its last reader. From step words and
// announced counts alone.
#![tactic(auto)]

ghost use Rattle.std.specs.Prelude.{◌≡◌, map, ◌+◌, ◌≤◌, ◌<◌, suc, length, get_or, drop};
ghost use Rattle.lists.specs.Grow.{over};
ghost use Rattle.lists.specs.Table.{front};
ghost use Rattle.model.specs.Header.{stored};
ghost use Rattle.model.specs.Word.{header_of};
ghost use Rattle.recipes_kinds.specs.Known.{Known};
ghost use Rattle.model_placing.specs.Placing.{reads, last_from, last_reader, last_readers, highest, placed_at, offsets, needed};
ghost use Rattle.recipes_placing.specs.Placed.{sum_of};
ghost use Rattle.recipes_placing.specs.Counted.{counts_of};

use gates::stored_of;
use recipes_kinds::step::{step_of, uses_of};
use shape_words::word::header_of;

// Whether a step word names the place in an operand that its kind uses.
fn is_read(word: u64, place: usize) -> bool
    ensures { result ≡ reads word place }
{
    let s = step_of(word);
    let u = uses_of(s.kind);
    (u.a & (s.a == place)) | (u.b & (s.b == place))
}

// The last step after `own` that reads the place; `own` where none does.
fn last_reader(steps: &[u64], place: usize, own: usize) -> usize
    requires { own < length steps.now }
    ensures { result ≡ last_from place (suc own) (drop (suc own) steps.now) own }
{
    let mut last = own;
    for i in own + 1..steps.len() {
        if is_read(steps[i], place) {
            last = i;
        }
    }
    last
}

// The last reader of each step, after `inputs` inputs.
fn note_readers(steps: &[u64], inputs: usize, lasts: &mut [usize])
    requires { (length steps.now ≤ length lasts.old) × (inputs ≤ 64) }
    ensures { lasts.new ≡ front (length steps.now) (last_reader inputs steps.now) lasts.old }
{
    for j in 0..steps.len() {
        lasts[j] = last_reader(steps, inputs + j, j);
    }
}

// The least offset at which `count` places overlap no live part. The steps before lie at `offsets`.
fn lowest(lasts: &[usize], counts: &[usize], offsets: &[usize], count: usize) -> usize
    requires fact_1 { (length offsets.now ≤ length lasts.now) × (length offsets.now ≤ length counts.now) × (length offsets.now ≤ 64) }
    requires fact_2 { highest offsets.now counts.now + count ≤ 1099511627776 }
    ensures { result ≡ placed_at lasts.now counts.now count offsets.now }
{
    let mut at = 0;
    let mut j = 0;
    // No `for`: j starts again at 0 each time that a live part is in the way.
    while j < offsets.len() {
        let last = lasts[j];
        let start = offsets[j];
        let end = start + counts[j];
        if last < offsets.len() {
            j += 1;
        } else if end <= at {
            j += 1;
        } else if at + count <= start {
            j += 1;
        } else {
            at = end;
            j = 0;
        }
    }
    at
}

// The offsets of all steps into `starts`, and the length that the pool needs.
fn place(lasts: &[usize], counts: &[usize], starts: &mut [usize]) -> usize
    requires fact_1 { (length counts.now ≤ length lasts.now) × (length counts.now ≤ length starts.old) × (length counts.now ≤ 64) }
    requires fact_2 { sum_of counts.now ≤ 1099511627776 }
    ensures offsets { starts.new ≡ over (offsets lasts.now counts.now) starts.old }
    ensures length { result ≡ needed lasts.now counts.now }
{
    let mut top = 0;
    for (i, count) in counts.iter().enumerate() {
        let at = lowest(lasts, counts, &starts[..i], *count);
        starts[i] = at;
        top = top.max(at + *count);
    }
    top
}

// The second placing of a recipe's steps, after `inputs` inputs: their offsets, and the length that the pool needs.
pub fn place_steps(steps: &[u64], inputs: usize, counts: &[usize], starts: &mut [usize]) -> usize
    requires fact_1 { (length steps.now ≡ length counts.now) × (length counts.now ≤ 64) × (length counts.now ≤ length starts.old) × (inputs ≤ 64) }
    requires fact_2 { sum_of counts.now ≤ 1099511627776 }
    ensures offsets { starts.new ≡ over (offsets (last_readers inputs steps.now) counts.now) starts.old }
    ensures length { result ≡ needed (last_readers inputs steps.now) counts.now }
{
    let mut lasts = [0usize; 64];
    note_readers(steps, inputs, &mut lasts);
    let n = steps.len();
    place(&lasts[..n], counts, starts)
}

// The counts that header words announce.
fn note_counts(words: &[u64], counts: &mut [usize])
    requires fact_1 { Known (map header_of words.now) }
    requires fact_2 { length words.now ≤ length counts.old }
    ensures { counts.new ≡ front (length words.now) (λ j. stored (header_of (get_or words.now j 0))) counts.old }
{
    for (j, word) in words.iter().enumerate() {
        counts[j] = stored_of(header_of(*word));
    }
}

// The second placing of a recipe, after `inputs` inputs: `words` is what its steps announce.
pub fn place_recipe(steps: &[u64], inputs: usize, words: &[u64], starts: &mut [usize]) -> usize
    requires fact_1 { Known (map header_of words.now) }
    requires fact_2 { (length steps.now ≡ length words.now) × (length words.now ≤ 64) × (length words.now ≤ length starts.old) × (inputs ≤ 64) }
    ensures offsets { starts.new ≡ over (offsets (last_readers inputs steps.now) (counts_of words.now)) starts.old }
    ensures length { result ≡ needed (last_readers inputs steps.now) (counts_of words.now) }
{
    let mut counts = [0usize; 64];
    note_counts(words, &mut counts);
    let n = words.len();
    place_steps(steps, inputs, &counts[..n], starts)
}
