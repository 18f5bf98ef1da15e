// The check of a sheet's recipe, and after it the program's own limits.
#![tactic(auto)]

ghost use Rattle.std.specs.Prelude.{◌≡◌, map, ◌≤◌, length};
ghost use Rattle.model.specs.Word.{header_of};
ghost use Rattle.model.specs.Passes.{Says};
ghost use Rattle.model_recipes.specs.Recipe.{recipe_of};
ghost use Rattle.recipes_kinds.specs.Known.{Known};
ghost use Rattle.sheet_limits.specs.Limits.{within_limits, OwnJudged};

use model::Refusal;
use recipes_check::{judge, largest_of, total_of};

// Whether places, of which the first are inputs, keep the limits: each place, all inputs, the pool.
fn is_within(places: &[u64], inputs: usize) -> bool
    requires fact_1 { Known (map header_of places.now) }
    requires fact_2 { (inputs ≤ length places.now) × (length places.now ≤ 64) }
    ensures { result ≡ within_limits inputs (map header_of places.now) }
{
    let largest = largest_of(places);
    let coefficients = total_of(&places[..inputs]);
    let pool = total_of(&places[inputs..]);
    (largest <= 256) & (coefficients <= 2048) & (pool <= 2048)
}

// Why a recipe is not run; where there is no reason, the words that all places announce stand in `known`.
pub fn judge_own(
    headers: &[u64],
    steps: &[u64],
    edition: u64,
    known: &mut [u64],
) -> Result<(), Refusal>
    requires { 64 ≤ length known.old }
    ensures { Says (OwnJudged (recipe_of edition headers.now steps.now) known.old known.new) result }
{
    judge(headers, steps, edition, known)?;
    let inputs = headers.len();
    let end = inputs + steps.len();
    if !is_within(&known[..end], inputs) {
        return Err(Refusal::by(5));
    }
    Ok(())
}
