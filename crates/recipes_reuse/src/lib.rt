// Recipes over a pool in which parts are used again (document 02, W4): the check. It takes any words, and any number of
// them.
#![tactic(auto)]

ghost use Rattle.model_recipes.specs.Recipe.{recipe_of};
ghost use Rattle.model_placing.specs.Reuse.{CheckReusePromise};

use model_placing::{ReuseAnswer, ReuseTotals};
use recipes_check::{judge, largest_of, total_of};
use recipes_placing::place_recipe;

// What a run of the recipe in an edition takes where parts of the pool are used again, and where its last value begins;
// or why there is none: refusals 7, 1, 3, 4, 5.
pub fn check_reuse(headers: &[u64], steps: &[u64], edition: u64) -> ReuseAnswer
    ensures { CheckReusePromise (recipe_of edition headers.now steps.now) result }
{
    let mut known = [0u64; 64];
    judge(headers, steps, edition, &mut known)?;
    let from = headers.len();
    let count = steps.len();
    let to = from + count;
    let largest = largest_of(&known[from..to]);
    let mut starts = [0usize; 64];
    let pool = place_recipe(steps, from, &known[from..to], &mut starts);
    let last = starts[count - 1];
    Ok(ReuseTotals {
        pool,
        largest,
        inputs: total_of(headers),
        last,
    })
}
