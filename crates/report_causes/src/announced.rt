// The words that the places of a recipe announce, whether or not it is refused.
ghost use Rattle.recipes_check.specs.Judging.{Ready};
ghost use Rattle.report_causes.specs.Announced.{Announced};

use recipes_kinds::gate::announce;
use shape_words::word::pack;

// Of the steps, behind those of the inputs, which stand at the front of `known`.
pub fn announce_steps(edition: u64, steps: &[u64], inputs: usize, known: &mut [u64])
    requires { Ready steps.now inputs known.old }
    ensures { Announced edition steps.now inputs known.old known.new }
{
    for (i, word) in steps.iter().enumerate() {
        let at = inputs + i;
        known[at] = pack(announce(edition, *word, &known[..at]));
    }
}
