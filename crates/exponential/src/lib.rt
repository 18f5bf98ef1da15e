// The exponential of a constant as an entry (document 02, W13). It takes any float.
#![tactic(auto)]

ghost use Rattle.model_exponential.specs.Promises.{ExpConstantPromise};

use exponential_head::{exp_head, in_range};
use model::{Reading, Refusal};

// e^x for x from -8 to 8, within 2^-40, relative, of the sum of the series' first 120 terms: refusal 12.
pub fn exp_constant(x: f64) -> Reading
    ensures { ExpConstantPromise x result }
{
    if in_range(x) {
        Ok(exp_head(x))
    } else {
        Err(Refusal::by(12))
    }
}
