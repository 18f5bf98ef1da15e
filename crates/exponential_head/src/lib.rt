// The exponential of a constant (document 02, W13), in floats: which constants have one, and its steps. What the result
// is worth is a law on the definitions, `head_near` of laws_exponential.
#![tactic(auto)]

ghost use Rattle.std.specs.Prelude.{◌≡◌};
ghost use Rattle.model_exponential.specs.Head.{exp_head};
ghost use Rattle.model_exponential.specs.Constant.{in_range};

// From -8 to 8, and so no NaN.
pub fn in_range(x: f64) -> bool
    ensures { result ≡ in_range x }
{
    if x >= -8.0 { x <= 8.0 } else { false }
}

// e^x as e^(x + 9) / e^9: 72 terms of the series at x + 9 by Horner's rule. From -8 to 8 no term is negative, so none
// takes away from another; of another x the same steps are made, and the result is worth nothing.
pub fn exp_head(x: f64) -> f64
    ensures { result ≡ exp_head x }
{
    let t = x + 9.0;
    let mut h = 1.0;
    for m in 0..71_u32 {
        h = 1.0 + t / ((71 - m) as f64) * h;
    }
    h / 8103.083927575384
}
