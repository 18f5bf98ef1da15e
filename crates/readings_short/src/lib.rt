// What a constructor writes: one coefficient, or two.
#![tactic(auto)]

ghost use Rattle.std.specs.Prelude.{Ok, ◌≡◌, ◌≤◌, ◌<◌, length};
ghost use Rattle.model.specs.Header.{stored, zero_with};
ghost use Rattle.model.specs.Word.{word_of};
ghost use Rattle.model.specs.Refusals.{written};
ghost use Rattle.model.specs.Gates.{with_gate};
ghost use Rattle.model.specs.Answers.{answered, out_after};
ghost use Rattle.model.specs.Constructed.{constant, variable};
ghost use Rattle.gates.specs.Gate.{HeaderReady};

use model::{Answer, Header};

// x + v, as far as the header reaches: x alone, where its count is 1.
pub fn write_short(h: Header, x: f64, out: &mut [f64]) -> Answer
    requires fact_1 { HeaderReady h (length out.old) }
    requires fact_2 { stored h ≤ 2 }
    ensures answer { result ≡ Ok (word_of h) }
    ensures written { out.new ≡ written (stored h) (variable h x).coeffs out.old }
{
    out[0] = x;
    if 2 <= gates::stored_of(h) {
        out[1] = 1.0;
    }
    Ok(shape_words::word::pack(h))
}

// A constant that carries the first `vars` of the limits.
pub fn constant_with(x: f64, vars: usize, limits: [usize; 4], out: &mut [f64]) -> Answer
    ensures answer { result ≡ answered (with_gate vars limits (length out.old)) (constant (zero_with vars limits) x) }
    ensures written { out.new ≡ out_after (with_gate vars limits (length out.old)) (zero_with vars limits)
        (constant (zero_with vars limits) x) out.old }
{
    let h = gates::with_gate(vars, limits, out.len())?;
    write_short(h, x, out)
}
