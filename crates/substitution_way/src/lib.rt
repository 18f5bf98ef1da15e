// Which way a substitution goes.
#![tactic(auto)]

ghost use Rattle.std.specs.Prelude.{◌≡◌, ◌<◌, length};
ghost use Rattle.model.specs.Header.{count};
ghost use Rattle.model.specs.Poly.{block};
ghost use Rattle.shape_words.specs.Lengths.{Lengths};
ghost use Rattle.substitution_way.specs.Way.{way_of};

use model::Linear;
use product::kernel::is_zero;

// How b is put for v (specs/Way.antt numbers the ways).
#[derive(Clone, Copy)]
pub enum Way {
    // The variable is not there: the polynomial as it is.
    Same,
    // b is zero: the row 0 of v.
    Zero,
    // b is v times a number: the rows times the powers of its line's factor.
    Powers(Linear),
    // Horner's rule.
    Horner,
}

// Which way b goes for v.
pub fn choose(vars: usize, v: usize, b: &[f64], lb: [usize; 4]) -> Way
    requires fact_1 { Lengths lb }
    requires fact_2 { length b.now ≡ count lb }
    ensures { result ≡ way_of vars v (block lb b.now) }
{
    if vars <= v {
        return Way::Same;
    }
    if is_zero(b, lb) {
        return Way::Zero;
    }
    let line = readings::line::linear_of(b, lb);
    let c = line.c;
    if line.yes & (line.variable == v) & (c == 0.0) {
        return Way::Powers(line);
    }
    Way::Horner
}
