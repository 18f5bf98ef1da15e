// A polynomial put for a variable of another (document 01, port order 7). The entry takes any words, numbers and
// buffers.
#![tactic(auto)]

pub mod kernel;

ghost use Rattle.model.specs.Promises.{SubstVarPromise};

use model::{Answer, Family};
use shape_operands::Operand;
use shape_words::word::pack;

// b for the variable v of a, cut to the smaller limits; a unchanged, where it lacks v: refusals 1, 2, 5, 6.
pub fn subst_var(
    ah: u64,
    a: &[f64],
    bh: u64,
    b: &[f64],
    v: usize,
    out: &mut [f64],
    scratch: &mut [f64],
) -> Answer
    ensures { SubstVarPromise ah a.now bh b.now v out.old
        scratch.old result out.new scratch.new }
{
    let o = gates::open_pair(
        Family::Substitution(v),
        ah,
        a.len(),
        bh,
        b.len(),
        out.len(),
        scratch.len(),
    )?;
    let x = o.a;
    let y = o.b;
    let h = o.told;
    let n = o.n;
    let room = 8 * n;
    let p = Operand {
        head: x,
        count: o.na,
        input: true,
        from: 0,
    };
    let q = Operand {
        head: y,
        count: o.nb,
        input: true,
        from: 0,
    };
    let r = kernel::substitute_to(v, p, q, h, n, a, b, out, 0, &mut scratch[..room]);
    blocks::clear(&mut scratch[..room]);
    Ok(pack(r))
}
