// Places negated.
#![tactic(auto)]

ghost use Rattle.std.specs.Prelude.{◌≡◌, ◌≤◌, length};
ghost use Rattle.lists.specs.Table.{front};
ghost use Rattle.model.specs.Negate.{negated_at};

// The first n places of `out` become those of `a`, negated.
pub fn negate_into(a: &[f64], n: usize, out: &mut [f64])
    requires { (n ≤ length a.now) × (n ≤ length out.old) }
    ensures { out.new ≡ front n (negated_at a.now) out.old }
{
    for i in 0..n {
        out[i] = -a[i];
    }
}
