// A row lessened by what other rows take from it.
#![tactic(auto)]

ghost use Rattle.std.specs.Prelude.{◌+◌, ◌-◌, ◌≤◌, ◌<◌, length, get_or};
ghost use Rattle.std.specs.Float.{nan, binary64};
ghost use Rattle.std.specs.Float.Ieee.{add, neg};
ghost use Rattle.lists.specs.Table.{table};
ghost use Rattle.quotient_lessening.specs.Laid.{Laid};

// The row negated, then the places from `from` on added: it goes to `to`.
pub fn lessen(row: &[f64], work: &mut [f64], from: usize, to: usize)
    requires { (from + length row.now ≤ to) × (to + length row.now ≤ length work.old) }
    ensures { Laid to (table (length row.now)
        (λ i. add binary64 (neg (get_or row.now i nan)) (get_or work.old (from + i) nan)))
        (length work.old) work.old work.new }
{
    for (i, x) in row.iter().enumerate() {
        work[to + i] = -*x + work[from + i];
    }
}
