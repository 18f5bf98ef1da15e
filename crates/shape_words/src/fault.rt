// What is wrong with a header word: the first fault in document 02's order (W5).
ghost use Rattle.std.specs.Prelude.{◌≡◌, ◌&&◌, cond, leb, ltb, eqb};
ghost use Rattle.model.specs.Faults.{fault, unless};
ghost use Rattle.model.specs.Word.{fault_of};

use crate::places::count_of;
use crate::word::header_of;
use model::{Fault, Header};

// The fault of variable k among `vars`, else what follows: its length is above its limit or, where it is missing, they
// are not both 1.
fn after_var(vars: usize, k: u8, limit: usize, len: usize, next: Fault) -> Fault
    ensures { result ≡ unless (cond (ltb k vars) (leb len limit) (eqb limit 1 && eqb len 1)) (fault k (cond (ltb k vars) 2 3)) next }
{
    if (k as usize) < vars {
        return Fault::unless(len <= limit, Fault::of(k, 2), next);
    }
    Fault::unless((limit == 1) & (len == 1), Fault::of(k, 3), next)
}

// The first thing that is wrong with a word. The tests are chained from the last to the first.
pub fn fault_of(word: u64) -> Fault
    ensures { result ≡ fault_of word }
{
    let h = header_of(word);
    let v = h.vars;
    let l = h.limits;
    let n = h.lengths;
    let count = Fault::unless(count_of(n) <= Header::COUNT, Fault::of(4, 5), Fault::none());
    let spare = Fault::unless(
        (word & 31 == 0) & (h.cap <= Header::CAP),
        Fault::of(4, 4),
        count,
    );
    let v3 = after_var(v, 3, l[3], n[3], spare);
    let v2 = after_var(v, 2, l[2], n[2], v3);
    let v1 = after_var(v, 1, l[1], n[1], v2);
    let v0 = after_var(v, 0, l[0], n[0], v1);
    Fault::unless(v <= Header::VARS, Fault::of(4, 1), v0)
}
