// exp and log: all of them but the recursion is one.
ghost use Rattle.std.specs.Prelude.{◌≡◌, length};
ghost use Rattle.model.specs.declared.Family.TheVariants.{Series};
ghost use Rattle.model.specs.Poly.{held};
ghost use Rattle.model.specs.Gates.{announced_one};
ghost use Rattle.model.specs.Answers.{answered, out_after, scratch_after};
ghost use Rattle.model.specs.Series.{series_gate};
ghost use Rattle.series_gathering.specs.Whole.{Whole};
ghost use Rattle.series_log.specs.LogBlock.{Long};
ghost use Rattle.series.specs.Entry.{series_rows, series_poly};

use model::{Answer, Family};
use shape_words::word::pack;

// exp of a block with the lengths la, or log where `logs`: all of `out`, which has the lengths r and n places.
fn series_into(
    logs: bool,
    head: f64,
    a: &[f64],
    la: [usize; 4],
    r: [usize; 4],
    n: usize,
    out: &mut [f64],
    work: &mut [f64],
)
    requires fact_1 { Whole la r n (length a.now) (length out.old) (length work.old) }
    requires fact_2 { Long la r }
    ensures out_after { out.new ≡ series_rows logs head la r a.now }
    ensures spent { length work.new ≡ length work.old }
{
    if logs {
        series_log::log_into(head, a, la, r, n, out, work);
        return;
    }
    series_exp::exp_into(head, a, la, r, n, out, work);
}

// exp, or log where `logs`; `head` its value at the constant term: refusals 1, 2, 5, 6.
pub fn series(
    logs: bool,
    word: u64,
    a: &[f64],
    head: f64,
    out: &mut [f64],
    scratch: &mut [f64],
) -> Answer
    ensures answer { result ≡ answered (series_gate word a.now head out.old scratch.old)
        (series_poly logs head (held word a.now)) }
    ensures written { out.new ≡ out_after (series_gate word a.now head out.old scratch.old)
        (announced_one Series word) (series_poly logs head (held word a.now)) out.old }
    ensures cleared { scratch.new ≡ scratch_after (series_gate word a.now head out.old scratch.old)
        (announced_one Series word) scratch.old }
{
    let o = gates::open_work(Family::Series, word, a.len(), out.len(), scratch.len())?;
    let x = o.a;
    let h = o.told;
    let la = x.lengths;
    let r = h.lengths;
    let na = o.na;
    let n = o.n;
    let room = 8 * n;
    series_into(
        logs,
        head,
        &a[..na],
        la,
        r,
        n,
        &mut out[..n],
        &mut scratch[..room],
    );
    blocks::clear(&mut scratch[..room]);
    Ok(pack(h))
}
