// A block under a cap on total degree (document 02, W10): places whose indices add up to the cap or more are set to
// +0.0, and the test that they are (17).
#![tactic(auto)]

ghost use Rattle.std.specs.Prelude.{◌≡◌, ℕ, ◌-◌, ◌≤◌, ◌<◌, min, length};
ghost use Rattle.lists.specs.Every.{every};
ghost use Rattle.lists.specs.Table.{table};
ghost use Rattle.model.specs.Header.{count};
ghost use Rattle.model_caps.specs.Cap.{capped_at, clean_place, capped_places, clean};
ghost use Rattle.blocks_mask.specs.Masks.{Masking, masked_at};
ghost use Rattle.blocks_mask.specs.Cleans.{clean_along};

// Where a row of n places comes to the cap, if the numbers before the last add up to d.
fn reach(d: usize, cap: usize, n: usize) -> usize
    ensures { result ≡ min (cap - d) n }
{
    cap.saturating_sub(d).min(n)
}

// One row, whose numbers before the last add up to d.
fn mask_row(d: usize, cap: usize, to: &mut [f64])
    requires { d ≤ 16777216 }
    ensures { to.new ≡ table (length to.old) (masked_at d cap to.old) }
{
    let from = reach(d, cap, to.len());
    blocks::clear(&mut to[from..]);
}

// Row by row, a block with the lengths n.
fn mask_rows(n: [usize; 4], cap: usize, to: &mut [f64])
    requires { Masking n (length to.old) }
    ensures { to.new ≡ table (count n) (capped_at cap n to.old) }
{
    let width = n[3];
    let mut i = [0usize; 4];
    for row in 0..n[0] * n[1] * n[2] {
        let at = row * width;
        mask_row(i[0] + i[1] + i[2], cap, &mut to[at..at + width]);
        let next = shape_words::places::next_row(n, i);
        i = next;
    }
}

// A block with the lengths n under a cap, 0 for none.
pub fn mask(n: [usize; 4], cap: usize, to: &mut [f64])
    requires { Masking n (length to.old) }
    ensures { to.new ≡ capped_places cap n to.old }
{
    if cap == 0 {
        return;
    }
    mask_rows(n, cap, to);
}

// Whether one row, whose numbers before the last add up to d, is +0.0 from the cap on. By bits: -0.0 and NaN are not.
fn row_is_clean(d: usize, cap: usize, of: &[f64]) -> bool
    requires { d ≤ 16777216 }
    ensures { result ≡ every (clean_along d cap of.now) (length of.now) 0 }
{
    let n = of.len();
    for k in reach(d, cap, n)..n {
        if sheet_bits::word_of(of[k]) != 0 {
            return false;
        }
    }
    true
}

// Row by row, a block with the lengths n.
fn rows_are_clean(n: [usize; 4], cap: usize, of: &[f64]) -> bool
    requires fact_1 { Masking n (length of.now) }
    requires fact_2 { 0 < cap }
    ensures { result ≡ every (clean_place cap n of.now) (count n) 0 }
{
    let width = n[3];
    let mut i = [0usize; 4];
    for row in 0..n[0] * n[1] * n[2] {
        let at = row * width;
        if !row_is_clean(i[0] + i[1] + i[2], cap, &of[at..at + width]) {
            return false;
        }
        let next = shape_words::places::next_row(n, i);
        i = next;
    }
    true
}

// Whether a block with the lengths n keeps its cap, 0 for none: 17 where it does not.
pub fn is_clean(n: [usize; 4], cap: usize, of: &[f64]) -> bool
    requires { Masking n (length of.now) }
    ensures { result ≡ clean cap n of.now }
{
    if cap == 0 {
        return true;
    }
    rows_are_clean(n, cap, of)
}
