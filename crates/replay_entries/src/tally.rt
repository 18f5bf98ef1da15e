// What became of a scratch that was lent full of a sentinel.
ghost use Rattle.std.specs.Prelude.{length};
ghost use Rattle.replay_entries.specs.Tally.{Leads, clear_at, untouched_at};

// How many places from the front on hold +0.0.
pub fn cleared(xs: &[f64]) -> usize
    ensures { Leads (clear_at xs.now) (length xs.now) result }
{
    for (k, x) in xs.iter().enumerate() {
        if sheet_bits::word_of(*x) != 0 {
            return k;
        }
    }
    xs.len()
}

// How many places from the back on hold the sentinel.
pub fn untouched(xs: &[f64]) -> usize
    ensures { Leads (untouched_at xs.now) (length xs.now) result }
{
    for k in 0..xs.len() {
        if sheet_bits::word_of(xs[xs.len() - 1 - k]) != 4607182418800017409 {
            return k;
        }
    }
    xs.len()
}
