// How far the places of a buffer hold the same from a place on.
ghost use Rattle.std.specs.Prelude.{◌<◌, length};
ghost use Rattle.replay_recipes.specs.Alike.{Alike, word_in, bits_in};

pub fn alike_words(xs: &[u64], at: usize) -> usize
    requires { at < length xs.now }
    ensures { Alike (word_in xs.now) (length xs.now) at result }
{
    for k in at + 1..xs.len() {
        if xs[k] != xs[at] {
            return k;
        }
    }
    xs.len()
}

// Floats are told apart by their bits.
pub fn alike_floats(xs: &[f64], at: usize) -> usize
    requires { at < length xs.now }
    ensures { Alike (bits_in xs.now) (length xs.now) at result }
{
    let first = sheet_bits::word_of(xs[at]);
    for k in at + 1..xs.len() {
        if sheet_bits::word_of(xs[k]) != first {
            return k;
        }
    }
    xs.len()
}
