// The test of a store's words (refusal 18), slot by slot.
ghost use Rattle.std.specs.Prelude.{◌≡◌, ◌≤◌, ◌<◌, length};
ghost use Rattle.model_settings.specs.Store.{in_range, kept};
ghost use Rattle.model_settings.specs.Words.{slot_at, good_slot, good_department, valid};

use model_settings::Content;

// Whether a content may be kept. The chance is tested as a word: +0.0 to 1.0, or -0.0.
pub fn in_range(c: Content) -> bool
    ensures { result ≡ in_range c }
{
    ((c.chance <= 4607182418800017408) | (c.chance == 9223372036854775808))
        & ((1 <= c.horizon) & ((c.horizon <= 255) & (c.recipe <= 65535)))
}

pub fn is_kept(v: u64, u: u64) -> bool
    ensures { result ≡ kept v u }
{
    if u <= v { v - u < 8 } else { false }
}

// The content that slot k of department d holds.
pub fn slot(words: &[u64], d: usize, k: usize) -> Content
    requires fact_1 { 544 ≤ length words.now }
    requires fact_2 { d < 32 }
    requires fact_3 { k < 8 }
    ensures { result ≡ slot_at words.now d k }
{
    let low = d * 17 + 1 + 2 * k;
    let high = d * 17 + 2 + 2 * k;
    let w = words[high];
    Content {
        chance: words[low],
        horizon: w % 256,
        recipe: w / 256,
    }
}

fn good_slot(v: u64, c: Content, k: u64) -> bool
    ensures { result ≡ good_slot v c k }
{
    if v < k {
        return (c.chance == 0) & ((c.horizon == 0) & (c.recipe == 0));
    }
    if (k == 0) & (v < 8) {
        return (c.chance == 0) & ((c.horizon == 1) & (c.recipe == 0));
    }
    in_range(c)
}

fn good_department(words: &[u64], d: usize) -> bool
    requires fact_1 { 544 ≤ length words.now }
    requires fact_2 { d < 32 }
    ensures { result ≡ good_department words.now d }
{
    let at = d * 17;
    let v = words[at];
    if 4294967295 < v {
        return false;
    }
    for k in 0..8 {
        if !good_slot(v, slot(words, d, k), k as u64) {
            return false;
        }
    }
    true
}

// Whether some calls from a fresh store leave these words.
pub fn is_valid(words: &[u64]) -> bool
    ensures { result ≡ valid words.now }
{
    if words.len() < 544 {
        return false;
    }
    for d in 0..32 {
        if !good_department(words, d) {
            return false;
        }
    }
    true
}
