// What changes in the words.
ghost use Rattle.std.specs.Prelude.{◌≡◌, ◌≤◌, ◌<◌, length};
ghost use Rattle.model_settings.specs.Words.{fresh_word, put};

use model_settings::Content;

pub fn fresh_word(i: usize) -> u64
    ensures { result ≡ fresh_word i }
{
    if i % 17 == 2 { 1 } else { 0 }
}

// Version v and its content in their place, where the store has it.
pub fn write(words: &mut [u64], department: u64, v: u64, c: Content)
    requires fact_1 { 544 ≤ length words.old }
    requires fact_2 { department < 32 }
    requires fact_3 { (c.horizon ≤ 255) × (c.recipe ≤ 65535) }
    ensures { words.new ≡ put words.old department v c }
{
    let at = department as usize * 17;
    let k = (v % 8) as usize;
    let low = at + 1 + 2 * k;
    let high = at + 2 + 2 * k;
    words[at] = v;
    words[low] = c.chance;
    words[high] = c.horizon + 256 * c.recipe;
}
