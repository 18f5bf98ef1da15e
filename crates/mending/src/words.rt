// Which bits of a word stay, by what the word is.
ghost use Rattle.std.specs.Prelude.{◌≡◌, ◌+◌, ◌<◌, MatchBool};
ghost use Rattle.model_mending.specs.Words.{mended_one, mended_header, mended_step, mended_word};

use model_recipes::Step;
use recipes_kinds::step::{pack, step_of, uses_of};

// 2 to the number of spare bits of word one, and of an input header.
const WORD_ONE: u64 = 17592186044416;

const HEADER: u64 = 8192;

// Not one function of the constant: each contract names its own definition, and each body is one expression.
pub fn mended_one(word: u64) -> u64
    ensures { result ≡ mended_one word }
{
    word - word % WORD_ONE
}

pub fn mended_header(word: u64) -> u64
    ensures { result ≡ mended_header word }
{
    word - word % HEADER
}

// A field, where it is used; else 0, its type's default.
fn if_used<T: Default + Copy>(used: bool, x: T) -> T
    ensures { MatchBool used (result ≡ x) (T.is_default result) }
{
    if used { x } else { T::default() }
}

// A step without its spare bits and the fields that its kind does not use; of a refused kind as it is.
pub fn mended_step(word: u64) -> u64
    ensures { result ≡ mended_step word }
{
    let s = step_of(word);
    let u = uses_of(s.kind);
    if !u.kind {
        return word;
    }
    pack(Step {
        kind: s.kind,
        a: if_used(u.a, s.a),
        b: if_used(u.b, s.b),
        variable: if_used(u.variable, s.variable),
        n: if_used(u.n, s.n),
    })
}

// The word of the line k, where so many inputs have `count` coefficients together.
pub fn mended_word(inputs: usize, count: usize, k: usize, word: u64) -> u64
    requires { inputs + count < 18446744073709551616 }
    ensures { result ≡ mended_word inputs count k word }
{
    if k == 0 {
        return mended_one(word);
    }
    if k <= inputs {
        return mended_header(word);
    }
    if k <= inputs + count {
        return word;
    }
    mended_step(word)
}
