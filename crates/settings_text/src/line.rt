// Lines for people: one a department or version.
ghost use Rattle.std.specs.Prelude.{◌≡◌, ◌≤◌, ◌<◌, length};
ghost use Rattle.model_texts.specs.Number.{hex_text};
ghost use Rattle.report_lines.specs.Puts.{Puts};
ghost use Rattle.settings_text.specs.Text.{chance_text, content_text, department_text, departments_text, version_text, kept_text, versions_text};

use decimals::put_float_of;
use model_settings::Content;
use report_lines::put::{put, tell};
use settings_store::test::slot;
use sheet_text::print::put_word;

fn put_hex(word: u64, at: usize, to: &mut [u8]) -> usize
    ensures { Puts (hex_text word) at to.old to.new result }
{
    let mut digits = [0u8; 16];
    let end = put_word(word, 0, &mut digits);
    let next = put(b"0x", at, to);
    put(&digits[..end], next, to)
}

// A chance for people, and its word, which is the very float.
fn put_chance(word: u64, at: usize, to: &mut [u8]) -> usize
    ensures { Puts (chance_text word) at to.old to.new result }
{
    let a = put_float_of(word, at, to);
    let b = put(b" (", a, to);
    let c = put_hex(word, b, to);
    put(b")", c, to)
}

// The rest of a line: what is set.
pub fn put_content(c: Content, at: usize, to: &mut [u8]) -> usize
    ensures { Puts (content_text c) at to.old to.new result }
{
    let a = put(b", chance ", at, to);
    let b = put_chance(c.chance, a, to);
    let d = tell(b", horizon ", c.horizon as usize, b, to);
    let e = tell(b", recipe ", c.recipe as usize, d, to);
    put(b"\n", e, to)
}

// A department's current version.
pub fn put_department(words: &[u64], d: usize, at: usize, to: &mut [u8]) -> usize
    requires fact_1 { 544 ≤ length words.now }
    requires fact_2 { d < 32 }
    ensures { Puts (department_text words.now d) at to.old to.new result }
{
    let place = d * 17;
    let v = words[place];
    let a = tell(b"department ", d, at, to);
    let b = tell(b": version ", v as usize, a, to);
    put_content(slot(words, d, (v % 8) as usize), b, to)
}

// Every department's.
pub fn put_departments(words: &[u64], at: usize, to: &mut [u8]) -> usize
    requires { 544 ≤ length words.now }
    ensures { Puts (departments_text words.now) at to.old to.new result }
{
    let mut next = at;
    for d in 0..32 {
        next = put_department(words, d, next, to);
    }
    next
}

// Version u of a department, where it is kept.
pub fn put_version(words: &[u64], d: usize, u: u64, at: usize, to: &mut [u8]) -> usize
    requires fact_1 { 544 ≤ length words.now }
    requires fact_2 { d < 32 }
    ensures { Puts (version_text words.now d u) at to.old to.new result }
{
    let a = tell(b"version ", u as usize, at, to);
    put_content(slot(words, d, (u % 8) as usize), a, to)
}

// Number k of the last eight versions, where there are so many.
fn put_kept(words: &[u64], d: usize, k: u64, at: usize, to: &mut [u8]) -> usize
    requires fact_1 { 544 ≤ length words.now }
    requires fact_2 { d < 32 }
    requires fact_3 { k < 8 }
    ensures { Puts (kept_text words.now d k) at to.old to.new result }
{
    let place = d * 17;
    let v = words[place];
    if v < 7 {
        if v + k < 7 {
            return at;
        }
        return put_version(words, d, v + k - 7, at, to);
    }
    put_version(words, d, v - (7 - k), at, to)
}

// The kept versions of a department, oldest first.
pub fn put_versions(words: &[u64], d: usize, at: usize, to: &mut [u8]) -> usize
    requires fact_1 { 544 ≤ length words.now }
    requires fact_2 { d < 32 }
    ensures { Puts (versions_text words.now d) at to.old to.new result }
{
    let mut next = at;
    for k in 0..8 {
        next = put_kept(words, d, k, next, to);
    }
    next
}
