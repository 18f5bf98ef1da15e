// Whole texts from the front of lent memory; each answers how many bytes it put there.
ghost use Rattle.std.specs.Prelude.{◌++◌, ◌≤◌, length};
ghost use Rattle.io.specs.Counts.{IsPrefixLen};
ghost use Rattle.report_lines.specs.Puts.{Printed};
ghost use Rattle.settings_text.specs.Text.{store_text};

use crate::file::put_store;
use report_lines::put::put;

// A name with an ending behind it.
pub fn beside(path: &[u8], ending: &[u8], to: &mut [u8]) -> usize
    ensures printed { Printed (path.now ++ ending.now) to.old to.new result }
    ensures within { IsPrefixLen result to.new }
{
    let next = put(path, 0, to);
    put(ending, next, to)
}

pub fn store(words: &[u64], to: &mut [u8]) -> usize
    requires { 544 ≤ length words.now }
    ensures printed { Printed (store_text words.now) to.old to.new result }
    ensures within { IsPrefixLen result to.new }
{
    put_store(words, 0, to)
}
