// The settings store (document 02, W8) on lent words: 544 of them, 17 a department. It takes any words, any number of
// them, and any numbers.
// A refused call changes no word; words behind the store are never read or changed.
#![tactic(auto)]

pub mod answer;
pub mod change;
pub mod test;

ghost use Rattle.model_settings.specs.Promises.{FreshPromise, ReadPromise, ReadVersionPromise, SavePromise, BringBackPromise};

use answer::{bring_answer, save_answer};
use change::{fresh_word, write};
use model_settings::{Answer, Content, Settled, Unsettled};
use test::{is_kept, is_valid, slot};

// A fresh store: every department at version 0, 0.0, 1, 0. Refusal 18.
pub fn fresh(words: &mut [u64]) -> Answer
    ensures { FreshPromise words.old result words.new }
{
    if words.len() < 544 {
        return Err(Unsettled::NoStore);
    }
    for (i, word) in words[..544].iter_mut().enumerate() {
        *word = fresh_word(i);
    }
    Ok(Settled {
        version: 0,
        content: Content {
            chance: 0,
            horizon: 1,
            recipe: 0,
        },
    })
}

// The current version and its content: refusals 18, 3.
pub fn read(words: &[u64], department: u64) -> Answer
    ensures { ReadPromise words.now department result }
{
    if !is_valid(words) {
        return Err(Unsettled::NoStore);
    }
    if 32 <= department {
        return Err(Unsettled::NoDepartment);
    }
    let d = department as usize;
    let at = d * 17;
    let v = words[at];
    Ok(Settled {
        version: v,
        content: slot(words, d, (v % 8) as usize),
    })
}

// The content of a kept version: refusals 18, 3, 14.
pub fn read_version(words: &[u64], department: u64, version: u64) -> Answer
    ensures { ReadVersionPromise words.now department version result }
{
    if !is_valid(words) {
        return Err(Unsettled::NoStore);
    }
    if 32 <= department {
        return Err(Unsettled::NoDepartment);
    }
    let d = department as usize;
    let at = d * 17;
    if !is_kept(words[at], version) {
        return Err(Unsettled::NotKept);
    }
    Ok(Settled {
        version,
        content: slot(words, d, (version % 8) as usize),
    })
}

// A new version from the one that the planner started from, and its number: refusals 18, 3, 4, 13, 15.
pub fn save(words: &mut [u64], department: u64, from: u64, content: Content) -> Answer
    ensures { SavePromise words.old department from content result words.new }
{
    let a = save_answer(words, department, from, content)?;
    write(words, department, a.version, a.content);
    Ok(a)
}

// The content of a kept version saved again, as a new version, and its number: refusals 18, 3, 13, 14, 15.
pub fn bring_back(words: &mut [u64], department: u64, from: u64, version: u64) -> Answer
    ensures { BringBackPromise words.old department from version result words.new }
{
    let a = bring_answer(words, department, from, version)?;
    write(words, department, a.version, a.content);
    Ok(a)
}
