// What a save and bringing back answer, before any word changes.
ghost use Rattle.std.specs.Prelude.{◌≡◌};
ghost use Rattle.model_settings.specs.Words.{save_words, bring_words};

use crate::test::{in_range, is_kept, is_valid, slot};
use model_settings::{Answer, Content, Settled, Unsettled};

pub fn save_answer(words: &[u64], department: u64, from: u64, content: Content) -> Answer
    ensures { result ≡ save_words words.now department from content }
{
    if !is_valid(words) {
        return Err(Unsettled::NoStore);
    }
    if 32 <= department {
        return Err(Unsettled::NoDepartment);
    }
    if !in_range(content) {
        return Err(Unsettled::OutOfRange);
    }
    let at = department as usize * 17;
    let v = words[at];
    if from != v {
        return Err(Unsettled::Stale);
    }
    if 4294967295 <= v {
        return Err(Unsettled::LastVersion);
    }
    Ok(Settled {
        version: v + 1,
        content,
    })
}

pub fn bring_answer(words: &[u64], department: u64, from: u64, version: u64) -> Answer
    ensures { result ≡ bring_words words.now department from version }
{
    if !is_valid(words) {
        return Err(Unsettled::NoStore);
    }
    if 32 <= department {
        return Err(Unsettled::NoDepartment);
    }
    let d = department as usize;
    let at = d * 17;
    let current = words[at];
    if from != current {
        return Err(Unsettled::Stale);
    }
    if !is_kept(current, version) {
        return Err(Unsettled::NotKept);
    }
    if 4294967295 <= current {
        return Err(Unsettled::LastVersion);
    }
    Ok(Settled {
        version: current + 1,
        content: slot(words, d, (version % 8) as usize),
    })
}
