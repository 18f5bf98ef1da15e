// A call on a store's words, and what is printed of it.
ghost use Rattle.std.specs.Prelude.{◌≡◌, ◌≤◌, length};
ghost use Rattle.io.specs.Counts.{IsPrefixLen};
ghost use Rattle.report_lines.specs.Puts.{Puts, Printed};
ghost use Rattle.settings_command.specs.Asked.{department_of, settled_of, words_after, current_text, kept_text, shown_text};
ghost use Rattle.settings_command.specs.Asked.{reply_text};
ghost use Rattle.settings_command.specs.Asked.{PerformPromise};

use crate::sentence::put_refusal;
use model_settings::{Answer, Content, Unsettled};
use report_lines::put::put;
use settings_text::line::{put_department, put_departments, put_versions};

// The calls that the program has.
#[derive(Clone, Copy, PartialEq, Eq)]
pub enum Call {
    Fresh,
    Departments,
    Versions,
    Save,
    Back,
}

// What the arguments ask for: the call, and what it has.
#[derive(Clone, Copy)]
pub enum Asked {
    Fresh,
    Departments,
    Versions {
        department: u64,
    },
    Save {
        department: u64,
        from: u64,
        content: Content,
    },
    Back {
        department: u64,
        from: u64,
        kept: u64,
    },
    // The current version of a department; no words of the program ask for it.
    Current {
        department: u64,
    },
}

impl Asked {
    // Its department: of a fresh store and of a list 0, which every store has.
    fn department(self) -> u64
        ensures { result ≡ department_of self }
    {
        match self {
            Asked::Fresh => 0,
            Asked::Departments => 0,
            Asked::Versions { department } => department,
            Asked::Save { department, .. } => department,
            Asked::Back { department, .. } => department,
            Asked::Current { department } => department,
        }
    }
}

// The call.
fn settle(asked: Asked, words: &mut [u64]) -> Answer
    ensures { (result ≡ settled_of asked words.old) × (words.new ≡ words_after asked words.old) }
{
    match asked {
        Asked::Fresh => settings_store::fresh(words),
        Asked::Departments => settings_store::read(words, 0),
        Asked::Versions { department } => settings_store::read(words, department),
        Asked::Save {
            department,
            from,
            content,
        } => settings_store::save(words, department, from, content),
        Asked::Back {
            department,
            from,
            kept,
        } => settings_store::bring_back(words, department, from, kept),
        Asked::Current { .. } => settings_store::read(words, 0),
    }
}

// The current version of a department, where there is such a one.
fn put_current(department: u64, words: &[u64], at: usize, to: &mut [u8]) -> usize
    requires { 544 ≤ length words.now }
    ensures { Puts (current_text department words.now) at to.old to.new result }
{
    if department < 32 {
        return put_department(words, department as usize, at, to);
    }
    at
}

// The kept versions of a department, where there is such a one.
fn put_kept_versions(department: u64, words: &[u64], at: usize, to: &mut [u8]) -> usize
    requires { 544 ≤ length words.now }
    ensures { Puts (kept_text department words.now) at to.old to.new result }
{
    if department < 32 {
        return put_versions(words, department as usize, at, to);
    }
    at
}

// What an accepted call shows.
fn put_shown(asked: Asked, words: &[u64], at: usize, to: &mut [u8]) -> usize
    requires { 544 ≤ length words.now }
    ensures { Puts (shown_text asked words.now) at to.old to.new result }
{
    match asked {
        Asked::Fresh => put(
            b"a fresh store: every department at version 0, chance 0, horizon 1, recipe 0.\n",
            at,
            to,
        ),
        Asked::Departments => put_departments(words, at, to),
        Asked::Versions { department } => put_kept_versions(department, words, at, to),
        Asked::Save { department, .. } => put_current(department, words, at, to),
        Asked::Back { department, .. } => put_current(department, words, at, to),
        Asked::Current { department } => put_current(department, words, at, to),
    }
}

// What is printed of a call's answer and the words after it.
fn reply(asked: Asked, answer: Answer, words: &[u64], to: &mut [u8]) -> usize
    requires { 544 ≤ length words.now }
    ensures printed { Printed (reply_text asked answer words.now) to.old to.new result }
    ensures within { IsPrefixLen result to.new }
{
    match answer {
        Ok(_) => put_shown(asked, words, 0, to),
        Err(why) => {
            let next = put_refusal(why.number(), 0, to);
            match why {
                Unsettled::Stale => put_current(asked.department(), words, next, to),
                _ => next,
            }
        }
    }
}

// Whether a call changed the words, and how many bytes are printed of it. No Option: a refused call prints some too.
#[derive(Clone, Copy)]
pub struct Performed {
    pub keep: bool,
    pub length: usize,
}

// A call on a store's words, and what is printed of it.
pub fn perform(asked: Asked, words: &mut [u64], to: &mut [u8]) -> Performed
    requires { 544 ≤ length words.old }
    ensures done { PerformPromise asked words.old to.old result words.new to.new }
    ensures within { IsPrefixLen result.length to.new }
{
    let answer = settle(asked, words);
    let n = reply(asked, answer, words, to);
    Performed {
        keep: answer.is_ok(),
        length: n,
    }
}
