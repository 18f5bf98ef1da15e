// A refusal for people: its number and place, what it means, and that nothing was changed.
ghost use Rattle.std.specs.Prelude.{◌≡◌};
ghost use Rattle.report_lines.specs.Puts.{Puts};
ghost use Rattle.settings_command.specs.Sentence.{meaning, refusal_text, unread_number, unread_text};

use report_lines::put::{put, tell};

// What a number means, and what is right.
fn put_meaning(number: u8, at: usize, to: &mut [u8]) -> usize
    ensures { Puts (meaning number) at to.old to.new result }
{
    match number {
        3 => put(b"there is no such department; they are 0 to 31.", at, to),
        4 => put(
            b"the chance is not from 0 to 1, or the horizon not 1 to 255, or the recipe above 65535.",
            at,
            to,
        ),
        13 => put(
            b"FROM is not the current version: somebody saved since it was read, or the number is wrong.",
            at,
            to,
        ),
        14 => put(
            b"that version is not kept: the current one and at most seven before it are.",
            at,
            to,
        ),
        15 => put(
            b"the current version is 4294967295, the last that there is: it can be read and not changed.",
            at,
            to,
        ),
        _ => put(
            b"these are not a store's words: the file was damaged, or is something else.",
            at,
            to,
        ),
    }
}

// Of any number: one that is no refusal of the settings says that these are not a store's words.
pub fn put_refusal(number: u8, at: usize, to: &mut [u8]) -> usize
    ensures { Puts (refusal_text number) at to.old to.new result }
{
    let a = tell(b"refused ", number as usize, at, to);
    let b = put(b" 64: ", a, to);
    let c = put_meaning(number, b, to);
    put(b" Nothing was changed.\n", c, to)
}

// Why there is no store to call.
#[derive(Clone, Copy, PartialEq, Eq)]
pub enum Unread {
    // Its file could not be opened.
    NotOpened,
    // Its file could not be read to its end.
    Cut,
    // Its file is no store's.
    NotStore,
    // A fresh one would replace a file.
    Taken,
}

impl Unread {
    // The number that `put_unread` knows it by.
    pub fn number(self) -> u8
        ensures { result ≡ unread_number self }
    {
        match self {
            Unread::NotOpened => 1,
            Unread::Cut => 2,
            Unread::NotStore => 3,
            Unread::Taken => 4,
        }
    }
}

// Of any number: one that is no case's says that the file is no store's.
pub fn put_unread(how: u8, at: usize, to: &mut [u8]) -> usize
    ensures { Puts (unread_text how) at to.old to.new result }
{
    match how {
        1 => put(
            b"FILE cannot be opened: it is not there, or may not be read. Nothing was changed.\n",
            at,
            to,
        ),
        2 => put(
            b"FILE cannot be read to its end. Nothing was changed.\n",
            at,
            to,
        ),
        4 => put(
            b"FILE is there already, or its place cannot be looked at; a fresh store takes a new name. Nothing was changed.\n",
            at,
            to,
        ),
        _ => put_refusal(18, at, to),
    }
}
