// The program `settings` (document 02, W8): a settings store in one file.
// No contract can say what is read, written or printed. What an argument, a call and a sentence are is said in
// `settings_command`, what a file and a line are in `settings_text`; here are only the steps between them. A change is
// made under FILE.new, which one program at a time can make, and is there once FILE.new is renamed to FILE.
#![tactic(auto)]

mod command;
mod file;

ghost use Rattle.std.specs.Prelude.{◌≡◌, length};
ghost use Rattle.io.specs.Counts.{IsPrefixLen};

use command::{asked_of, call_given, say};
use file::{created, folder_synced, is_free, is_link, load, removed, renamed, written};
use replay_input::argument;
use settings_command::asked::{Asked, Call, Performed, perform};
use settings_command::sentence::put_unread;
use settings_text::whole::beside;
use std::io::ErrorKind;
use std::rt::Files;

fn store_memory() -> [u64; 544]
    ensures { 544 ≡ length result }
{
    [0; 544]
}

fn say_usage(rt: &impl Print) {
    say(
        rt,
        b"settings FILE fresh                                       a new store; FILE must not be there\n",
    );
    say(
        rt,
        b"settings FILE list                                        every department\n",
    );
    say(
        rt,
        b"settings FILE versions DEPARTMENT                         its kept versions, oldest first\n",
    );
    say(
        rt,
        b"settings FILE save DEPARTMENT FROM CHANCE HORIZON RECIPE  a new version, made from version FROM\n",
    );
    say(
        rt,
        b"settings FILE back DEPARTMENT FROM VERSION                a kept version as the new one\n",
    );
    say(
        rt,
        b"CHANCE is a decimal from 0 to 1, such as 0.95, and kept as the float nearest to it; or 0x and the 16 hex digits of\n",
    );
    say(
        rt,
        b"a float. A line shows both: ~ marks a decimal that is not quite the float, the 16 digits are the float itself.\n",
    );
    say(
        rt,
        b"The others are whole numbers. FILE has at most 4,000 bytes, the others 64. Nothing was read or changed.\n",
    );
}

fn say_no_number(rt: &impl Print) {
    say(
        rt,
        b"an argument says no number. DEPARTMENT, FROM, VERSION, HORIZON and RECIPE have 1 to 18 digits. CHANCE has digits, or\n",
    );
    say(
        rt,
        b"digits, a point and digits: at most 15 from the first that is not 0, at most 22 behind the point; or 0x and 16 digits\n",
    );
    say(rt, b"of 0 to 9, a to f. Nothing was changed.\n");
}

// Why FILE.new could not be made, from the kind of the system's error.
fn say_not_begun(rt: &impl Print, error: ErrorKind) {
    if error == ErrorKind::AlreadyExists {
        say(
            rt,
            b"turned away: FILE.new is there, so another program is changing this store. Nothing was changed; try again.\n",
        );
        say(
            rt,
            b"If no such program runs, one was stopped before its change was made: the store is whole and as it was before that\n",
        );
        say(
            rt,
            b"change; remove FILE.new. If FILE.new is a file of your own, give the store another name.\n",
        );
    } else {
        say(
            rt,
            b"FILE.new cannot be made: the folder is missing or may not be written, the disk is full, or the name is too long.\n",
        );
        say(rt, b"Nothing was changed.\n");
    }
}

fn take_away(rt: &(impl Files + Print), new: &[u8]) {
    if removed(rt, new).is_err() {
        say(
            rt,
            b"FILE.new could not be removed: remove it, or every later change is turned away.\n",
        );
    }
}

// The call on the words of the file, or on those of a new one, and what is printed of it.
fn prepare(
    rt: &impl Files,
    path: &[u8],
    asked: Asked,
    words: &mut [u64; 544],
    text: &mut [u8; 4096],
) -> Performed
    ensures { IsPrefixLen result.length text.new }
{
    let ready = match asked {
        Asked::Fresh => is_free(rt, path),
        _ => load(rt, path, words),
    };
    if let Err(why) = ready {
        let n = put_unread(why.number(), 0, text);
        return Performed {
            keep: false,
            length: n,
        };
    }
    perform(asked, words, text)
}

// Writes the words into FILE.new and gives it FILE's name: whether it stays there should the machine lose its power, or
// none where nothing was changed.
fn put_in_place<R: Files + Print>(
    rt: &R,
    path: &[u8],
    new: &[u8],
    file: R::File,
    words: &[u64; 544],
) -> Option<bool> {
    if !written(file, words) {
        say(
            rt,
            b"FILE.new could not be written whole: the disk is full or failed, or a limit was met. Nothing was changed.\n",
        );
        take_away(rt, new);
        return None;
    }
    if renamed(rt, new, path).is_err() {
        say(
            rt,
            b"FILE.new could not take the place of FILE. Nothing was changed.\n",
        );
        take_away(rt, new);
        return None;
    }
    Some(folder_synced(rt, path))
}

// A change, where FILE.new is this program's.
fn change_alone<R: Files + Print>(rt: &R, path: &[u8], new: &[u8], file: R::File, asked: Asked) {
    let mut words = store_memory();
    let mut text = [0u8; 4096];
    let p = prepare(rt, path, asked, &mut words, &mut text);
    let n = p.length;
    if !p.keep {
        drop(file);
        say(rt, &text[..n]);
        take_away(rt, new);
        return;
    }
    let Some(synced) = put_in_place(rt, path, new, file, &words) else {
        return;
    };
    say(rt, &text[..n]);
    if !synced {
        say(
            rt,
            b"This is in FILE. Whether it reached the disk is not known: should the machine lose its power now, look again.\n",
        );
    }
}

fn change<R: Files + Print>(rt: &R, path: &[u8], asked: Asked) {
    if is_link(rt, path) {
        say(
            rt,
            b"FILE is a link: name the file itself, so that there is one store. Nothing was changed.\n",
        );
        return;
    }
    let mut new = [0u8; 4096];
    let n = beside(path, b".new", &mut new);
    match created(rt, &new[..n]) {
        Ok(file) => change_alone(rt, path, &new[..n], file, asked),
        Err(e) => say_not_begun(rt, e.kind()),
    }
}

// What changes nothing reads the file as it is: the old store or the new one, and never a part.
fn show(rt: &(impl Files + Print), path: &[u8], asked: Asked) {
    let mut words = store_memory();
    let mut text = [0u8; 4096];
    let p = prepare(rt, path, asked, &mut words, &mut text);
    let n = p.length;
    say(rt, &text[..n]);
}

fn main(rt: HostRuntime) {
    let mut path = [0u8; 4000];
    let n = argument(&rt, 1, &mut path);
    if n == 0 {
        say_usage(&rt);
        return;
    }
    let Some(call) = call_given(&rt) else {
        say_usage(&rt);
        return;
    };
    let Some(asked) = asked_of(&rt, call) else {
        say_no_number(&rt);
        return;
    };
    match call {
        Call::Departments | Call::Versions => show(&rt, &path[..n], asked),
        _ => change(&rt, &path[..n], asked),
    }
}
