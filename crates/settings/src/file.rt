// The store's file. What the system does is its own: these functions ask it, and answer what it said. A name is text: a
// name that is not UTF-8 is no file's that can be opened or made.
ghost use Rattle.settings.specs.Given.{Loaded};

use replay_input::read_full;
use settings_command::argument::folder_length;
use settings_command::sentence::Unread;
use settings_text::file::take_store;
use settings_text::whole::store;
use std::fs::{File, OpenFile};
use std::io::{ErrorKind, Read, Write};
use std::rt::Files;
use std::{fs, io, str};

fn not_text() -> io::Error {
    io::Error::from(ErrorKind::InvalidInput)
}

fn opened<R: Files>(rt: &R, path: &[u8]) -> io::Result<R::File> {
    match str::from_utf8(path) {
        Ok(name) => File::open(rt, name),
        Err(_) => Err(not_text()),
    }
}

// Makes a new file, where nothing has the name.
pub fn created<R: Files>(rt: &R, path: &[u8]) -> io::Result<R::File> {
    match str::from_utf8(path) {
        Ok(name) => File::create_new(rt, name),
        Err(_) => Err(not_text()),
    }
}

pub fn renamed(rt: &impl Files, from: &[u8], to: &[u8]) -> io::Result<()> {
    match (str::from_utf8(from), str::from_utf8(to)) {
        (Ok(old), Ok(new)) => fs::rename(rt, old, new),
        _ => Err(not_text()),
    }
}

pub fn removed(rt: &impl Files, path: &[u8]) -> io::Result<()> {
    match str::from_utf8(path) {
        Ok(name) => fs::remove_file(rt, name),
        Err(_) => Err(not_text()),
    }
}

// Where the name is no file's yet; it is taken too where that cannot be seen.
pub fn is_free(rt: &impl Files, path: &[u8]) -> Result<(), Unread> {
    match opened(rt, path) {
        Err(e) if e.kind() == ErrorKind::NotFound => Ok(()),
        _ => Err(Unread::Taken),
    }
}

// Whether the name is a link's. A change renames over the name, and would leave the file that the link leads to behind.
pub fn is_link(rt: &impl Files, path: &[u8]) -> bool {
    match str::from_utf8(path) {
        Ok(name) => match fs::symlink_metadata(rt, name) {
            Ok(found) => found.is_symlink(),
            Err(_) => false,
        },
        Err(_) => false,
    }
}

// Reads the store's words; where they cannot be read, they are as they were.
pub fn load(rt: &impl Files, path: &[u8], words: &mut [u64; 544]) -> Result<(), Unread>
    ensures { Loaded result words.old words.new }
{
    let Ok(mut file) = opened(rt, path) else {
        return Err(Unread::NotOpened);
    };
    let mut text = [0u8; 9249];
    let Ok(n) = read_full(&mut file, &mut text) else {
        return Err(Unread::Cut);
    };
    let mut more = [0u8; 1];
    if file.read(&mut more).is_err() {
        return Err(Unread::Cut);
    }
    if take_store(&text[..n], words) {
        Ok(())
    } else {
        Err(Unread::NotStore)
    }
}

// Writes the words to a new file, asks that they reach the disk, and closes it; whether all of it went well.
pub fn written<F: Write + OpenFile + Drop>(file: F, words: &[u64; 544]) -> bool {
    let mut file = file;
    let mut text = [0u8; 9248];
    let n = store(words, &mut text);
    let all = file.write_all(&text[..n]).is_ok();
    let synced = file.sync_all().is_ok();
    all & synced
}

// Asks that what was renamed in the folder reach the disk; whether it did.
pub fn folder_synced(rt: &impl Files, path: &[u8]) -> bool {
    let n = folder_length(path);
    let folder = if n == 0 {
        opened(rt, b".")
    } else {
        opened(rt, &path[..n])
    };
    match folder {
        Ok(file) => file.sync_all().is_ok(),
        Err(_) => false,
    }
}
