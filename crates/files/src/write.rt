// Files written whole or not at all: to a new file beside the old one, which takes its name once all of it is on the disk.
ghost use Rattle.std.specs.Prelude.{◌≡◌, ◌≤◌, length};
ghost use Rattle.names.specs.Counts.{IsPrefixLen};

use crate::{path_argument, text_of, told};
use names::{Console, PATH_MAX};
use std::fs::{File, Metadata, OpenOptions};
use std::io::{Error, ErrorKind, Write};
use std::os::unix::fs::FileTypeExt;
use std::random::RandomSource;
use std::{fs, io};

// Whether the path is a link's. What cannot be looked at cannot be opened either, which tells why.
fn is_link(console: &Console, path: &str) -> bool {
    fs::symlink_metadata(&console.rt, path).is_ok_and(|found| found.is_symlink())
}

// That no file is put in the place of what stands there.
fn other() -> Error {
    Error::other("Not a regular file")
}

// Whether it is a regular file's, or a disk's node's.
fn keeps_bytes(found: &Metadata) -> bool {
    found.is_file() || found.file_type().is_block_device()
}

// Closes what was open, and says why where another file may not take its place. It is closed before that is told: where standard error is
// closed, the file has its number.
fn expect_regular(file: File) -> io::Result<()> {
    let found = file.metadata()?;
    if !keeps_bytes(&found) {
        return Err(other());
    }
    Ok(())
}

// Why a file may not take the place of what stands at path; it may where nothing does, or a file that may be read and written, and no link,
// pipe or terminal.
fn expect_replaceable(console: &Console, path: &str) -> io::Result<()> {
    if is_link(console, path) {
        return Err(other());
    }
    match OpenOptions::new()
        .read(true)
        .write(true)
        .open(&console.rt, path)
    {
        Ok(file) => expect_regular(file),
        Err(error) if error.kind() == ErrorKind::NotFound => Ok(()),
        Err(error) => Err(error),
    }
}

// A letter, so that a name with it stays in its folder.
fn letter(x: u8) -> u8
    ensures { (97 ≤ result) × (result ≤ 122) }
{
    97 + x % 26
}

// A dot and six letters at random, all `a` where the system gives no random bytes.
fn suffix(console: &Console) -> [u8; 7]
    ensures { 7 ≡ length result }
{
    let mut x = [0u8; 7];
    let _ = console.rt.fill_bytes(&mut x);
    let mut end = x.map(letter);
    end[0] = b'.';
    end
}

// Puts the name of a file beside path at the start of name. One that is cut fills the 4,096 bytes, and no path is so long.
fn beside(console: &Console, path: &[u8], name: &mut [u8; PATH_MAX]) -> usize
    ensures { IsPrefixLen result name.new }
{
    let end = suffix(console);
    let n = names::put(path, name, 0);
    names::put(&end, name, n)
}

// Writes the bytes to the new file, down to the disk, and closes it. Of closing std tells no error, and what is on the disk by then stays
// there.
fn fill(mut file: File, bytes: &[u8]) -> io::Result<()> {
    file.write_all(bytes)?;
    file.sync_all()
}

// Fills the new file of that name and gives it the name path.
fn finish(console: &Console, file: File, name: &str, path: &str, bytes: &[u8]) -> io::Result<()> {
    fill(file, bytes)?;
    fs::rename(&console.rt, name, path)
}

// Removes the file; says so where it stays.
fn remove(console: &Console, name: &str) {
    let _ = told(console, name.as_bytes(), fs::remove_file(&console.rt, name));
}

// Makes a file of that name, where nothing has it yet.
fn create(console: &Console, name: &str) -> io::Result<File> {
    OpenOptions::new()
        .write(true)
        .create_new(true)
        .open(&console.rt, name)
}

// Writes the bytes to a new file of that name, which then takes the name path. Where it cannot it says so, by path, and leaves no file.
fn replace(console: &Console, name: &str, path: &str, bytes: &[u8]) -> io::Result<()> {
    let file = told(console, path.as_bytes(), create(console, name))?;
    let finished = finish(console, file, name, path, bytes);
    let finished = told(console, path.as_bytes(), finished);
    if finished.is_err() {
        remove(console, name);
    }
    finished
}

// Writes the bytes to a file at path, in the place of one that stands there. Where it cannot it says so, by path, and what
// stands there stays as it was. The new file has the mode of any new file, whatever the old one had.
fn write_path(console: &Console, path: &str, bytes: &[u8]) -> io::Result<()> {
    told(console, path.as_bytes(), expect_replaceable(console, path))?;
    let mut space = [0u8; PATH_MAX];
    let n = beside(console, path.as_bytes(), &mut space);
    let name = told(console, path.as_bytes(), text_of(&space[..n]))?;
    replace(console, name, path, bytes)
}

// Writes the bytes to the file at path, whole or not at all; says so where it cannot.
fn write_named(console: &Console, path: &[u8], bytes: &[u8]) -> io::Result<()> {
    let text = told(console, path, text_of(path))?;
    write_path(console, text, bytes)
}

// Writes the bytes to the file that argument i names, whole or not at all; says so where it cannot.
pub fn write_argument(console: &Console, i: usize, bytes: &[u8]) -> io::Result<()> {
    let mut path = [0u8; PATH_MAX];
    let n = path_argument(console, i, &mut path)?;
    write_named(console, &path[..n], bytes)
}
