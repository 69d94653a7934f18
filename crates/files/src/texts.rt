// A file as one text: its bytes at the front of a lent buffer.
ghost use Rattle.std.specs.Prelude.{◌≤◌, length};
ghost use Rattle.files.specs.Texts.{Inside};

use crate::problems::Problem;
use std::fs;
use std::io::Read;
use std::rt::Files;

// The file that a path names, opened for reading. A path that is not UTF-8 names none.
pub fn open<R: Files>(rt: &R, path: &[u8]) -> Option<R::File> {
    let name = str::from_utf8(path).ok()?;
    fs::open(rt, name).ok()
}

// Reads until the text is full, the file ends or a read fails, and answers how many bytes stand at the front of the text.
fn read_full<F: Read>(file: &mut F, text: &mut [u8]) -> usize
    ensures { result ≤ length text.new }
{
    // A loop: the place moves by as much as a read brings.
    let mut n = 0;
    while n < text.len() {
        match file.read(&mut text[n..]) {
            Ok(0) => return n,
            Ok(more) => n += more,
            Err(_) => return n,
        }
    }
    n
}

// The bytes of an open file. Behind them a read must bring nothing: what fails, fails again there, and what is larger than the buffer brings more.
fn read_open<F: Read>(file: &mut F, text: &mut [u8]) -> Result<usize, Problem>
    ensures { Inside result text.new }
{
    let n = read_full(file, text);
    let mut more = [0u8; 1];
    match file.read(&mut more) {
        Ok(0) => Ok(n),
        Ok(_) => Err(Problem::TooLarge),
        Err(_) => Err(Problem::NotRead),
    }
}

// The bytes of the file that a path names.
pub fn read_named<R: Files>(rt: &R, path: &[u8], text: &mut [u8]) -> Result<usize, Problem>
    ensures { Inside result text.new }
{
    let mut file = open(rt, path).ok_or(Problem::NotOpened)?;
    read_open(&mut file, text)
}
