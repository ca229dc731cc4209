// A group's line: its name, and `38 of 38` or `missing`.
use crate::tally::Tally;
use std::io::Result;
use std::rt::Files;
use std::{fs, str};

// Opens the file of a name, if there is one.
fn open_file<R: Files>(rt: &R, name: &[u8]) -> Option<R::File> {
    let path = str::from_utf8(name).ok()?;
    fs::open(rt, path).ok()
}

// Opens a group's file, which has its name, and begins its line. Where there is no such file the line says so.
pub fn open<R: Files + Print>(rt: &R, name: &[u8]) -> Result<Option<R::File>> {
    rt.write_all(name)?;
    rt.write_all(b": ")?;
    let file = open_file(rt, name);
    if file.is_none() {
        rt.write_all(b"missing\n")?;
    }
    Ok(file)
}

// Ends a group's line and closes its file.
pub fn close<R: Files + Print>(rt: &R, file: R::File, t: Tally) -> Result<()> {
    let Tally {
        passed,
        total,
        left: _,
    } = t;
    println!(rt; "{passed} of {total}")?;
    drop(file);
    Ok(())
}
