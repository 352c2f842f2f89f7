//! A new file for records.

use std::fs::{File, OpenOptions};
use std::io::Write;
use std::os::unix::fs::{MetadataExt, OpenOptionsExt};
use std::{fs, io};

/// Who may read and write a new file: its owner alone, since id tags are credentials. Its log gets the same mode.
const MODE: u32 = 0o600;

/// The size of a page of a new file, in bytes. Most changes write a row in each of a few pages, and a page is written
/// whole. So small pages make a change cheaper.
const PAGE_SIZE: usize = 1024;

/// The sum at the end of the first page of a new file, where its pages have sums: that of SQLite's cksumvfs over the bytes
/// before it.
const FIRST_SUM: [u8; 8] = [110, 168, 217, 73, 4, 89, 165, 179];

/// Makes a database without tables at a path where there is no file. It is written as `PATH.new`, which then gets its
/// name: so it is there whole or not at all, and no file that is there is changed. Where a log is left of a file that
/// is gone, where there is a file `PATH.new`, or where something fails, none is made. Its pages end in sums, if they are to:
/// an opening finds that by the first page. A file that has both names, as a stop leaves it, keeps its own alone: one with
/// two isn't opened.
pub fn make_if_new(rt: &HostRuntime, path: &str, sums: bool) -> io::Result<()> {
    let log = format!(in rt.alloc(); "{path}-wal")?;
    let draft = format!(in rt.alloc(); "{path}.new")?;
    if fs::exists(rt, path)? {
        return unname(rt, draft.as_str(), path);
    }
    if fs::exists(rt, log.as_str())? {
        return Ok(());
    }
    let mut file = OpenOptions::new()
        .write(true)
        .create_new(true)
        .mode(MODE)
        .open(rt, draft.as_str())?;
    let made = write_page(&mut file, sums)
        .and_then(|()| fs::hard_link(rt, draft.as_str(), path))
        // so that a power cut leaves the new name too
        .and_then(|()| file.sync_all());
    fs::remove_file(rt, draft.as_str())?;
    made
}

/// Takes a name from the file at a path, if it is a name of that.
fn unname(rt: &HostRuntime, name: &str, path: &str) -> io::Result<()> {
    let Ok(named) = fs::metadata(rt, name) else {
        return Ok(());
    };
    let file = fs::metadata(rt, path)?;
    if named.ino() == file.ino() && named.dev() == file.dev() {
        fs::remove_file(rt, name)?;
    }
    Ok(())
}

fn write_page(file: &mut File, sums: bool) -> io::Result<()> {
    let page = first_page(sums);
    file.write_all(&page)?;
    file.sync_all()
}

/// The one page of a database without tables, which is to be written by a log (the SQLite database file format,
/// sections 1.3 and 1.6).
fn first_page(sums: bool) -> [u8; PAGE_SIZE] {
    let mut page = [0; PAGE_SIZE];
    page[..16].copy_from_slice(b"SQLite format 3\0");
    page[16..18].copy_from_slice(&(PAGE_SIZE as u16).to_be_bytes());
    // the formats of the reader and the writer, no room at a page's end, and the shares of a payload
    page[18..24].copy_from_slice(&[2, 2, 0, 64, 32, 32]);
    // one change, and one page
    page[27] = 1;
    page[31] = 1;
    // the format of a schema
    page[47] = 4;
    // UTF-8
    page[59] = 1;
    // the change by which the number of pages was written, and the version of the library that wrote it
    page[95] = 1;
    page[96..100].copy_from_slice(&3040001_u32.to_be_bytes());
    // the leaf of a tree of rows, with no row; what rows there are ends with the page
    page[100] = 13;
    page[105..107].copy_from_slice(&(PAGE_SIZE as u16).to_be_bytes());
    if sums {
        // room for a sum at the end of each page, before which the rows end
        page[20] = 8;
        page[105..107].copy_from_slice(&1016_u16.to_be_bytes());
        page[1016..1024].copy_from_slice(&FIRST_SUM);
    }
    page
}
