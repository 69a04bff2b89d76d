// One list of calls on one image of 2,048 bytes, granted and refused ones mixed, each printed as one line with its answer.
// The stored output is no output of this program: `tools/replay.py` has the same list, replays it on a plain tree that knows no byte of
// an image (document 01, "Lists of calls, and the replay"), and prints the lines that the tree gives.
#![tactic(auto)]

use std::io;

type Image = [u8; 2048];

const NOON: [u8; 8] = [0x20, 0x26, 0x07, 0x25, 0x06, 0x12, 0x00, 0x00];

const NIGHT: [u8; 8] = [0x19, 0x99, 0x12, 0x31, 0x05, 0x23, 0x59, 0x59];

const LEAP_DAY: [u8; 8] = [0x20, 0x00, 0x02, 0x29, 0x02, 0x00, 0x00, 0x00];

// Four dates that are not good: of a month 13, of a day that February never has, with a digit A, and of seven bytes.
const MONTH_13: [u8; 8] = [0x20, 0x26, 0x13, 0x01, 0x00, 0x00, 0x00, 0x00];

const FEBRUARY_31: [u8; 8] = [0x20, 0x26, 0x02, 0x31, 0x00, 0x00, 0x00, 0x00];

const DIGIT_A: [u8; 8] = [0x20, 0x26, 0x07, 0x0A, 0x00, 0x00, 0x00, 0x00];

const SHORT: [u8; 7] = [0x20, 0x26, 0x07, 0x25, 0x06, 0x12, 0x00];

// Each entry of a directory, from 0 on, so many of them.
fn list_entries<W: io::Write>(
    out: &mut W,
    image: &[u8],
    path: &[u8],
    count: usize,
) -> io::Result<()> {
    for i in 0..count {
        shown::list(out, image, path, i)?;
    }
    Ok(())
}

// ---- the list of calls

fn fresh_image<W: io::Write>(out: &mut W, image: &mut Image) -> io::Result<()> {
    shown::format(out, image)?;
    shown::verdict(out, image)?;
    shown::find(out, image, b"/")?;
    shown::list(out, image, b"/", 0)?;
    shown::list(out, image, b"/", 6)?;
    shown::find(out, image, b"/0042")?;
    shown::read(out, image, b"/0042", 0, &mut [b'.'; 4])?;
    shown::find(out, image, b"")?;
    shown::remove_file(out, image, b"/")?;
    shown::remove_directory(out, image, b"/")
}

// 0042 and 42 are two names.
fn two_names<W: io::Write>(out: &mut W, image: &mut Image) -> io::Result<()> {
    shown::make_file(out, image, b"/0042", &NOON)?;
    shown::make_file(out, image, b"/42", &NIGHT)?;
    shown::find(out, image, b"/0042")?;
    shown::find(out, image, b"/00042")?;
    shown::make_directory(out, image, b"/42", &NOON)?;
    shown::make_file(out, image, b"/", &NOON)?;
    shown::read(out, image, b"/0042", 0, &mut [b'.'; 4])?;
    shown::read(out, image, b"/0042", 1, &mut [b'.'; 4])
}

// Of several refusals the one higher in the table is given: 4 above 11, 11 above 8.
fn refused_makes<W: io::Write>(out: &mut W, image: &mut Image) -> io::Result<()> {
    shown::make_file(out, image, b"/new", &MONTH_13)?;
    shown::make_directory(out, image, b"/new", &DIGIT_A)?;
    shown::make_file(out, image, b"/new", &SHORT)?;
    shown::make_file(out, image, b"/0042", &FEBRUARY_31)?;
    shown::make_file(out, image, b"//new", &MONTH_13)?;
    shown::make_directory(out, image, b"/new/", &NOON)?;
    shown::make_file(out, image, b"/seventeen letters", &NOON)?;
    shown::make_file(out, image, b"/bell\x07", &NOON)?;
    shown::make_file(out, image, b"/sixteen letters!", &LEAP_DAY)
}

fn short_writes<W: io::Write>(out: &mut W, image: &mut Image) -> io::Result<()> {
    shown::write(out, image, b"/0042", 0, b"hello, bench")?;
    shown::read(out, image, b"/0042", 7, &mut [b'.'; 10])?;
    shown::write(out, image, b"/0042", 7, b"\x00\xFF zeal")?;
    shown::read(out, image, b"/0042", 0, &mut [b'.'; 16])?;
    shown::read(out, image, b"/0042", 3, &mut [b'.'; 0])?;
    shown::write(out, image, b"/0042", 15, b"")?;
    shown::write(out, image, b"/0042", 14, b"")?;
    shown::find(out, image, b"/0042")?;
    shown::verdict(out, image)
}

// 600 bytes lie on three pages, and 1,531 would want seven.
fn long_writes<W: io::Write>(out: &mut W, image: &mut Image) -> io::Result<()> {
    shown::write_digits(out, image, b"/42", 0, 600)?;
    shown::verdict(out, image)?;
    shown::read(out, image, b"/42", 0, &mut [b'.'; 620])?;
    shown::write(out, image, b"/42", 254, b"##")?;
    shown::read(out, image, b"/42", 250, &mut [b'.'; 10])?;
    shown::read(out, image, b"/42", 600, &mut [b'.'; 4])?;
    shown::read(out, image, b"/42", 601, &mut [b'.'; 4])?;
    shown::write_digits(out, image, b"/42", 600, 931)
}

fn directories<W: io::Write>(out: &mut W, image: &mut Image) -> io::Result<()> {
    shown::make_directory(out, image, b"/A", &NOON)?;
    shown::make_file(out, image, b"/A/7", &NIGHT)?;
    shown::make_directory(out, image, b"/B/C", &NOON)?;
    shown::make_directory(out, image, b"/0042/C", &NOON)?;
    shown::make_file(out, image, b"/A/7/x", &NOON)?;
    shown::find(out, image, b"/A/8")?;
    shown::list(out, image, b"/A/7", 0)?;
    shown::read(out, image, b"/A", 300, &mut [b'.'; 4])?;
    shown::write(out, image, b"/", 0, b"x")?;
    shown::remove_directory(out, image, b"/A")?;
    shown::remove_directory(out, image, b"/A/7")
}

// A file wants a page also when it is empty; a write that does not lengthen wants none.
fn no_page_left<W: io::Write>(out: &mut W, image: &mut Image) -> io::Result<()> {
    shown::write_digits(out, image, b"/A/7", 0, 255)?;
    shown::make_directory(out, image, b"/A/inner", &NOON)?;
    shown::verdict(out, image)?;
    shown::make_directory(out, image, b"/A/more", &NOON)?;
    shown::make_file(out, image, b"/A/empty", &NOON)?;
    shown::write(out, image, b"/A/empty", 0, b"x")?;
    shown::write(out, image, b"/A/7", 0, b"seven")?;
    shown::read(out, image, b"/A/7", 0, &mut [b'.'; 8])?;
    list_entries(out, image, b"/", 7)?;
    list_entries(out, image, b"/A", 9)
}

// A file is removed as a file, and a directory as a directory, when it is empty; 7 is told of a directory that holds something too.
fn removals<W: io::Write>(out: &mut W, image: &mut Image) -> io::Result<()> {
    shown::remove_directory(out, image, b"/A/inner")?;
    shown::remove_file(out, image, b"/A")?;
    shown::remove_file(out, image, b"/A/7/x")?;
    shown::remove_directory(out, image, b"/A/7/x")?;
    shown::remove_file(out, image, b"/A/7")?;
    shown::find(out, image, b"/A/7")?;
    shown::make_directory(out, image, b"/A/inner", &NIGHT)?;
    shown::remove_file(out, image, b"/A/inner")?;
    shown::remove_directory(out, image, b"/A")?;
    shown::remove_directory(out, image, b"/A/inner")?;
    shown::remove_file(out, image, b"/A")?;
    shown::remove_directory(out, image, b"/A")?;
    shown::remove_file(out, image, b"/A/empty")?;
    shown::remove_directory(out, image, b"/A")?;
    shown::find(out, image, b"/A/7")?;
    shown::remove_directory(out, image, b"/42")?;
    shown::remove_file(out, image, b"/42")?;
    shown::remove_file(out, image, b"/42")?;
    shown::remove_directory(out, image, b"42")?;
    shown::verdict(out, image)
}

// The lowest empty entry is filled first; 8 stands above 9, and 9 above 10.
fn full_root<W: io::Write>(out: &mut W, image: &mut Image) -> io::Result<()> {
    shown::make_file(out, image, b"/again", &NOON)?;
    shown::make_directory(out, image, b"/third", &NOON)?;
    shown::make_file(out, image, b"/fourth", &NOON)?;
    shown::make_file(out, image, b"/fifth", &NOON)?;
    shown::make_file(out, image, b"/sixth", &NOON)?;
    shown::make_directory(out, image, b"/third", &NOON)?;
    list_entries(out, image, b"/", 6)?;
    shown::write_digits(out, image, b"/again", 0, 511)?;
    shown::write_digits(out, image, b"/again", 0, 510)?;
    shown::make_directory(out, image, b"/sixth", &NOON)?;
    shown::read(out, image, b"/again", 495, &mut [b'.'; 20])?;
    shown::verdict(out, image)
}

// A locked file is read, and neither written nor removed; 25 stands above 12 and 10. A directory has no lock.
fn locks<W: io::Write>(out: &mut W, image: &mut Image) -> io::Result<()> {
    shown::lock(out, image, b"/0042")?;
    shown::lock(out, image, b"/0042")?;
    shown::find(out, image, b"/0042")?;
    shown::list(out, image, b"/", 0)?;
    shown::read(out, image, b"/0042", 0, &mut [b'.'; 4])?;
    shown::write(out, image, b"/0042", 0, b"x")?;
    shown::write(out, image, b"/0042", 0, b"")?;
    shown::write(out, image, b"/0042", 15, b"x")?;
    shown::write_digits(out, image, b"/0042", 0, 2000)?;
    shown::remove_file(out, image, b"/0042")?;
    shown::remove_directory(out, image, b"/0042")?;
    shown::make_file(out, image, b"/0042", &NOON)?;
    shown::lock(out, image, b"/")?;
    shown::lock(out, image, b"/third")?;
    shown::unlock(out, image, b"/third")?;
    shown::lock(out, image, b"/0042/x")?;
    shown::unlock(out, image, b"/x")?;
    shown::lock(out, image, b"0042")?;
    shown::unlock(out, image, b"/again")?;
    shown::lock(out, image, b"/again")?;
    shown::write(out, image, b"/again", 0, b"x")?;
    shown::unlock(out, image, b"/again")?;
    shown::write(out, image, b"/again", 0, b"unlocked")?;
    shown::find(out, image, b"/again")?;
    shown::unlock(out, image, b"/0042")?;
    shown::find(out, image, b"/0042")?;
    shown::lock(out, image, b"/fifth")?;
    shown::verdict(out, image)
}

// A store into a page of its own.
fn store_page<W: io::Write>(
    out: &mut W,
    image: &Image,
    path: &[u8],
    date: &[u8],
    content: &[u8],
    number: usize,
) -> io::Result<()> {
    let mut page = [0u8; 256];
    shown::store(out, image, path, date, content, number, &mut page)
}

// A store into one byte less.
fn store_short<W: io::Write>(
    out: &mut W,
    image: &Image,
    path: &[u8],
    date: &[u8],
    content: &[u8],
    number: usize,
) -> io::Result<()> {
    let mut page = [0u8; 255];
    shown::store(out, image, path, date, content, number, &mut page)
}

// A store changes nothing. 29 is given before all, and 12 after 10.
fn stores<W: io::Write>(out: &mut W, image: &mut Image) -> io::Result<()> {
    store_page(out, image, b"/D/x", &NOON, b"stored", 0)?;
    store_page(out, image, b"/D/x", &NOON, b"stored", 2)?;
    store_page(out, image, b"/D/x", &NOON, b"stored", 3)?;
    store_page(out, image, b"/x", &NOON, b"stored", 1)?;
    store_page(out, image, b"/x", &NOON, b"", 2)?;
    store_short(out, image, b"/D", &SHORT, b"stored", 9)?;
    store_page(out, image, b"/D", &SHORT, b"stored", 9)?;
    store_page(out, image, b"/D", &NOON, b"stored", 9)?;
    store_page(out, image, b"/D/E/f/x", &NOON, b"stored", 9)?;
    shown::find(out, image, b"/D/x")?;
    shown::make_file(out, image, b"/D/x", &NOON)?;
    store_page(out, image, b"/D/x", &NOON, b"stored", 0)?;
    shown::write_digits(out, image, b"/D/x", 0, 1020)?;
    store_page(out, image, b"/y", &NOON, b"", 9)?;
    shown::verdict(out, image)
}

fn formats<W: io::Write>(out: &mut W, image: &mut Image) -> io::Result<()> {
    shown::format(out, image)?;
    shown::verdict(out, image)?;
    shown::find(out, image, b"/again")?;
    shown::format(out, image)?;
    shown::list(out, image, b"/", 0)?;
    shown::make_directory(out, image, b"/D", &NIGHT)?;
    shown::make_directory(out, image, b"/D/E", &NOON)?;
    shown::make_file(out, image, b"/D/E/f", &NIGHT)?;
    shown::write(out, image, b"/D/E/f", 0, b"last")?;
    shown::find(out, image, b"/D/E/f/g")?;
    shown::list(out, image, b"/D/E", 0)?;
    shown::read(out, image, b"/D/E/f", 0, &mut [b'.'; 4])?;
    shown::verdict(out, image)
}

fn main(rt: HostRuntime) -> io::Result<()> {
    let mut out = rt.stdout();
    // No call may lean on what an image held before its first format.
    let mut image = [0xE5u8; 2048];
    fresh_image(&mut out, &mut image)?;
    two_names(&mut out, &mut image)?;
    refused_makes(&mut out, &mut image)?;
    short_writes(&mut out, &mut image)?;
    long_writes(&mut out, &mut image)?;
    directories(&mut out, &mut image)?;
    no_page_left(&mut out, &mut image)?;
    removals(&mut out, &mut image)?;
    full_root(&mut out, &mut image)?;
    locks(&mut out, &mut image)?;
    formats(&mut out, &mut image)?;
    stores(&mut out, &mut image)
}
