// The cases 1 to 13 of document 01, "At the bench", with the values of document 02 §1 and §2, run by the compiled calls: what was
// asked, what was answered, and the bytes that the case names. The stored output was written by hand, from the papers' numbers and the
// layout of an image, and not copied from a run.
#![tactic(auto)]

ghost use Rattle.std.specs.Prelude.{◌+◌, ◌<◌, ◌≤◌, length};

use fields::Position;
use shown::Quoted;
use std::io;

type Image = [u8; 2048];

type Largest = [u8; 65536];

const DATE: [u8; 8] = [0x20, 0x26, 0x07, 0x25, 0x06, 0x12, 0x00, 0x00];

// ---- what is printed beside the calls

fn case<W: io::Write>(out: &mut W, n: usize) -> io::Result<()> {
    writeln!(out, "case {n}")
}

// So many bytes of the image.
fn bytes_at<W: io::Write>(out: &mut W, image: &[u8], from: usize, count: usize) -> io::Result<()>
    requires { from + count ≤ length image.now }
{
    write!(out, "bytes at {from}:")?;
    for byte in &image[from..from + count] {
        write!(out, " {byte:02x}")?;
    }
    writeln!(out)
}

// Damages the image: one byte is set.
fn set_byte<W: io::Write>(out: &mut W, image: &mut [u8], at: usize, byte: u8) -> io::Result<()>
    requires { at < length image.old }
{
    writeln!(out, "set byte {at} to {byte:02x}")?;
    image[at] = byte;
    Ok(())
}

// Reads a file that so many digits were written to, with room for more, and tells how many came and whether they are those.
fn read_back<W: io::Write>(out: &mut W, image: &[u8], path: &[u8], count: usize) -> io::Result<()>
    requires { count ≤ 65536 }
{
    let mut buffer = [0u8; 65536];
    write!(out, "read back {} => ", Quoted(path))?;
    if let Ok(copied) = zealfs::read(image, path, Position(0), &mut buffer) {
        write!(out, "{copied}")?;
    }
    if buffer[..count] == shown::digits()[..count] {
        write!(out, " as written")?;
    }
    writeln!(out)
}

// ---- the cases

// A file /0042 on a freshly formatted image.
fn file_made<W: io::Write>(out: &mut W, image: &mut Image) -> io::Result<()> {
    shown::format(out, image)?;
    shown::make_file(out, image, b"/0042", &DATE)
}

fn case_1<W: io::Write>(out: &mut W, image: &mut Image) -> io::Result<()> {
    case(out, 1)?;
    shown::format(out, image)?;
    bytes_at(out, image, 0, 5)?;
    shown::verdict(out, image)
}

fn case_2<W: io::Write>(out: &mut W, image: &mut Image) -> io::Result<()> {
    case(out, 2)?;
    file_made(out, image)?;
    shown::make_file(out, image, b"/42", &DATE)?;
    shown::list(out, image, b"/", 0)?;
    shown::list(out, image, b"/", 1)?;
    shown::verdict(out, image)?;
    shown::find(out, image, b"/00042")
}

// Entry 0 begins at byte 64: its start page is byte 81, its size 82 and 83.
fn cases_3_and_4<W: io::Write>(out: &mut W, image: &mut Image) -> io::Result<()> {
    case(out, 3)?;
    file_made(out, image)?;
    shown::write_digits(out, image, b"/0042", 0, 255)?;
    bytes_at(out, image, 81, 3)?;
    bytes_at(out, image, 3, 2)?;
    shown::verdict(out, image)?;
    case(out, 4)?;
    shown::write(out, image, b"/0042", 255, b"+")?;
    bytes_at(out, image, 256, 1)?;
    bytes_at(out, image, 512, 1)?;
    bytes_at(out, image, 82, 2)?;
    shown::verdict(out, image)
}

fn pages_wanted<W: io::Write>(out: &mut W, image: &mut Image, count: usize) -> io::Result<()>
    requires { count ≤ 65536 }
{
    file_made(out, image)?;
    shown::write_digits(out, image, b"/0042", 0, count)?;
    shown::verdict(out, image)
}

fn case_5<W: io::Write>(out: &mut W, image: &mut Image) -> io::Result<()> {
    case(out, 5)?;
    pages_wanted(out, image, 512)?;
    pages_wanted(out, image, 0)?;
    pages_wanted(out, image, 255)?;
    pages_wanted(out, image, 256)
}

// 153 pages are 1 to 153. The next one is 154, and bitmap byte 19 is byte 23.
fn case_6<W: io::Write>(out: &mut W, image: &mut Largest) -> io::Result<()> {
    case(out, 6)?;
    shown::format(out, image)?;
    shown::make_file(out, image, b"/0042", &DATE)?;
    shown::write_digits(out, image, b"/0042", 0, 39015)?;
    bytes_at(out, image, 23, 1)?;
    shown::write(out, image, b"/0042", 39015, b"+")?;
    bytes_at(out, image, 23, 1)?;
    shown::verdict(out, image)
}

fn case_7<W: io::Write>(out: &mut W, image: &mut Image) -> io::Result<()> {
    case(out, 7)?;
    file_made(out, image)?;
    shown::write_digits(out, image, b"/0042", 0, 1786)?;
    shown::verdict(out, image)?;
    shown::write_digits(out, image, b"/0042", 0, 1785)?;
    shown::verdict(out, image)
}

fn case_8<W: io::Write>(out: &mut W, image: &mut Image) -> io::Result<()> {
    case(out, 8)?;
    shown::format(out, image)?;
    shown::make_directory(out, image, b"/1", &DATE)?;
    shown::make_directory(out, image, b"/2", &DATE)?;
    shown::make_directory(out, image, b"/3", &DATE)?;
    shown::make_directory(out, image, b"/4", &DATE)?;
    shown::make_directory(out, image, b"/5", &DATE)?;
    shown::make_directory(out, image, b"/6", &DATE)?;
    shown::verdict(out, image)?;
    shown::make_directory(out, image, b"/7", &DATE)
}

fn case_9<W: io::Write>(out: &mut W, image: &mut Image) -> io::Result<()> {
    case(out, 9)?;
    shown::format(out, image)?;
    shown::make_file(out, image, b"/sixteen letters!", &DATE)?;
    shown::make_file(out, image, b"/seventeen letters", &DATE)?;
    shown::make_file(out, image, b"//A", &DATE)?;
    shown::make_file(out, image, b"/A/", &DATE)?;
    shown::find(out, image, b"/sixteen letters!")
}

fn case_10<W: io::Write>(out: &mut W, image: &mut Image) -> io::Result<()> {
    case(out, 10)?;
    file_made(out, image)?;
    shown::write_digits(out, image, b"/0042", 0, 255)?;
    shown::write(out, image, b"/0042", 256, b"+")?;
    shown::write(out, image, b"/0042", 255, b"+")?;
    shown::read(out, image, b"/0042", 253, &mut [b'.'; 4])?;
    shown::find(out, image, b"/0042")
}

// On the image that case 7 leaves.
fn case_11<W: io::Write>(out: &mut W, image: &mut Image) -> io::Result<()> {
    case(out, 11)?;
    shown::remove_file(out, image, b"/0042")?;
    shown::verdict(out, image)?;
    shown::make_file(out, image, b"/43", &DATE)?;
    shown::write_digits(out, image, b"/43", 0, 1785)?;
    read_back(out, image, b"/43", 1785)?;
    shown::verdict(out, image)
}

// 65,025 is FE01 in hexadecimal.
fn case_12<W: io::Write>(out: &mut W, image: &mut Largest) -> io::Result<()> {
    case(out, 12)?;
    shown::format(out, image)?;
    shown::make_file(out, image, b"/0042", &DATE)?;
    shown::write_digits(out, image, b"/0042", 0, 65026)?;
    shown::verdict(out, image)?;
    shown::write_digits(out, image, b"/0042", 0, 65025)?;
    bytes_at(out, image, 81, 3)?;
    shown::verdict(out, image)?;
    read_back(out, image, b"/0042", 65025)?;
    shown::write(out, image, b"/0042", 65025, b"+")
}

// The start page of entry 1 is byte 113. Page 2 is then nobody's, and its bit and the count are set as if it were free, so that page 1
// being owned twice is the only fault. Without entry 1, whose flags are byte 96, the image is sound.
fn two_files_on_one_page<W: io::Write>(out: &mut W, image: &mut Image) -> io::Result<()> {
    file_made(out, image)?;
    shown::write_digits(out, image, b"/0042", 0, 255)?;
    shown::make_file(out, image, b"/42", &DATE)?;
    shown::write_digits(out, image, b"/42", 0, 255)?;
    shown::verdict(out, image)?;
    set_byte(out, image, 113, 1)?;
    set_byte(out, image, 4, 0x03)?;
    set_byte(out, image, 3, 6)?;
    shown::verdict(out, image)?;
    shown::find(out, image, b"/0042")?;
    shown::read(out, image, b"/42", 0, &mut [b'.'; 4])?;
    set_byte(out, image, 96, 0)?;
    shown::verdict(out, image)
}

// A file on pages 1, 2 and 3, and byte 512, the link of page 2, leads back to page 1. Page 3 is then nobody's, and is set free as above.
// With 510 bytes as the size the chain should end before it returns, and with page 2 as the last again the image is sound.
fn chain_that_returns<W: io::Write>(out: &mut W, image: &mut Image) -> io::Result<()> {
    file_made(out, image)?;
    shown::write_digits(out, image, b"/0042", 0, 765)?;
    shown::verdict(out, image)?;
    set_byte(out, image, 512, 1)?;
    set_byte(out, image, 4, 0x07)?;
    set_byte(out, image, 3, 5)?;
    shown::verdict(out, image)?;
    shown::write(out, image, b"/0042", 0, b"+")?;
    shown::remove_file(out, image, b"/0042")?;
    set_byte(out, image, 82, 0xFE)?;
    set_byte(out, image, 83, 0x01)?;
    shown::verdict(out, image)?;
    set_byte(out, image, 512, 0)?;
    shown::verdict(out, image)?;
    read_back(out, image, b"/0042", 510)
}

fn case_13<W: io::Write>(out: &mut W, image: &mut Image) -> io::Result<()> {
    case(out, 13)?;
    two_files_on_one_page(out, image)?;
    chain_that_returns(out, image)
}

fn main(rt: HostRuntime) -> io::Result<()> {
    let mut out = rt.stdout();
    // No case may lean on what an image held before its format.
    let mut image = [0xE5u8; 2048];
    let mut full = [0xE5u8; 2048];
    let mut largest = [0xE5u8; 65536];
    case_1(&mut out, &mut image)?;
    case_2(&mut out, &mut image)?;
    cases_3_and_4(&mut out, &mut image)?;
    case_5(&mut out, &mut image)?;
    case_6(&mut out, &mut largest)?;
    case_7(&mut out, &mut full)?;
    case_8(&mut out, &mut image)?;
    case_9(&mut out, &mut image)?;
    case_10(&mut out, &mut image)?;
    case_11(&mut out, &mut full)?;
    case_12(&mut out, &mut largest)?;
    case_13(&mut out, &mut image)
}
