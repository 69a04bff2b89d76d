// The calls of `zealfs` as lines of text, for programs that make them and print what came: the call with its arguments, ` => `, and its
// answer with all its values. Nothing is decided here.
#![tactic(auto)]

ghost use Rattle.std.specs.Prelude.{◌≡◌, ◌≤◌, length};

use faults::Fault;
use fields::Position;
use outcomes::{Counts, Found, Kind, Listed};
use refusals::Refusal;
use std::{fmt, io};

// ---- bytes

// Two digits for each byte.
#[derive(Clone, Copy)]
pub struct Hex<'a>(pub &'a [u8]);

impl fmt::Display for Hex<'_> {
    fn fmt<W: fmt::Write>(&self, f: &mut fmt::Formatter<W>) -> fmt::Result {
        for byte in self.0 {
            write!(f, "{byte:02x}")?;
        }
        Ok(())
    }
}

// Printable ASCII between quotes; any other byte, a quote and a backslash as a backslash and two digits.
#[derive(Clone, Copy)]
pub struct Quoted<'a>(pub &'a [u8]);

impl fmt::Display for Quoted<'_> {
    fn fmt<W: fmt::Write>(&self, f: &mut fmt::Formatter<W>) -> fmt::Result {
        f.write_str("\"")?;
        for byte in self.0 {
            match *byte {
                b'"' | b'\\' => write!(f, "\\{byte:02x}")?,
                0x20..=0x7E => write!(f, "{}", char::from(*byte))?,
                _ => write!(f, "\\{byte:02x}")?,
            }
        }
        f.write_str("\"")
    }
}

// So many bytes, and of a long row only the first and the last.
#[derive(Clone, Copy)]
struct Counted<'a>(&'a [u8]);

impl fmt::Display for Counted<'_> {
    fn fmt<W: fmt::Write>(&self, f: &mut fmt::Formatter<W>) -> fmt::Result {
        let bytes = self.0;
        let count = bytes.len();
        if count <= 64 {
            return write!(f, "{count} bytes {}", Quoted(bytes));
        }
        let first = Quoted(&bytes[..16]);
        let last = Quoted(&bytes[count - 16..]);
        write!(f, "{count} bytes {first}..{last}")
    }
}

// ---- answers

// Where an image is unsound: the page, or the directory's page and the entry, and for a chain how many of its pages passed.
#[derive(Clone, Copy)]
struct FaultPlace(Fault);

impl fmt::Display for FaultPlace {
    fn fmt<W: fmt::Write>(&self, f: &mut fmt::Formatter<W>) -> fmt::Result {
        match self.0 {
            Fault::BadEntry(directory, entry) => write!(f, "{} {entry}", directory.0),
            Fault::BadChain(directory, entry, passed) => {
                write!(f, "{} {entry} {passed}", directory.0)
            }
            Fault::OwnedTwice(page) | Fault::MarkedFree(page) | Fault::LostPage(page) => {
                write!(f, "{}", page.0)
            }
            Fault::BadCount => write!(f, "0"),
        }
    }
}

// A refusal's number and place: the byte of the path for 5 and 6, that of a fault, and 0 where there is nothing to point at.
#[derive(Clone, Copy)]
struct Refused(Refusal);

impl fmt::Display for Refused {
    fn fmt<W: fmt::Write>(&self, f: &mut fmt::Formatter<W>) -> fmt::Result {
        write!(f, "refused {} at ", refusals::number(self.0))?;
        match self.0 {
            Refusal::Unsound(fault) => write!(f, "{}", FaultPlace(fault)),
            Refusal::NoSuchName(byte) | Refusal::NotADirectory(byte) => write!(f, "{byte}"),
            _ => write!(f, "0"),
        }
    }
}

// What a call tells, or its refusal.
#[derive(Clone, Copy)]
struct Answer<T>(Result<T, Refusal>);

impl<T: fmt::Display> fmt::Display for Answer<T> {
    fn fmt<W: fmt::Write>(&self, f: &mut fmt::Formatter<W>) -> fmt::Result {
        match &self.0 {
            Ok(told) => write!(f, "{told}"),
            Err(r) => write!(f, "{}", Refused(*r)),
        }
    }
}

// A call that tells only that it was done.
fn done(answer: Result<(), Refusal>) -> Answer<&'static str> {
    Answer(answer.map(|_| "done"))
}

#[derive(Clone, Copy)]
struct CountsTold(Counts);

impl fmt::Display for CountsTold {
    fn fmt<W: fmt::Write>(&self, f: &mut fmt::Formatter<W>) -> fmt::Result {
        write!(f, "pages {} free {}", self.0.pages, self.0.free)
    }
}

fn kind_word(kind: Kind) -> &'static str {
    match kind {
        Kind::File { .. } => "file",
        Kind::Directory => "directory",
    }
}

fn lock_word(kind: Kind) -> &'static str {
    match kind {
        Kind::File { locked: true } => " locked",
        _ => "",
    }
}

#[derive(Clone, Copy)]
struct FoundTold(Found);

impl fmt::Display for FoundTold {
    fn fmt<W: fmt::Write>(&self, f: &mut fmt::Formatter<W>) -> fmt::Result {
        let found = &self.0;
        let word = kind_word(found.kind);
        let locked = lock_word(found.kind);
        let size = found.size;
        write!(f, "{word}{locked} size {size} date {}", Hex(&found.date))
    }
}

#[derive(Clone, Copy)]
struct ListedTold(Option<Listed>);

impl fmt::Display for ListedTold {
    fn fmt<W: fmt::Write>(&self, f: &mut fmt::Formatter<W>) -> fmt::Result {
        match &self.0 {
            Some(listed) => {
                let word = kind_word(listed.kind);
                let name = Quoted(&listed.name);
                let locked = lock_word(listed.kind);
                let size = listed.size;
                write!(
                    f,
                    "{word} {name}{locked} size {size} date {}",
                    Hex(&listed.date)
                )
            }
            None => write!(f, "empty"),
        }
    }
}

// ---- the calls: what is asked is written before the call is made, so that a writer that fails there leaves what was lent as it was

pub fn format<W: io::Write>(out: &mut W, image: &mut [u8]) -> io::Result<()> {
    write!(out, "format => ")?;
    writeln!(out, "{}", done(zealfs::format(image)))
}

pub fn verdict<W: io::Write>(out: &mut W, image: &[u8]) -> io::Result<()> {
    write!(out, "verdict => ")?;
    let answer = Answer(zealfs::verdict(image).map(CountsTold));
    writeln!(out, "{answer}")
}

pub fn find<W: io::Write>(out: &mut W, image: &[u8], path: &[u8]) -> io::Result<()> {
    write!(out, "find {} => ", Quoted(path))?;
    let answer = Answer(zealfs::find(image, path).map(FoundTold));
    writeln!(out, "{answer}")
}

pub fn list<W: io::Write>(out: &mut W, image: &[u8], path: &[u8], i: usize) -> io::Result<()> {
    write!(out, "list {} entry {i} => ", Quoted(path))?;
    let answer = Answer(zealfs::list(image, path, i).map(ListedTold));
    writeln!(out, "{answer}")
}

// The buffer is shown whole, also after a refusal: past what was copied it stays.
pub fn read<W: io::Write>(
    out: &mut W,
    image: &[u8],
    path: &[u8],
    position: usize,
    buffer: &mut [u8],
) -> io::Result<()> {
    let room = buffer.len();
    write!(out, "read {} at {position} room {room} => ", Quoted(path))?;
    let answer = Answer(zealfs::read(image, path, Position(position), buffer));
    writeln!(out, "{answer} buffer {}", Quoted(buffer))
}

pub fn make_file<W: io::Write>(
    out: &mut W,
    image: &mut [u8],
    path: &[u8],
    date: &[u8],
) -> io::Result<()> {
    write!(out, "make_file {} date {} => ", Quoted(path), Hex(date))?;
    writeln!(out, "{}", done(zealfs::make_file(image, path, date)))
}

pub fn make_directory<W: io::Write>(
    out: &mut W,
    image: &mut [u8],
    path: &[u8],
    date: &[u8],
) -> io::Result<()> {
    write!(
        out,
        "make_directory {} date {} => ",
        Quoted(path),
        Hex(date)
    )?;
    writeln!(out, "{}", done(zealfs::make_directory(image, path, date)))
}

pub fn write<W: io::Write>(
    out: &mut W,
    image: &mut [u8],
    path: &[u8],
    position: usize,
    bytes: &[u8],
) -> io::Result<()> {
    write!(
        out,
        "write {} at {position} {} => ",
        Quoted(path),
        Counted(bytes)
    )?;
    let answer = done(zealfs::write(image, path, Position(position), bytes));
    writeln!(out, "{answer}")
}

pub fn remove_file<W: io::Write>(out: &mut W, image: &mut [u8], path: &[u8]) -> io::Result<()> {
    write!(out, "remove_file {} => ", Quoted(path))?;
    writeln!(out, "{}", done(zealfs::remove_file(image, path)))
}

pub fn remove_directory<W: io::Write>(
    out: &mut W,
    image: &mut [u8],
    path: &[u8],
) -> io::Result<()> {
    write!(out, "remove_directory {} => ", Quoted(path))?;
    writeln!(out, "{}", done(zealfs::remove_directory(image, path)))
}

pub fn lock<W: io::Write>(out: &mut W, image: &mut [u8], path: &[u8]) -> io::Result<()> {
    write!(out, "lock {} => ", Quoted(path))?;
    writeln!(out, "{}", done(zealfs::lock(image, path)))
}

pub fn unlock<W: io::Write>(out: &mut W, image: &mut [u8], path: &[u8]) -> io::Result<()> {
    write!(out, "unlock {} => ", Quoted(path))?;
    writeln!(out, "{}", done(zealfs::unlock(image, path)))
}

// What of a store the plain tree decides: that it is there, or why not. Its page and the bytes of it are not shown.
pub fn store<W: io::Write>(
    out: &mut W,
    image: &[u8],
    path: &[u8],
    date: &[u8],
    content: &[u8],
    number: usize,
    page: &mut [u8],
) -> io::Result<()> {
    let room = page.len();
    write!(
        out,
        "store {} date {} {} number {number} room {room} => ",
        Quoted(path),
        Hex(date),
        Counted(content)
    )?;
    let answer = Answer(store::store(image, path, date, content, number, page).map(|_| "done"));
    writeln!(out, "{answer}")
}

// ---- content for a long write

// The pattern again and again.
fn fill(content: &mut [u8], pattern: &[u8]) {
    if pattern.is_empty() {
        return;
    }
    for (i, byte) in content.iter_mut().enumerate() {
        *byte = pattern[i % pattern.len()];
    }
}

// 13 digits again and again. No page carries a multiple of 13 bytes, so a page in the wrong place shows.
pub fn digits() -> [u8; 65536]
    ensures { 65536 ≡ length result }
{
    let mut content = [0u8; 65536];
    fill(&mut content, b"0123456789abc");
    content
}

// A write of so many digits.
pub fn write_digits<W: io::Write>(
    out: &mut W,
    image: &mut [u8],
    path: &[u8],
    position: usize,
    count: usize,
) -> io::Result<()>
    requires { count ≤ 65536 }
{
    let content = digits();
    write(out, image, path, position, &content[..count])
}
