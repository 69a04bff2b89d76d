// Why a call on a cartridge of version 2 says no: one case for each number of the paper's table that version 2 can give (paper 02 §12), with its place where
// it has one; the faults of an image are the judge's own cases. 9 and 29 are not among them: a directory grows, and there are no stores.
// The code says the case, the contracts say its number and place, by `told` in specs/; nothing else decides a number.
#![tactic(auto)]

ghost use Rattle.std.specs.Prelude.{◌≡◌};
ghost use Rattle.refusals2.specs.Told.{told, stopped_by};
ghost use Rattle.refusals2.specs.declared.Refusal.TheVariants.{Unsound};

use faults::Fault;
use paths::Stop;

#[derive(Clone, Copy)]
pub enum Refusal {
    // 1: the image's length is not one of the allowed.
    BadLength,
    // 2: byte 0 or 1 is not 5A, 02.
    BadVersion,
    // 26: the page code is above 2 or too small for the length, the length is no multiple of 8 pages, or bytes 2 and 3 are not N/8.
    BadShape,
    // 16 to 20, or 3: the image is not sound; its first fault (02 §2).
    Unsound(Fault),
    // 4: the path is no path.
    NoPath,
    // 11: make: the date is not good.
    BadDate,
    // 14: removals: the path is `/`.
    IsRoot,
    // 5: a name of the walk isn't in its directory; the byte of the path at which it begins.
    NoSuchName(usize),
    // 6: the walk, list or remove directory meets a file where it needs a directory; the byte of the path at which the file's name begins.
    NotADirectory(usize),
    // 8: make: the name is there already, or the path is `/`.
    NameTaken,
    // 7: read, write, remove file, lock or unlock: the path is a directory.
    IsADirectory,
    // 25: write or remove file: the file is locked (02 §10).
    Locked,
    // 12: the position is past the size, or the entry number past the directory's last.
    PastEnd,
    // 10: make or write: more pages wanted than the free number; a make in a full directory wants one more.
    NoFreePages,
    // 13: remove directory: it holds something.
    NotEmpty,
}

impl From<Fault> for Refusal {
    ghost from_gives = { λ fault r. r ≡ Unsound fault };

    fn from(fault: Fault) -> Refusal {
        Self::Unsound(fault)
    }
}

impl From<Stop> for Refusal {
    ghost from_gives = { λ stop r. r ≡ stopped_by stop };

    fn from(stop: Stop) -> Refusal {
        match stop {
            Stop::Missing(byte) => Self::NoSuchName(byte),
            Stop::Blocked(byte) => Self::NotADirectory(byte),
        }
    }
}

// The paper's number. A fault has the same one in both versions.
pub fn number(r: Refusal) -> u8
    ensures { result ≡ (told r).number }
{
    match r {
        Refusal::BadLength => 1,
        Refusal::BadVersion => 2,
        Refusal::BadShape => 26,
        Refusal::Unsound(fault) => refusals::fault_number(fault),
        Refusal::NoPath => 4,
        Refusal::BadDate => 11,
        Refusal::IsRoot => 14,
        Refusal::NoSuchName(_) => 5,
        Refusal::NotADirectory(_) => 6,
        Refusal::NameTaken => 8,
        Refusal::IsADirectory => 7,
        Refusal::Locked => 25,
        Refusal::PastEnd => 12,
        Refusal::NoFreePages => 10,
        Refusal::NotEmpty => 13,
    }
}
