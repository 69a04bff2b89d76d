// Why a call says no: one case for each number of the paper's table that a call can give, with its place where it has one;
// the faults of an image are the judge's own cases.
// The code says the case, the contracts say its number and place, by `told` in specs/; nothing else decides a number.
#![tactic(auto)]

ghost use Rattle.std.specs.Prelude.{◌≡◌};
ghost use Rattle.model.specs.Meaning.{fault_told};
ghost use Rattle.faults.specs.Answers.{fault_of};
ghost use Rattle.refusals.specs.Told.{told, stopped_by};
ghost use Rattle.refusals.specs.declared.Refusal.TheVariants.{Unsound};

use faults::Fault;
use paths::Stop;

#[derive(Clone, Copy)]
pub enum Refusal {
    // 1: the image's length is not one of the allowed.
    BadLength,
    // 2: byte 0, 1 or 2 is not 5A, 01, N/8.
    BadHeader,
    // 16 to 20, or 3: the image is not sound; its first fault (02 §2).
    Unsound(Fault),
    // 4: the path is no path.
    NoPath,
    // 11: make or store: the date is not good.
    BadDate,
    // 14: removals: the path is `/`.
    IsRoot,
    // 5: a name of the walk isn't in its directory; the byte of the path at which it begins.
    NoSuchName(usize),
    // 6: the walk, list or remove directory meets a file where it needs a directory; the byte of the path at which the file's name begins.
    NotADirectory(usize),
    // 8: make or store: the name is there already, or the path is `/`.
    NameTaken,
    // 7: read, write, remove file, lock or unlock: the path is a directory.
    IsADirectory,
    // 25: write or remove file: the file is locked (02 §10).
    Locked,
    // 12: the position is past the size, the entry number past the directory's last, or the store number past the last store.
    PastEnd,
    // 9: make or store: no empty entry.
    DirectoryFull,
    // 10: make, write or store: more pages wanted than the free number.
    NoFreePages,
    // 13: remove directory: it holds something.
    NotEmpty,
    // 29: store: the lent buffer is not a page (02 §11). It is given before all others.
    NotAPage,
}

impl From<Fault> for Refusal {
    ghost from_gives = { λ fault r. r ≡ Unsound fault };

    fn from(fault: Fault) -> Refusal {
        Self::Unsound(fault)
    }
}

impl From<Stop> for Refusal {
    ghost from_gives = { λ stop r. r ≡ stopped_by stop };

    fn from(stop: Stop) -> Refusal {
        match stop {
            Stop::Missing(byte) => Self::NoSuchName(byte),
            Stop::Blocked(byte) => Self::NotADirectory(byte),
        }
    }
}

// The paper's number of a fault, in either version. 20 is told before 19.
pub fn fault_number(fault: Fault) -> u8
    ensures { result ≡ (fault_told (fault_of fault)).number }
{
    match fault {
        Fault::BadEntry(_, _) => 16,
        Fault::BadChain(_, _, _) => 17,
        Fault::OwnedTwice(_) => 18,
        Fault::MarkedFree(_) => 20,
        Fault::LostPage(_) => 19,
        Fault::BadCount => 3,
    }
}

// The paper's number.
pub fn number(r: Refusal) -> u8
    ensures { result ≡ (told r).number }
{
    match r {
        Refusal::BadLength => 1,
        Refusal::BadHeader => 2,
        Refusal::Unsound(fault) => fault_number(fault),
        Refusal::NoPath => 4,
        Refusal::BadDate => 11,
        Refusal::IsRoot => 14,
        Refusal::NoSuchName(_) => 5,
        Refusal::NotADirectory(_) => 6,
        Refusal::NameTaken => 8,
        Refusal::IsADirectory => 7,
        Refusal::Locked => 25,
        Refusal::PastEnd => 12,
        Refusal::DirectoryFull => 9,
        Refusal::NoFreePages => 10,
        Refusal::NotEmpty => 13,
        Refusal::NotAPage => 29,
    }
}
