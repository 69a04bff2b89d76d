// A refusal as one number, for callers that are not Rattle: the paper's number in the low byte, and its place above it. The code says the case, and
// `refusal_code` in specs/ what it stands for; that every refusal that a call can give has this room is law `place_fits`.
#![tactic(auto)]

ghost use Rattle.std.specs.Prelude.{◌≡◌};
ghost use Rattle.model.specs.Call.{is_file};
ghost use Rattle.model.specs.Meaning.{fault_told};
ghost use Rattle.faults.specs.Answers.{fault_of};
ghost use Rattle.refusals.specs.Told.{told};
ghost use Rattle.codes.specs.Codes.{packed, refusal_code, Fits};
ghost use Rattle.codes.specs.Outs.{lock_number};

use faults::Fault;
use refusals::Refusal;

// The three numbers of a place as one. Places are packed the same in version 2.
pub fn pack(a: usize, b: usize, c: usize) -> u64
    requires { Fits (a, b, c) }
    ensures { result ≡ packed (a, b, c) }
{
    a as u64 + 65536 * (b as u64 + 65536 * c as u64)
}

// Where the image is unsound. A fault is told the same in version 2.
pub fn fault_place(fault: Fault) -> u64
    requires { Fits (fault_told (fault_of fault)).place }
    ensures { result ≡ packed (fault_told (fault_of fault)).place }
{
    match fault {
        Fault::BadEntry(directory, entry) => pack(directory.0, entry, 0),
        Fault::BadChain(directory, entry, passed) => pack(directory.0, entry, passed),
        Fault::OwnedTwice(page) => pack(page.0, 0, 0),
        Fault::MarkedFree(page) => pack(page.0, 0, 0),
        Fault::LostPage(page) => pack(page.0, 0, 0),
        Fault::BadCount => pack(0, 0, 0),
    }
}

// Where a refusal points: the byte of the path, or the fault's place; 0 where there is none.
fn place(r: Refusal) -> u64
    requires { Fits (told r).place }
    ensures { result ≡ packed (told r).place }
{
    match r {
        Refusal::Unsound(fault) => fault_place(fault),
        Refusal::NoSuchName(byte) => pack(byte, 0, 0),
        Refusal::NotADirectory(byte) => pack(byte, 0, 0),
        _ => 0,
    }
}

// A refusal's code. A walk stops within the first 65,536 bytes of a path of any length, and pages, entries and what passed are few, so the place
// of a call's refusal has room.
pub fn code(r: Refusal) -> u64
    requires { Fits (told r).place }
    ensures { result ≡ refusal_code (told r) }
{
    refusals::number(r) as u64 + 256 * place(r)
}

// A file's lock as a number; it is told the same in version 2.
pub fn lock_number(locked: bool) -> u64
    ensures { result ≡ lock_number (is_file locked) }
{
    u64::from(locked)
}
