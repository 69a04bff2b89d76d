// A refusal of version 2 as one number, for callers that are not Rattle: the paper's number in the low byte, and its place above it, as in version 1. The
// code says the case, and `refusal_code` of `codes` what it stands for; that every refusal that a call can give has this room is law `roomy2`.
#![tactic(auto)]

ghost use Rattle.std.specs.Prelude.{◌≡◌};
ghost use Rattle.refusals2.specs.Told.{told};
ghost use Rattle.codes.specs.Codes.{packed, refusal_code, Fits};

use refusals2::Refusal;

// Where a refusal points: the byte of the path, or the fault's place; 0 where there is none.
fn place(r: Refusal) -> u64
    requires { Fits (told r).place }
    ensures { result ≡ packed (told r).place }
{
    match r {
        Refusal::Unsound(fault) => codes::fault_place(fault),
        Refusal::NoSuchName(byte) => codes::pack(byte, 0, 0),
        Refusal::NotADirectory(byte) => codes::pack(byte, 0, 0),
        _ => 0,
    }
}

// A refusal's code. An image has at most 1,024 pages, so a walk stops within the first 65,536 bytes of a path of any length.
pub fn code(r: Refusal) -> u64
    requires { Fits (told r).place }
    ensures { result ≡ refusal_code (told r) }
{
    refusals2::number(r) as u64 + 256 * place(r)
}
