// A refusal of the link list (02 §4) as one number, as `codes` has it for the base's. 21, 22 and 23 have one number for a place, a byte of the file
// or a row's number, and all that is above the low byte for it: it is told up to 2^56 - 1, which no list in memory reaches.
#![tactic(auto)]

ghost use Rattle.std.specs.Prelude.{◌≡◌, min};
ghost use Rattle.link_answers.specs.Answers.{link_refusal, done_told};
ghost use Rattle.link_codes.specs.Codes.{most_row, link_code, link_code_of, LinkFits, AnswerFits};

use link_answers::LinkRefusal;

// The place of 21, 22 and 23.
fn row_place(at: usize) -> u64
    ensures { result ≡ min at most_row }
{
    (at as u64).min(72057594037927935)
}

// A refusal's code.
pub fn code(r: LinkRefusal) -> u64
    requires { LinkFits (link_refusal r) }
    ensures { result ≡ link_code (link_refusal r) }
{
    match r {
        LinkRefusal::Base(refusal) => codes::code(refusal),
        LinkRefusal::BrokenRow(at) => 21 + 256 * row_place(at),
        LinkRefusal::NotAbove(i) => 22 + 256 * row_place(i),
        LinkRefusal::ListTooShort => 24,
        LinkRefusal::NoFile(i) => 23 + 256 * row_place(i),
    }
}

// The code of a call that tells nothing else.
pub fn done_code(a: Result<(), LinkRefusal>) -> u64
    requires { AnswerFits (done_told a) }
    ensures { result ≡ link_code_of (done_told a) }
{
    match a {
        Ok(()) => 0,
        Err(r) => code(r),
    }
}
