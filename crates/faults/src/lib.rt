// What a judge of an image comes to (01, "A sound image"; the places of faults: 02 §2): clean, or the first fault with its place. Both versions
// have these, and a refusal tells a fault. Types and their values in the model, no code.
#![tactic(auto)]

use fields::Page;

// The first fault of an image, with its place; in brackets the number of paper 02 §2, which `refusals` tells.
#[derive(Clone, Copy)]
pub enum Fault {
    // An occupied entry whose name is not legal or is that of an earlier one, or a directory whose size is not 0x0100: the
    // directory's page and the entry's number (16).
    BadEntry(Page, usize),
    // A page that does not lie in 1..N-1, or a chain that does not end where the size says: the directory's page, the
    // entry's number, and how many of the entry's pages passed (17).
    BadChain(Page, usize, usize),
    // A page that is owned twice (18).
    OwnedTwice(Page),
    // An owned page whose bitmap bit is 0 (20).
    MarkedFree(Page),
    // The lowest page whose bitmap bit is 1 and that nobody owns (19).
    LostPage(Page),
    // Bit 0 is not 1, or byte 3 is not the number of zero bits among the first N (3).
    BadCount,
}
