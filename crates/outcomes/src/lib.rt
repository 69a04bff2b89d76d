// What the calls of either version tell: the counts of a sound image, what a path leads to, what an entry holds. A call that is refused tells its refusal in
// place of them. Types and their values in the model, no code.
#![tactic(auto)]

// A sound image has so many pages, of which so many are free.
#[derive(Clone, Copy)]
pub struct Counts {
    pub pages: usize,
    pub free: usize,
}

// A file, locked or not, or a directory.
#[derive(Clone, Copy)]
pub enum Kind {
    File { locked: bool },
    Directory,
}

// What a path leads to. A directory's size is that of a page, and the root's date is zeros.
#[derive(Clone, Copy)]
pub struct Found {
    pub kind: Kind,
    pub size: usize,
    pub date: [u8; 8],
}

// What an entry of a directory holds that is not empty. The name has its padding.
#[derive(Clone, Copy)]
pub struct Listed {
    pub kind: Kind,
    pub name: [u8; 16],
    pub size: usize,
    pub date: [u8; 8],
}
