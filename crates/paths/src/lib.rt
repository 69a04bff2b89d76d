// The names of a path, one by one, and where they lead on the bytes of an image, by any view of it: what a walk comes to in either version, with
// definitions and laws that hold of both. Types, no code.
#![tactic(auto)]

use fields::Page;

// Why a walk stops: the byte of the path at which the name begins that is not there, or that is a file's.
#[derive(Clone, Copy)]
pub enum Stop {
    Missing(usize),
    Blocked(usize),
}

// Where all names of a path but the last lead, with the byte at which the last one begins. The last name ends with the path.
#[derive(Clone, Copy)]
pub struct Parent {
    pub directory: Page,
    pub begins: usize,
}

// A file or a directory by its entry: the entry's position, the byte of the path at which its name begins, and what the entry says.
#[derive(Clone, Copy)]
pub struct Target {
    pub entry: usize,
    pub begins: usize,
    pub start: Page,
    pub size: usize,
}

// The root has no entry.
#[derive(Clone, Copy)]
pub enum Place {
    Root,
    File(Target),
    Directory(Target),
}
