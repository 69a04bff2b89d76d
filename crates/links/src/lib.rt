// The link list of a directory (02 §4), above `zealfs` and by its calls alone: the file LINKS, read, written, searched and checked, over slices of
// numbers, three a row; the calls and what they answer, under one name. None has a `requires`: whatever the bytes, it answers what `link_answer` says,
// leaves the image as `link_after` says and the numbers as `numbers_after` says. A refused call changes neither.
#![tactic(auto)]

pub use link_answers::LinkRefusal;
pub use link_looks::{check, find, read};
pub use link_packs::write;
