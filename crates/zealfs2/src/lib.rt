// ZealFS version 2 over a lent image (paper 02 §12): the public calls and what they answer, under one name. None has a `requires`: whatever the bytes, a call
// answers what the model's `answer v2` says, and leaves the image and the reader's buffer as `after v2` and `buffer_after v2` say. A refused call changes no byte.
#![tactic(auto)]

pub use listed2::list;
pub use locks2::{lock, unlock};
pub use looks2::{find, verdict};
pub use makes2::{format, make_directory, make_file};
pub use outcomes::{Counts, Found, Kind, Listed};
pub use reads2::read;
pub use refusals2::Refusal;
pub use removals2::{remove_directory, remove_file};
pub use writes2::write;
