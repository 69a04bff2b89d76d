// ZealFS version 1 over a lent image: the public calls and what they answer, under one name. None has a `requires`: whatever the bytes, a call answers what
// the model's `answer` says, and leaves the image and the reader's buffer as `after` and `buffer_after` say. A refused call changes no byte.
#![tactic(auto)]

pub use listed::list;
pub use locks::{lock, unlock};
pub use looks::{find, verdict};
pub use makes::{format, make_directory, make_file};
pub use outcomes::{Counts, Found, Kind, Listed};
pub use reads::read;
pub use refusals::Refusal;
pub use removals::{remove_directory, remove_file};
pub use writes::write;
