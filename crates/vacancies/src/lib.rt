// The vacant entries of a directory: the lowest one, where a make puts its own, and whether there are no others.
#![tactic(auto)]

ghost use Rattle.std.specs.Prelude.{◌≡◌, ◌+◌, ◌<◌, ◌≤◌, length};
ghost use Rattle.volume.specs.Lists.{all, first};
ghost use Rattle.model.specs.Layout.{page_count};
ghost use Rattle.model.specs.Entry.{entries, entry_at};
ghost use Rattle.model.specs.Effect.{is_vacant};
ghost use Rattle.walk.specs.Steps.{spot_of, Inside};

use fields::{Entry, Page};

fn is_vacant(image: &[u8], at: usize) -> bool
    requires { at + 32 ≤ length image.now }
    ensures { result ≡ is_vacant (entry_at image.now at) }
{
    match fields::entry_at(image, at) {
        Entry::Vacant => true,
        Entry::File(_, _) => false,
        Entry::Directory(_, _) => false,
    }
}

// The lowest vacant entry of a directory, where a make puts its own.
pub fn vacant_entry(image: &[u8], directory: Page) -> Option<usize>
    requires { directory.0 < page_count image.now }
    ensures { Inside image.now result × (spot_of result ≡ first (λ at. is_vacant (entry_at image.now at)) (entries directory.0)) }
{
    for lowest in 0..fields::entry_count(directory) {
        let at = fields::entry_position(directory, lowest);
        if is_vacant(image, at) {
            return Some(at);
        }
    }
    None
}

// Every entry of a directory is vacant, so that it may be removed.
pub fn holds_nothing(image: &[u8], directory: Page) -> bool
    requires { directory.0 < page_count image.now }
    ensures { result ≡ all (λ at. is_vacant (entry_at image.now at)) (entries directory.0) }
{
    for i in 0..fields::entry_count(directory) {
        let at = fields::entry_position(directory, i);
        if !is_vacant(image, at) {
            return false;
        }
    }
    true
}
