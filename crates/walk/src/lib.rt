// The walk of a path over an image, from directory to directory. It judges nothing: on any image it goes where the model's walk on the bytes goes.
#![tactic(auto)]

ghost use Rattle.std.specs.Prelude.{◌≡◌, true, not, ◌+◌, ◌*◌, ◌<◌, ◌≤◌, length};
ghost use Rattle.model.specs.Layout.{page_size, page_count};
ghost use Rattle.model.specs.Version1.{view};
ghost use Rattle.model.specs.Path.{path_of, is_no_path};
ghost use Rattle.model.specs.Walk.{entry_named};
ghost use Rattle.paths.specs.Places.{parent_of};
ghost use Rattle.walk.specs.Steps.{spot_of, Inside, walked_of, Small, entered, walked_parent, Fits};

use fields::{Entry, Page};
use paths::{Parent, Stop};

// The directory that a walk has come to.
#[derive(Clone, Copy)]
pub struct Walk(pub Page);

// The position of the entry of that name in a directory. A page past the image holds none: a start page may be any byte.
pub fn entry_named(image: &[u8], directory: Page, name: &[u8]) -> Option<usize>
    requires { (directory.0 < 256) × (page_size * page_count image.now ≡ length image.now) }
    ensures { Inside image.now result × (spot_of result ≡ entry_named (view image.now) directory.0 name.now) }
{
    if fields::page_count(image.len()) <= directory.0 {
        return None;
    }
    for i in 0..fields::entry_count(directory) {
        let at = fields::entry_position(directory, i);
        if names::is_named(image, at, name) {
            return Some(at);
        }
    }
    None
}

impl Walk {
    // The root.
    pub fn start() -> Walk
        ensures { result.0.0 ≡ 0 }
    {
        Walk(Page(0))
    }

    // One name on, which begins at that byte of the path: into the directory of that name, if there is one.
    pub fn step(self, image: &[u8], name: &[u8], begins: usize) -> Result<Walk, Stop>
        requires { (self.0.0 < 256) × (page_size * page_count image.now ≡ length image.now) }
        ensures { Small result × (walked_of result ≡ entered image.now (record { begins = begins; bytes = name.now }) self.0.0) }
    {
        let at = entry_named(image, self.0, name).ok_or(Stop::Missing(begins))?;
        match fields::entry_at(image, at) {
            Entry::Vacant => Err(Stop::Missing(begins)),
            Entry::File(_, _) => Err(Stop::Blocked(begins)),
            Entry::Directory(start, _) => Ok(Walk(start)),
        }
    }
}

// The walk of all names of a path but the last. The root has no last name, so it is not asked for.
pub fn walk_parents(image: &[u8], path: &[u8]) -> Result<Parent, Stop>
    requires { (page_size * page_count image.now ≡ length image.now) × (2 ≤ length path.now) × (not (is_no_path (path_of path.now)) ≡ true) }
    ensures { Fits path.now result × (parent_of path.now result ≡ walked_parent image.now (path_of path.now) 0) }
{
    let mut walk = Walk::start();
    let mut from = 1;
    loop {
        let to = names::text_end(path, from);
        if to == path.len() {
            return Ok(Parent {
                directory: walk.0,
                begins: from,
            });
        }
        let name = names::pad(&path[from..to]);
        walk = walk.step(image, &name, from)?;
        from = to + 1;
    }
}
