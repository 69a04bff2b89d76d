// The walk of a path over an image of version 2 that is known to be sound (paper 02 §12), from directory to directory, each a chain of pages.
// It goes where the model's walk on the bytes goes, and every directory that it comes to is one of the image's own, whose pages lie in it.
#![tactic(auto)]

ghost use Rattle.std.specs.Prelude.{◌≡◌, true, not, ◌≤◌, length};
ghost use Rattle.model.specs.Path.{path_of, is_no_path};
ghost use Rattle.model.specs.Walk.{entry_named};
ghost use Rattle.model2.specs.Version2.{view2};
ghost use Rattle.cursor2.specs.Row.{found_of};
ghost use Rattle.known2.specs.Known.{Known};
ghost use Rattle.known2.specs.Housed.{Housed};
ghost use Rattle.paths.specs.Steps.{entered, walked_parent};
ghost use Rattle.paths.specs.Places.{parent_of};
ghost use Rattle.walk2.specs.Steps.{Inside, walked_of, IntoHoused, Fits};

use fields::{Entry, Page};
use paths::{Parent, Stop};
use shape::Shape;

// The directory that a walk has come to.
#[derive(Clone, Copy)]
pub struct Walk(pub Page);

// The entry of that name in a directory, on whichever of its pages. On a sound image it lies in the image.
pub fn entry_named(
    image: &[u8],
    shape: Shape,
    pages: usize,
    directory: Page,
    name: &[u8],
) -> Option<usize>
    requires { Known image.now shape pages × Housed (view2 image.now) directory.0 }
    ensures { Inside image.now result × (found_of result ≡ entry_named (view2 image.now) directory.0 name.now) }
{
    cursor2::entry_named(image, shape, pages, directory, name)
}

impl Walk {
    // The root.
    pub fn start() -> Walk
        ensures { result.0.0 ≡ 0 }
    {
        Walk(Page(0))
    }

    // One name on, which begins at that byte of the path: into the directory of that name, if there is one.
    pub fn step(
        self,
        image: &[u8],
        shape: Shape,
        pages: usize,
        name: &[u8],
        begins: usize,
    ) -> Result<Walk, Stop>
        requires { Known image.now shape pages × Housed (view2 image.now) self.0.0 }
        ensures { IntoHoused (view2 image.now) result × (walked_of result ≡ entered (view2 image.now) (record { begins = begins; bytes = name.now }) self.0.0) }
    {
        let Some(at) = entry_named(image, shape, pages, self.0, name) else {
            return Err(Stop::Missing(begins));
        };
        match fields2::entry_at(image, at) {
            Entry::Vacant => Err(Stop::Missing(begins)),
            Entry::File(_, _) => Err(Stop::Blocked(begins)),
            Entry::Directory(start, _) => Ok(Walk(start)),
        }
    }
}

// The walk of all names of a path but the last. The root has no last name, so it is not asked for.
pub fn walk_parents(image: &[u8], shape: Shape, pages: usize, path: &[u8]) -> Result<Parent, Stop>
    requires { Known image.now shape pages × (2 ≤ length path.now) × (not (is_no_path (path_of path.now)) ≡ true) }
    ensures { Fits (view2 image.now) path.now result × (parent_of path.now result ≡ walked_parent (view2 image.now) (path_of path.now) 0) }
{
    let mut walk = Walk::start();
    let mut from = 1;
    loop {
        let to = names::text_end(path, from);
        if to == path.len() {
            return Ok(Parent {
                directory: walk.0,
                begins: from,
            });
        }
        let name = names::pad(&path[from..to]);
        walk = walk.step(image, shape, pages, &name, from)?;
        from = to + 1;
    }
}
