// The lines of a directory and of all that is below it, in the listing of an image (01, "At the bench"): an entry that is a directory is listed as
// one in turn. Its path is written behind that of its directory.
#![tactic(auto)]

ghost use Rattle.std.specs.Prelude.{◌≡◌, ◌+◌, ◌*◌, ◌≤◌, ◌<◌, length, take};
ghost use Rattle.model.specs.Layout.{page_count};
ghost use Rattle.model.specs.Entry.{entry_at};
ghost use Rattle.model.specs.Version1.{view};
ghost use Rattle.model.specs.Sound.{owned};
ghost use Rattle.laws.proofs.Owns.{own};
ghost use Rattle.listing_lines.specs.Window.{window, poured};
ghost use Rattle.listing_rows.specs.Lines.{directory_lines, entry_lines, Readable, NameEnds, Extended};

use fields::{Entry, Page};
use listing_lines::Sink;

// Where the name of the entry at position `at` ends: at its first zero, or behind all of its 16 bytes.
fn name_end(image: &[u8], at: usize) -> usize
    requires { at + 32 ≤ length image.now }
    ensures { NameEnds image.now at result }
{
    for to in at + 1..at + 17 {
        if image[to] == 0 {
            return to;
        }
    }
    at + 17
}

// Writes the path of the entry at position `at` behind that of its directory, which is the first `len` bytes, and answers its length.
// A name ends at its first zero, or is all of its 16 bytes.
fn extend(image: &[u8], at: usize, path: &mut [u8], len: usize) -> usize
    requires { (at + 32 ≤ length image.now) × (len + 17 ≤ length path.old) }
    ensures { Extended image.now at path.old path.new len result }
{
    let from = at + 1;
    let to = name_end(image, at);
    path[len] = b'/';
    pages::copy_in(path, len + 1, &image[from..to]);
    len + 1 + (to - from)
}

// Lists the entry at position `at` and what is below it. A file's size is that of its content, for its pages lie in the image.
#[cycle(list_directory_list_entry)]
fn list_entry(
    image: &[u8],
    at: usize,
    depth: usize,
    path: &mut [u8],
    len: usize,
    out: &mut [u8],
    sink: Sink,
) -> Sink
    requires { (at + 32 ≤ length image.now) × Readable image.now (own depth image.now (entry_at image.now at))
        × (len + 17 * depth + 17 ≤ length path.old) }
    ensures { (window result out.new ≡
        poured (entry_lines depth image.now at (take len path.old)) (window sink out.old))
        × (take len path.new ≡ take len path.old) }
{
    match fields::entry_at(image, at) {
        Entry::Vacant => sink,
        Entry::File(_, size) => {
            let end = extend(image, at, path, len);
            listing_lines::pour_line(out, sink, b'F', size, &path[..end])
        }
        Entry::Directory(start, _) => {
            let end = extend(image, at, path, len);
            let sink = listing_lines::pour_line(out, sink, b'D', 256, &path[..end]);
            list_directory(image, start, depth, path, end, out, sink)
        }
    }
}

// Lists the entries of a directory in order, and of directories below it as many levels as `depth` says, which falls so that the walk
// ends. Its path is the first `len` bytes of `path`; each level adds at most 17.
#[cycle(list_directory_list_entry)]
pub fn list_directory(
    image: &[u8],
    directory: Page,
    depth: usize,
    path: &mut [u8],
    len: usize,
    out: &mut [u8],
    sink: Sink,
) -> Sink
    requires { (directory.0 < page_count image.now) × Readable image.now (owned depth (view image.now) directory.0)
        × (len + 17 * depth ≤ length path.old) }
    ensures { (window result out.new ≡
        poured (directory_lines depth image.now directory.0 (take len path.old)) (window sink out.old))
        × (take len path.new ≡ take len path.old) }
{
    if depth == 0 {
        return sink;
    }
    let count = fields::entry_count(directory);
    let mut listed = sink;
    for i in 0..count {
        let at = fields::entry_position(directory, i);
        listed = list_entry(image, at, depth - 1, path, len, out, listed);
    }
    listed
}
