// The file LINKS of a directory (02 §4), by the base's calls alone: its path, and its bytes.
#![tactic(auto)]

ghost use Rattle.std.specs.Prelude.{◌≡◌, ◌+◌, ◌≤◌, not, ◌∷◌, length, T};
ghost use Rattle.volume.specs.Bytes.{put};
ghost use Rattle.model.specs.Path.{path_of, is_no_path};
ghost use Rattle.family.specs.Family.{onward};
ghost use Rattle.link_list.specs.Links.{links_path};
ghost use Rattle.link_files.specs.Loaded.{Loads};

use fields::Position;
use refusals::Refusal;

pub fn put_bytes(bytes: &mut [u8], at: usize, source: &[u8])
    requires { at + length source.now ≤ length bytes.old }
    ensures { bytes.new ≡ put at source.now bytes.old }
{
    bytes[at..at + source.len()].copy_from_slice(source);
}

// A slash and a name; the byte behind it.
fn put_name(path: &mut [u8], at: usize, name: &[u8]) -> usize
    requires { at + 1 + length name.now ≤ length path.old }
    ensures value { result ≡ at + 1 + length name.now }
    ensures path_after { path.new ≡ put at (0x2F ∷ name.now) path.old }
{
    path[at] = b'/';
    put_bytes(path, at + 1, name);
    at + 1 + name.len()
}

// The path of a name in a directory, put at the front of the bytes; its length. The root's path is its slash.
#[tactic(auto, using(crate::proofs::Paths::onward_root))]
pub fn join(directory: &[u8], name: &[u8], path: &mut [u8]) -> usize
    requires { T (not (is_no_path (path_of directory.now))) × (length directory.now + 1 + length name.now ≤ length path.old) }
    ensures value { (result ≡ length (onward directory.now name.now)) × (result ≤ length path.old) }
    ensures path_after { path.new ≡ put 0 (onward directory.now name.now) path.old }
{
    if directory.len() == 1 {
        return put_name(path, 0, name);
    }
    put_bytes(path, 0, directory);
    put_name(path, directory.len(), name)
}

// The path of a directory's LINKS, put at the front of the bytes; its length.
pub fn links_path(directory: &[u8], path: &mut [u8]) -> usize
    requires { T (not (is_no_path (path_of directory.now))) × (length directory.now + 6 ≤ length path.old) }
    ensures value { (result ≡ length (links_path directory.now)) × (result ≤ length path.old) }
    ensures path_after { path.new ≡ put 0 (links_path directory.now) path.old }
{
    join(directory, b"LINKS", path)
}

// The bytes of the file LINKS of a directory, as many as there is room for; how many. Its path is put together in the bytes lent for it.
fn load_by(
    image: &[u8],
    directory: &[u8],
    path: &mut [u8],
    file: &mut [u8],
) -> Result<usize, Refusal>
    requires { T (not (is_no_path (path_of directory.now))) × (length directory.now + 6 ≤ length path.old) }
    ensures { Loads directory.now image.now file.new (length file.old) result }
{
    let len = links_path(directory, path);
    zealfs::read(image, &path[..len], Position(0), file)
}

// The same with room for any path: that the directory is there is asked first, for then its path is short enough to be copied.
// Kept out of its caller's frame: that room would lie on the stack beside the room for the longest file, though nearly every path is short.
#[inline(never)]
fn load_asked(image: &[u8], directory: &[u8], file: &mut [u8]) -> Result<usize, Refusal>
    ensures { Loads directory.now image.now file.new (length file.old) result }
{
    zealfs::list(image, directory, 0)?;
    let mut path = [0u8; 4352];
    load_by(image, directory, &mut path, file)
}

// A short path is copied at once, and the image judged only once.
pub fn load(image: &[u8], directory: &[u8], file: &mut [u8]) -> Result<usize, Refusal>
    ensures { Loads directory.now image.now file.new (length file.old) result }
{
    if 250 < directory.len() {
        return load_asked(image, directory, file);
    }
    if !names::is_path(directory) {
        return load_asked(image, directory, file);
    }
    let mut path = [0u8; 256];
    load_by(image, directory, &mut path, file)
}
