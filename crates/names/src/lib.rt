// Names and paths, byte by byte: which bytes are legal, whether two names are the same, and where the texts of a path end.
// Every function answers what the model says of the bytes, changes none, and asks only that what it reads lies in the image or the path.
#![tactic(auto)]

ghost use Rattle.std.specs.Prelude.{◌≡◌, not, ◌+◌, ◌≤◌, length, drop};
ghost use Rattle.volume.specs.Bytes.{same, byte_at};
ghost use Rattle.model.specs.Entry.{name_at, entry_at};
ghost use Rattle.model.specs.Sound.{is_named};
ghost use Rattle.model.specs.Name.{legal_byte, legal_name, legal_text, padded};
ghost use Rattle.model.specs.Path.{path_of, is_no_path};
ghost use Rattle.names.specs.Texts.{text_length};
ghost use Rattle.names.specs.Names.{may_follow};

use fields::Entry;

pub fn legal_byte(c: u8) -> bool
    ensures { result ≡ legal_byte c }
{
    if c < 0x20 {
        return false;
    }
    if 0x7E < c {
        return false;
    }
    c != b'/'
}

// Two names are the same if all their bytes are: 0042 is not 42. No byte ends the loop: sixteen are compared at once.
#[tactic(auto, using(crate::proofs::Steps::same_not))]
pub fn same_bytes(a: &[u8], b: &[u8]) -> bool
    ensures { result ≡ same a.now b.now }
{
    if a.len() != b.len() {
        return false;
    }
    let mut equal = true;
    for k in 0..a.len() {
        equal &= a[k] == b[k];
    }
    equal
}

// ---- the name of the entry at position `at`, which is not copied

pub fn has_name(image: &[u8], at: usize, name: &[u8]) -> bool
    requires { at + 32 ≤ length image.now }
    ensures { result ≡ same (name_at image.now at) name.now }
{
    same_bytes(&image[at + 1..at + 17], name)
}

// The entry has this name. A vacant one has none, whatever its bytes.
pub fn is_named(image: &[u8], at: usize, name: &[u8]) -> bool
    requires { at + 32 ≤ length image.now }
    ensures { result ≡ is_named name.now (entry_at image.now at) }
{
    let entry = fields::entry_at(image, at);
    if let Entry::Vacant = entry {
        return false;
    }
    has_name(image, at, name)
}

// The entry has the name that stands in the one at position `other`. Both judges ask it of all pairs of a directory: the hint puts it in the place of
// both calls (docs/LOOK-BACK.md).
#[inline]
pub fn has_name_of(image: &[u8], at: usize, other: usize) -> bool
    requires { (at + 32 ≤ length image.now) × (other + 32 ≤ length image.now) }
    ensures { result ≡ is_named (name_at image.now other) (entry_at image.now at) }
{
    let entry = fields::entry_at(image, at);
    if let Entry::Vacant = entry {
        return false;
    }
    same_bytes(&image[at + 1..at + 17], &image[other + 1..other + 17])
}

// What stands behind a byte in a legal name: a zero, or a legal byte behind one that is no zero.
fn may_follow(before: u8, c: u8) -> bool
    ensures { result ≡ may_follow before c }
{
    (c == 0) | ((0x20 <= c) & (c <= 0x7E) & (c != b'/') & (before != 0))
}

// The name of an occupied entry. The flags stand before its first byte and are not 0, so every byte has one before it, and no byte ends the
// loop: sixteen are tested at once.
pub fn name_is_legal(image: &[u8], at: usize) -> bool
    requires { (at + 32 ≤ length image.now) × (1 ≤ byte_at image.now at) }
    ensures { result ≡ legal_name (name_at image.now at) }
{
    let mut legal = true;
    for k in 0..16 {
        legal &= may_follow(image[at + k], image[at + 1 + k]);
    }
    legal & (image[at + 1] != 0)
}

// ---- names without padding, as they stand in a path

pub fn legal_text(text: &[u8]) -> bool
    ensures { result ≡ legal_text text.now }
{
    if text.len() < 1 {
        return false;
    }
    if 16 < text.len() {
        return false;
    }
    text.iter().all(|c| legal_byte(*c))
}

pub fn pad(text: &[u8]) -> [u8; 16]
    requires { length text.now ≤ 16 }
    ensures { result ≡ padded text.now }
{
    let mut name = [0u8; 16];
    name[..text.len()].copy_from_slice(text);
    name
}

// ---- paths

// Where the text that begins at `from` ends: at the next slash, or with the path.
pub fn text_end(path: &[u8], from: usize) -> usize
    requires { from ≤ length path.now }
    ensures { (result ≡ from + text_length (drop from path.now)) × (result ≤ length path.now) }
{
    match path[from..].iter().position(|c| *c == b'/') {
        Some(k) => from + k,
        None => path.len(),
    }
}

// The texts behind the first slash are legal: behind a slash at the end stands an empty one, which is not.
pub fn is_path(path: &[u8]) -> bool
    ensures { result ≡ not (is_no_path (path_of path.now)) }
{
    if path.len() < 1 {
        return false;
    }
    if path[0] != b'/' {
        return false;
    }
    if path.len() == 1 {
        return true;
    }
    path[1..].split(|c| *c == b'/').all(|text| legal_text(text))
}
