// What a write does to the bytes of an image once it is granted: the file's chain grows, its entry gets the size, and the content is written.
// Nothing is judged here. What a function asks of the image holds on every sound one, and its contract is the model's effect, byte for byte.
#![tactic(auto)]

ghost use Rattle.std.specs.Prelude.{◌≡◌, ◌+◌, ◌-◌, ◌≤◌, length, take};
ghost use Rattle.volume.specs.Chain.{chain};
ghost use Rattle.volume.specs.Field.{byte};
ghost use Rattle.volume.specs.Geometry as On;
ghost use Rattle.volume.proofs.Unzeroed.{ButFor};
ghost use Rattle.model.specs.Layout.{version1, link};
ghost use Rattle.model.specs.Effect.{rewritten};
ghost use Rattle.chains.specs.Asked.{Inside};
ghost use Rattle.rewrites.specs.Asked.{Adding, Writing};

use fields::{Page, Position};

// Where the number of a chain's next page goes: the link of the last of its k pages, or the start page of an entry that has none,
// as every new one before it gets its first.
fn joint_of(image: &[u8], entry: usize, start: Page, k: usize) -> usize
    requires { (entry + 32 ≤ length image.now) × Inside image.now k start.0 }
    ensures { byte result ≡ On.joint_of version1 (byte (entry + 17)) (chain (link image.now) k start.0) }
{
    if k == 0 {
        return entry + 17;
    }
    let last = chains::page_at(image, start, k - 1);
    fields::first_byte(last)
}

// Adds pages to a chain that has `held`, whose content is written next. With none to add it is not gone through for its last link: each link has to be
// waited for before the next one can be read.
fn add_pages(image: &mut [u8], n: usize, entry: usize, start: Page, held: usize, count: usize)
    requires { Adding n entry start.0 held count image.old }
    ensures { ButFor version1 (take (count - 1) (On.gained version1 n count image.old))
        (On.grown version1 n count (On.joint_of version1 (byte (entry + 17)) (chain (link image.old) held start.0)) image.old) image.new }
{
    if count == 0 {
        return;
    }
    let joint = joint_of(image, entry, start, held);
    chains::grow_unzeroed(image, n, joint, count);
}

// Puts bytes over a file's content from the position on, after its chain has the pages for them and its entry the size.
pub fn write_entry(
    image: &mut [u8],
    entry: usize,
    start: Page,
    size: usize,
    position: Position,
    bytes: &[u8],
)
    requires { Writing entry start.0 size position.0 bytes.now image.old }
    ensures { image.new ≡ rewritten entry position.0 bytes.now image.old }
{
    let n = fields::page_count(image.len());
    let new_size = size.max(position.0 + bytes.len());
    let held = fields::pages_for(size);
    let wanted = fields::pages_for(new_size);
    add_pages(image, n, entry, start, held, wanted - held);
    let sized = changes::size_bytes(new_size);
    entry_bytes::put(image, entry + 18, &sized);
    // Growth may have put it there: nothing here leans on a file having pages before.
    let first = fields::start_of(image, entry);
    chains::write_chain(image, first, wanted, position, bytes);
}
