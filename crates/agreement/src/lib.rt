// The bitmap and byte 3 beside the second judge's row of owners (02 §8). Nothing is changed.
#![tactic(auto)]

ghost use Rattle.std.specs.Prelude.{◌≡◌, ◌-◌, ◌≤◌, ◌<◌, length};
ghost use Rattle.volume.specs.Lists.{all, up_to};
ghost use Rattle.model.specs.Layout.{page_count};
ghost use Rattle.claims.specs.Lent.{Row};
ghost use Rattle.agreement.specs.Marked.{agrees, nobodies, is_marked};

use fields::Page;

// Page p is marked exactly if somebody owns it.
fn page_agrees(image: &[u8], row: &[usize], p: usize) -> bool
    requires { Row image.now row.now × (p < length row.now) × (36 ≤ length image.now) }
    ensures { result ≡ agrees image.now row.now p }
{
    (bitmap::bit(image, Page(p)) == 1) == (row[p] != 0)
}

fn pages_agree(image: &[u8], row: &[usize]) -> bool
    requires { Row image.now row.now × (36 ≤ length image.now) }
    ensures { result ≡ all (agrees image.now row.now) (up_to (page_count image.now)) }
{
    for p in 0..row.len() {
        if !page_agrees(image, row, p) {
            return false;
        }
    }
    true
}

fn count_nobodies(row: &[usize]) -> usize
    requires { length row.now ≤ 256 }
    ensures { result ≡ nobodies row.now (length row.now) }
{
    let mut count = 0;
    for owner in row {
        count += usize::from(*owner == 0);
    }
    count
}

// Byte 3 says how many pages nobody owns. It is not trusted.
pub fn is_marked(image: &[u8], row: &[usize]) -> bool
    requires { Row image.now row.now × (36 ≤ length image.now) }
    ensures { result ≡ is_marked image.now row.now }
{
    if !pages_agree(image, row) {
        return false;
    }
    fields::free_count(image) == count_nobodies(row)
}
