// A file made with its content at once, by whole pages that the board stores one after the other (02 §11). Nothing here changes an image: a store is
// asked for by its number, its page's number is the answer, and its bytes go into a lent buffer. Until they do, the buffer itself serves as a copy of
// the header page, on which the pages are found. The one public call has no `requires`.
#![tactic(auto)]

ghost use Rattle.std.specs.Prelude.{◌≡◌, ◌+◌, ◌-◌, ◌*◌, ◌/◌, ◌<◌, ◌≤◌, length, ltb};
ghost use Rattle.volume.specs.Bytes.{byte_at, part, put};
ghost use Rattle.std.specs.Prelude.{if◌then◌else◌};
ghost use Rattle.volume.specs.Geometry as On;
ghost use Rattle.model.specs.Layout.{version1, page_size, room, page_count, pages_for, free_count};
ghost use Rattle.model.specs.Call.{store};
ghost use Rattle.model.specs.Meaning.{answer, buffer_after};
ghost use Rattle.store_laws.specs.Claim.{claim, claimed, page_after, link_after, content_page, started_entry};
ghost use Rattle.store.specs.Answers.{store_answer};
ghost use Rattle.store.specs.Asked.{Storing};

use fields::Page;
use refusals::Refusal;

// ---- pages found on the header page, or a copy of it: the bitmap's functions ask for its fields alone

// The lowest free page of n, or n if there is none.
fn lowest(header: &[u8], n: usize) -> Page
    requires { (n ≤ 256) × (36 ≤ length header.now) }
    ensures { result.0 ≡ On.lowest_free version1 n header.now }
{
    bitmap::lowest_free(header, n).unwrap_or(Page(n))
}

// Marks and counts the lowest free page.
fn claim_lowest(header: &mut [u8], n: usize) -> Page
    requires { (n ≤ 256) × (64 ≤ length header.old) × (0 < byte_at header.old 3) }
    ensures { (result.0 ≡ On.lowest_free version1 n header.old) × (header.new ≡ claim (On.lowest_free version1 n header.old) header.old) }
{
    let page = lowest(header, n);
    bitmap::mark(header, page);
    header[3] = header[3] - 1;
    page
}

// Marks and counts the k lowest free pages, one after the other. A copy of the header page is then the header after the stores.
fn claim_pages(header: &mut [u8], n: usize, k: usize)
    requires { (n ≤ 256) × (64 ≤ length header.old) × (k ≤ byte_at header.old 3) }
    ensures { header.new ≡ claimed n k header.old }
{
    for _ in 0..k {
        claim_lowest(header, n);
    }
}

// The page that comes next, if the file has more; its last page has the link 0.
fn next_link(header: &[u8], n: usize, more: bool) -> Page
    requires { (n ≤ 256) × (36 ≤ length header.now) }
    ensures { result.0 ≡ (if more then On.lowest_free version1 n header.now else 0) }
{
    if more {
        return lowest(header, n);
    }
    Page(0)
}

// ---- a page into the buffer

fn copy_page(image: &[u8], page: Page, buffer: &mut [u8])
    requires { (length buffer.old ≡ 256) × (page_size * page.0 + 256 ≤ length image.now) }
    ensures { buffer.new ≡ part (page_size * page.0) page_size image.now }
{
    let first = fields::first_byte(page);
    let end = first + 256;
    pages::copy_in(buffer, 0, &image[first..end]);
}

// Page j of the content: its link, up to 255 bytes, and zeros behind them.
fn fill_content(buffer: &mut [u8], link: usize, content: &[u8], j: usize)
    requires { (length buffer.old ≡ 256) × (link < 256) × (room * j ≤ length content.now) × (length content.now ≤ 65025) }
    ensures { buffer.new ≡ content_page link content.now j }
{
    pages::zero(buffer);
    buffer[0] = link as u8;
    let from = 255 * j;
    let end = content.len().min(from + 255);
    pages::copy_in(buffer, 1, &content[from..end]);
}

// The new entry, which starts at the lowest free page.
fn entry_bytes(image: &[u8], name: &[u8], date: &[u8], size: usize) -> [u8; 32]
    requires { (length name.now ≡ 16) × (length date.now ≡ 8) × Storing image.now size }
    ensures { result ≡ started_entry name.now date.now size (On.lowest_free version1 (page_count image.now) image.now) }
{
    let n = fields::page_count(image.len());
    let start = lowest(image, n);
    let mut entry = changes::new_entry(0x80, name, size, date);
    entry[17] = start.0 as u8;
    entry
}

// ---- the stores

// Store j, page j of the content: the pages before it are claimed, then it, and the next free one is its link.
fn store_content(image: &[u8], content: &[u8], j: usize, buffer: &mut [u8]) -> Page
    requires { Storing image.now (length content.now) × (j < pages_for (length content.now)) × (length buffer.old ≡ 256) }
    ensures result_value { result.0 ≡ page_after (page_count image.now) j (part 0 256 image.now) }
    ensures buffer_after { buffer.new ≡ content_page (link_after (page_count image.now) (pages_for (length content.now)) j (part 0 256 image.now)) content.now j }
{
    let n = fields::page_count(image.len());
    let k = fields::pages_for(content.len());
    copy_page(image, Page(0), buffer);
    claim_pages(buffer, n, j);
    let here = claim_lowest(buffer, n);
    let link = next_link(buffer, n, j + 1 < k);
    fill_content(buffer, link.0, content, j);
    here
}

// The store after those of the k pages: the header with all of them claimed, and with the new entry if the root holds it.
fn store_header(image: &[u8], k: usize, entry: usize, bytes: &[u8], buffer: &mut [u8])
    requires { (256 ≤ length image.now) × (page_count image.now ≤ 256) × (k ≤ free_count image.now) × (length bytes.now ≡ 32) × (length buffer.old ≡ 256) × (entry < 256 → entry + 32 ≤ 256) }
    ensures { buffer.new ≡ (if ltb entry 256 then put entry bytes.now (claimed (page_count image.now) k (part 0 256 image.now)) else claimed (page_count image.now) k (part 0 256 image.now)) }
{
    let n = fields::page_count(image.len());
    copy_page(image, Page(0), buffer);
    claim_pages(buffer, n, k);
    if entry < 256 {
        pages::copy_in(buffer, entry, bytes);
    }
}

// The last store below a directory: its page with the new entry.
fn store_parent(image: &[u8], entry: usize, bytes: &[u8], buffer: &mut [u8]) -> Page
    requires { (length bytes.now ≡ 32) × (length buffer.old ≡ 256) × (256 * (entry / 256) + 256 ≤ length image.now) × (entry + 32 ≤ 256 * (entry / 256) + 256) }
    ensures result_value { result.0 ≡ entry / 256 }
    ensures buffer_after { buffer.new ≡ put (entry - 256 * (entry / 256)) bytes.now (part (256 * (entry / 256)) 256 image.now) }
{
    let parent = entry / 256;
    copy_page(image, Page(parent), buffer);
    pages::copy_in(buffer, entry - 256 * parent, bytes);
    Page(parent)
}

// ---- the call

// Fewer pages are free than the whole file wants.
fn lacks_pages(image: &[u8], size: usize) -> bool
    requires { 4 ≤ length image.now }
    ensures { result ≡ ltb (free_count image.now) (pages_for size) }
{
    fields::free_count(image) < fields::pages_for(size)
}

// How many stores there are: one for each page, the header's, and the parent's unless the entry is one of the root's.
fn store_count(k: usize, entry: usize) -> usize
    requires { k ≤ 256 }
    ensures { result ≡ k + (if ltb entry 256 then 1 else 2) }
{
    if entry < 256 {
        return k + 1;
    }
    k + 2
}

// The store of that number, from 0, of a new file with this content: the pages along its chain, then the header, then the parent's page if that is
// another. Every store is worked out from the image before the first, so the image is not changed until all are known to the board.
pub fn store(
    image: &[u8],
    path: &[u8],
    date: &[u8],
    content: &[u8],
    number: usize,
    page: &mut [u8],
) -> Result<Page, Refusal>
    ensures result_value { store_answer result ≡ answer (store path.now date.now content.now number page.old) image.now }
    ensures page_after { page.new ≡ buffer_after (store path.now date.now content.now number page.old) image.now }
{
    if page.len() != 256 {
        return Err(Refusal::NotAPage);
    }
    let opening = openings::find_opening(image, path, date)?;
    if lacks_pages(image, content.len()) {
        return Err(Refusal::NoFreePages);
    }
    let k = fields::pages_for(content.len());
    if store_count(k, opening.entry) <= number {
        return Err(Refusal::PastEnd);
    }
    if number < k {
        return Ok(store_content(image, content, number, page));
    }
    let end = path.len();
    let name = names::pad(&path[opening.begins..end]);
    let bytes = entry_bytes(image, &name, date, content.len());
    if number == k {
        store_header(image, k, opening.entry, &bytes, page);
        return Ok(Page(0));
    }
    Ok(store_parent(image, opening.entry, &bytes, page))
}
