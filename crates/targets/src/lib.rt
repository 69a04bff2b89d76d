// An accepted proposal carried out into a second buffer (02 §13): each page of the target is lent as its own stretch and written once. No function can
// change the image, which is lent to be read alone.
#![tactic(auto)]

ghost use Rattle.std.specs.Prelude.{◌≡◌, ◌+◌, ◌/◌, ◌*◌, ◌<◌, ◌≤◌, length, get_or, take, T};
ghost use mathlib.Core.List.{◌++◌, map, flat_map};
ghost use Rattle.volume.specs.Bytes.{part, put};
ghost use Rattle.volume.specs.Lists.{up_to};
ghost use Rattle.volume.proofs.Occ.{Under};
ghost use Rattle.model.specs.Layout.{page_size, page_count, page_bit, valid_length};
ghost use Rattle.model.specs.Entry.{entries};
ghost use Rattle.moves.specs.Tidy.{accepted, moved_entry, moved};
ghost use Rattle.moves.specs.Propose.{numbered};
ghost use Rattle.proposals.specs.Steps.{Judged, Pages, bits_at};

use fields::Page;

// ---- the header page

// The bit of the page that comes to place q.
fn place_bit(image: &[u8], pages: &[u8], q: usize) -> usize
    requires { Pages image.now pages.now × (q < length pages.now) × T (valid_length (length image.now)) }
    ensures { (result ≡ page_bit image.now (get_or pages.now q 0)) × (result < 2) }
{
    bitmap::bit(image, Page(usize::from(pages[q])))
}

// The bits of the pages that come to the eight places from 8·k on.
fn bits_at(image: &[u8], pages: &[u8], k: usize) -> usize
    requires { Pages image.now pages.now × (8 * k + 8 ≤ length pages.now) × T (valid_length (length image.now)) }
    ensures { (result ≡ bits_at image.now pages.now k) × (result < 256) }
{
    let q = 8 * k;
    let low = place_bit(image, pages, q)
        + 2 * place_bit(image, pages, q + 1)
        + 4 * place_bit(image, pages, q + 2)
        + 8 * place_bit(image, pages, q + 3);
    let high = place_bit(image, pages, q + 4)
        + 2 * place_bit(image, pages, q + 5)
        + 4 * place_bit(image, pages, q + 6)
        + 8 * place_bit(image, pages, q + 7);
    low + 16 * high
}

// The bitmap's bytes in use. Those past them stay.
fn write_bits(image: &[u8], pages: &[u8], stretch: &mut [u8])
    requires { Pages image.now pages.now × T (valid_length (length image.now)) × (length stretch.old ≡ page_size) }
    ensures { stretch.new ≡ put 4 (map (bits_at image.now pages.now) (up_to (page_count image.now / 8))) stretch.old }
{
    let used = pages.len() / 8;
    for k in 0..used {
        stretch[4 + k] = bits_at(image, pages, k) as u8;
    }
}

// Page 0: its bitmap and the start pages of the root's entries follow.
fn move_header(image: &[u8], places: &[u8], pages: &[u8], stretch: &mut [u8])
    requires { Pages image.now pages.now × T (valid_length (length image.now)) × (length stretch.old ≡ page_size) }
    ensures { stretch.new ≡ take 64 (put 4 (map (bits_at image.now pages.now) (up_to (page_count image.now / 8))) (part 0 page_size image.now))
        ++ flat_map (moved_entry places.now image.now) (entries 0) }
{
    moved_pages::copy_page(image, Page(0), stretch);
    write_bits(image, pages, stretch);
    moved_pages::move_entries(image, places, Page(0), stretch);
}

// ---- all pages

// The page that comes to each place.
fn invert(places: &[u8], pages: &mut [u8])
    requires { Under (length pages.old) places.now × (length places.now ≤ 256) }
    ensures { pages.new ≡ numbered 0 places.now pages.old }
{
    for (p, place) in places.iter().enumerate() {
        pages[usize::from(*place)] = p as u8;
    }
}

// Writes the target from its first place to its last, whatever it held.
pub fn write_moved(
    image: &[u8],
    owners: &[usize],
    places: &[u8],
    pages: &mut [u8],
    target: &mut [u8],
)
    requires { Judged image.now owners.now × T (accepted image.now places.now) × (length pages.old ≡ page_count image.now) × (length target.old ≡ length image.now) }
    ensures { target.new ≡ moved places.now image.now }
{
    invert(places, pages);
    move_header(image, places, pages, &mut target[0..256]);
    for q in 1..pages.len() {
        let first = fields::first_byte(Page(q));
        let end = first + 256;
        moved_pages::move_page(
            image,
            owners,
            places,
            Page(usize::from(pages[q])),
            &mut target[first..end],
        );
    }
}
