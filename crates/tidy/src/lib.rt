// Tidy pages (02 §13): a proposal says for every page of an image its new place; an accepted one is carried out into a second buffer. Crate `proposals`
// judges one, `targets` carries it out. All of it goes page by page, by the owners' row, which crate `owner_rows` fills.
// The two public calls have no `requires`, and no function can change the image, which is lent to be read alone.
#![tactic(auto)]

ghost use Rattle.std.specs.Prelude.{◌≡◌, ◌+◌, ◌-◌, ◌<◌, ◌≤◌, length};
ghost use mathlib.Core.List.{flat_map};
ghost use Rattle.volume.specs.Lists.{keep, count_from};
ghost use Rattle.volume.specs.Chain.{chain};
ghost use Rattle.volume.proofs.Occ.{Under};
ghost use Rattle.model.specs.Layout.{page_count, link};
ghost use Rattle.owner_rows.specs.Unnamed.{Unnamed};
ghost use Rattle.moves.specs.Tidy.{tidy_answer, tidy_after};
ghost use Rattle.moves.specs.Propose.{file_from, is_other, order, numbered, propose_answer, propose_after};
ghost use Rattle.proposals.specs.Steps.{Judged, other_at};
ghost use Rattle.tidy.specs.Answer.{answer_of};
ghost use Rattle.tidy.specs.declared.TidyRefusal.TheVariants.{Base};

use fields::{Entry, Page};
use refusals::Refusal;

// Why the two calls say no: the verdict's own refusal, or one of §13's.
#[derive(Clone, Copy)]
pub enum TidyRefusal {
    Base(Refusal),
    // 28: the target has another length than the image.
    OtherLength,
    // 27: the proposal is not accepted, or the row has not N numbers.
    NotAccepted,
}

impl From<Refusal> for TidyRefusal {
    ghost from_gives = { λ base r. r ≡ Base base };

    fn from(base: Refusal) -> TidyRefusal {
        Self::Base(base)
    }
}

// ---- tidy

// On a sound image, with a target of its length.
fn tidy_judged(
    image: &[u8],
    owners: &[usize],
    places: &[u8],
    target: &mut [u8],
) -> Result<(), TidyRefusal>
    requires { Judged image.now owners.now × (length target.old ≡ length image.now) }
    ensures result_value { answer_of result ≡ tidy_answer image.now places.now target.old }
    ensures target_after { target.new ≡ tidy_after image.now places.now target.old }
{
    if !proposals::is_accepted(image, owners, places) {
        return Err(TidyRefusal::NotAccepted);
    }
    let n = places.len();
    let mut pages = [0u8; 256];
    targets::write_moved(image, owners, places, &mut pages[..n], target);
    Ok(())
}

// On a sound image and the owners of its pages.
fn tidy_sound(
    image: &[u8],
    owners: &[usize],
    places: &[u8],
    target: &mut [u8],
) -> Result<(), TidyRefusal>
    requires { Judged image.now owners.now }
    ensures result_value { answer_of result ≡ tidy_answer image.now places.now target.old }
    ensures target_after { target.new ≡ tidy_after image.now places.now target.old }
{
    if target.len() != image.len() {
        return Err(TidyRefusal::OtherLength);
    }
    tidy_judged(image, owners, places, target)
}

// On a sound image and a row of zeros, which becomes the owners of its pages.
fn tidy_owned(
    image: &[u8],
    owners: &mut [usize],
    places: &[u8],
    target: &mut [u8],
) -> Result<(), TidyRefusal>
    requires { Unnamed image.now owners.old }
    ensures result_value { answer_of result ≡ tidy_answer image.now places.now target.old }
    ensures target_after { target.new ≡ tidy_after image.now places.now target.old }
{
    owner_rows::name_owners(image, owners);
    tidy_sound(image, owners, places, target)
}

// Writes the image to the target with its pages where the proposal puts them, if it is accepted. The verdict's refusals come first. It says that the
// image is sound, so the owners are named by a walk that asks nothing.
pub fn tidy(image: &[u8], places: &[u8], target: &mut [u8]) -> Result<(), TidyRefusal>
    ensures result_value { answer_of result ≡ tidy_answer image.now places.now target.old }
    ensures target_after { target.new ≡ tidy_after image.now places.now target.old }
{
    zealfs::verdict(image)?;
    let mut owners = [0usize; 256];
    tidy_owned(image, &mut owners, places, target)
}

// ---- propose

// The k pages of a chain get the numbers from `next` on. Answers the number that follows.
fn number_chain(image: &[u8], row: &mut [u8], next: usize, start: Page, k: usize) -> usize
    requires { (length row.old ≡ page_count image.now) × Under (length row.old) (chain (link image.now) k start.0) × (next + k ≤ 256) }
    ensures value { result ≡ next + k }
    ensures row_after { row.new ≡ numbered next (chain (link image.now) k start.0) row.old }
{
    let mut page = start;
    for number in next..next + k {
        row[page.0] = number as u8;
        page = fields::link(image, page);
    }
    next + k
}

// The pages of the file that starts on this page, if one does.
fn number_file(image: &[u8], owners: &[usize], row: &mut [u8], next: usize, page: Page) -> usize
    requires { Judged image.now owners.now × (1 ≤ page.0) × (page.0 < page_count image.now) × (length row.old ≡ page_count image.now)
        × (next + length (file_from image.now page.0) ≤ 256) }
    ensures value { result ≡ next + length (file_from image.now page.0) }
    ensures row_after { row.new ≡ numbered next (file_from image.now page.0) row.old }
{
    match proposals::owner_entry(image, owners, page) {
        Entry::Vacant => next,
        Entry::File(start, size) => {
            if start.0 != page.0 {
                return next;
            }
            number_chain(image, row, next, start, fields::pages_for(size))
        }
        Entry::Directory(start, size) => next,
    }
}

// The pages of each file, in the order of the start pages, from number 1 on.
fn number_files(image: &[u8], owners: &[usize], row: &mut [u8]) -> usize
    requires { Judged image.now owners.now × (length row.old ≡ page_count image.now) }
    ensures value { result ≡ 1 + length (flat_map (file_from image.now) (count_from 1 (page_count image.now - 1))) }
    ensures row_after { row.new ≡ numbered 1 (flat_map (file_from image.now) (count_from 1 (page_count image.now - 1))) row.old }
{
    let mut next = 1;
    for p in 1..row.len() {
        next = number_file(image, owners, row, next, Page(p));
    }
    next
}

// A directory's page, or a free one.
fn is_other(image: &[u8], owners: &[usize], page: Page) -> bool
    requires { Judged image.now owners.now × (1 ≤ page.0) × (page.0 < page_count image.now) }
    ensures { result ≡ is_other image.now page.0 }
{
    match proposals::owner_entry(image, owners, page) {
        Entry::Vacant => true,
        Entry::File(start, size) => false,
        Entry::Directory(start, size) => true,
    }
}

// This page, if no file owns it.
fn number_other(image: &[u8], owners: &[usize], row: &mut [u8], next: usize, page: Page) -> usize
    requires { Judged image.now owners.now × (1 ≤ page.0) × (page.0 < page_count image.now) × (length row.old ≡ page_count image.now)
        × (next + length (other_at image.now page.0) ≤ 256) }
    ensures value { result ≡ next + length (other_at image.now page.0) }
    ensures row_after { row.new ≡ numbered next (other_at image.now page.0) row.old }
{
    if !is_other(image, owners, page) {
        return next;
    }
    let p = page.0;
    row[p] = next as u8;
    next + 1
}

// All other pages, in their order.
fn number_others(image: &[u8], owners: &[usize], row: &mut [u8], next: usize)
    requires { Judged image.now owners.now × (length row.old ≡ page_count image.now)
        × (next + length (keep (is_other image.now) (count_from 1 (page_count image.now - 1))) ≤ 256) }
    ensures { row.new ≡ numbered next (keep (is_other image.now) (count_from 1 (page_count image.now - 1))) row.old }
{
    let mut number = next;
    for p in 1..row.len() {
        number = number_other(image, owners, row, number, Page(p));
    }
}

// The header stays, each file's pages come next, and then all other pages.
fn number_pages(image: &[u8], owners: &[usize], row: &mut [u8])
    requires { Judged image.now owners.now × (length row.old ≡ page_count image.now) }
    ensures { row.new ≡ numbered 0 (order image.now) row.old }
{
    row[0] = 0;
    let next = number_files(image, owners, row);
    number_others(image, owners, row, next);
}

// On a sound image and the owners of its pages.
fn propose_sound(image: &[u8], owners: &[usize], places: &mut [u8]) -> Result<(), TidyRefusal>
    requires { Judged image.now owners.now }
    ensures result_value { answer_of result ≡ propose_answer image.now places.old }
    ensures places_after { places.new ≡ propose_after image.now places.old }
{
    if places.len() != fields::page_count(image.len()) {
        return Err(TidyRefusal::NotAccepted);
    }
    number_pages(image, owners, places);
    Ok(())
}

// On a sound image and a row of zeros, which becomes the owners of its pages.
fn propose_owned(image: &[u8], owners: &mut [usize], places: &mut [u8]) -> Result<(), TidyRefusal>
    requires { Unnamed image.now owners.old }
    ensures result_value { answer_of result ≡ propose_answer image.now places.old }
    ensures places_after { places.new ≡ propose_after image.now places.old }
{
    owner_rows::name_owners(image, owners);
    propose_sound(image, owners, places)
}

// Our own helper: on any sound image it puts an accepted proposal into a row of N numbers. The verdict is asked and the owners are named as by `tidy`.
pub fn propose(image: &[u8], places: &mut [u8]) -> Result<(), TidyRefusal>
    ensures result_value { answer_of result ≡ propose_answer image.now places.old }
    ensures places_after { places.new ≡ propose_after image.now places.old }
{
    zealfs::verdict(image)?;
    let mut owners = [0usize; 256];
    propose_owned(image, &mut owners, places)
}
