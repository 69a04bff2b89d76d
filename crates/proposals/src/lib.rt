// A proposal of tidy (02 §13): for every page of an image its new place. Here it is read and judged, page by page, by the owners' row of the second
// judge: there is no walk here and no recursion.
#![tactic(auto)]

ghost use Rattle.std.specs.Prelude.{◌≡◌, ◌-◌, ◌<◌, ◌≤◌, length, get_or};
ghost use Rattle.volume.specs.Lists.{all, count_from};
ghost use Rattle.model.specs.Layout.{page_count};
ghost use Rattle.model.specs.Entry.{is_locked, name_at, date_at};
ghost use Rattle.fields.specs.Read.{entry_of, Small};
ghost use Rattle.moves.specs.Tidy.{place_of, accepted, owner_entry};
ghost use Rattle.proposals.specs.Steps.{Judged, takes, link_leads, leads_on};

use fields::{Entry, Page};

// The new place of a page; 0 for a number that is no page's.
pub fn new_place(places: &[u8], page: u8) -> u8
    ensures { result ≡ place_of places.now page }
{
    places.get(usize::from(page)).copied().unwrap_or(0)
}

// The entry of the file or directory that owns a page. No entry lies at position 0, which stands for nobody.
pub fn owner_entry(image: &[u8], owners: &[usize], page: Page) -> Entry
    requires { Judged image.now owners.now × (1 ≤ page.0) × (page.0 < page_count image.now) }
    ensures { (entry_of result (is_locked image.now (get_or owners.now page.0 0)) (name_at image.now (get_or owners.now page.0 0))
        (date_at image.now (get_or owners.now page.0 0)) ≡ owner_entry image.now page.0) × Small result }
{
    let p = page.0;
    let at = owners[p];
    if at == 0 {
        return Entry::Vacant;
    }
    fields::entry_at(image, at)
}

// ---- the check

// Each number is below the length of `seen` and is met for the first time.
fn takes_places(places: &[u8], seen: &mut [u8]) -> bool
    ensures { result ≡ takes places.now seen.old }
{
    for place in places {
        let q = usize::from(*place);
        if q >= seen.len() {
            return false;
        }
        if seen[q] != 0 {
            return false;
        }
        seen[q] = 1;
    }
    true
}

// The page is the last of its chain, or its link leads to the next number.
fn link_leads_on(image: &[u8], places: &[u8], page: Page) -> bool
    requires { (page.0 < page_count image.now) × (length places.now ≡ page_count image.now) }
    ensures { result ≡ link_leads image.now places.now page.0 }
{
    let p = page.0;
    let link = fields::link(image, page);
    let next = link.0;
    if next == 0 {
        return true;
    }
    if next >= places.len() {
        return false;
    }
    usize::from(places[next]) == usize::from(places[p]) + 1
}

// The same of a file's page alone.
fn leads_on(image: &[u8], owners: &[usize], places: &[u8], page: Page) -> bool
    requires { Judged image.now owners.now × (1 ≤ page.0) × (page.0 < page_count image.now) × (length places.now ≡ page_count image.now) }
    ensures { result ≡ leads_on image.now places.now page.0 }
{
    match owner_entry(image, owners, page) {
        Entry::Vacant => true,
        Entry::File(start, size) => link_leads_on(image, places, page),
        Entry::Directory(start, size) => true,
    }
}

fn all_lead_on(image: &[u8], owners: &[usize], places: &[u8]) -> bool
    requires { Judged image.now owners.now × (length places.now ≡ page_count image.now) }
    ensures { result ≡ all (leads_on image.now places.now) (count_from 1 (page_count image.now - 1)) }
{
    for p in 1..places.len() {
        if !leads_on(image, owners, places, Page(p)) {
            return false;
        }
    }
    true
}

// N numbers below N, none of them twice, are all of 0 to N − 1; and by the links of files' pages alone it is seen whether each file's pages are
// neighbours.
#[tactic(auto, using(crate::proofs::Check::not_staying))]
pub fn is_accepted(image: &[u8], owners: &[usize], places: &[u8]) -> bool
    requires { Judged image.now owners.now }
    ensures { result ≡ accepted image.now places.now }
{
    let n = fields::page_count(image.len());
    if places.len() != n {
        return false;
    }
    let mut seen = [0u8; 256];
    if !takes_places(places, &mut seen[..n]) {
        return false;
    }
    if places[0] != 0 {
        return false;
    }
    all_lead_on(image, owners, places)
}
