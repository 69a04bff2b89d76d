// A second judge of an image (02 §8). It keeps the directories still to be visited and a row of owners, one a page, and shares no walk with
// `judge`: only the readers of fields, names and bits are the same. What entries claim is in `claims`, and the marks are asked in `agreement`.
// No function changes the image. The one public function has no `requires`: it says of any bytes whether they are a sound image.
#![tactic(auto)]

ghost use Rattle.std.specs.Prelude.{◌≡◌, ◌+◌, ◌≤◌, [], ◌∷◌, length, Some, None};
ghost use Rattle.std.specs.Prelude.{if◌then◌else◌};
ghost use Rattle.model.specs.Layout.{page_count};
ghost use Rattle.model.specs.Sound.{sound};
ghost use Rattle.claims.specs.Lent.{outcome, Row};
ghost use Rattle.audit.specs.Owner.{owner_numbers};
ghost use Rattle.audit.specs.Visit.{free, visit, concluded, first_row};

use fields::Page;

// The directories are visited in the order in which they are found. A directory that is found has claimed its page, so there are never more
// of them than pages.
fn visit_directories(image: &[u8], row: &mut [usize], list: &mut [usize]) -> bool
    requires { Row image.now row.old × (1 + free row.old ≤ length row.old) × (256 ≤ length list.old) }
    ensures { outcome result row.new ≡ visit (page_count image.now) image.now (0 ∷ []) row.old }
{
    list[0] = 0;
    let mut found = 1;
    let mut done = 0;
    while done < found {
        let directory = Page(list[done]);
        if !claims::claim_entries(image, row, directory) {
            return false;
        }
        found = claims::push_directories(image, list, found, directory);
        done += 1;
    }
    true
}

// The visit, and what comes after it. The header has page 0 from the start.
fn audit_row(image: &[u8], row: &mut [usize]) -> bool
    requires { Row image.now row.old × (row.old ≡ first_row (page_count image.now)) × (8 ≤ page_count image.now) }
    ensures { outcome result row.new ≡ concluded image.now (visit (page_count image.now) image.now (0 ∷ []) (first_row (page_count image.now))) }
{
    let mut list = [0usize; 256];
    if !visit_directories(image, row, &mut list) {
        return false;
    }
    agreement::is_marked(image, row)
}

// Who owns each page, if any bytes are a sound image: 0 nobody, 1 the header, else the position of the owner's entry.
pub fn audit(image: &[u8]) -> Option<[usize; 256]>
    ensures { result ≡ (if sound image.now then Some (owner_numbers image.now) else None) }
{
    if !fields::length_is_allowed(image.len()) {
        return None;
    }
    if !fields::header_is_right(image) {
        return None;
    }
    let n = fields::page_count(image.len());
    let mut row = [0usize; 256];
    row[0] = 1;
    if !audit_row(image, &mut row[..n]) {
        return None;
    }
    Some(row)
}
