// The names of a directory's entries differ (01, "A sound image"): a name is legal, and no earlier entry's.
// No function changes the image.
#![tactic(auto)]

ghost use Rattle.std.specs.Prelude.{◌≡◌, ◌≤◌, ◌<◌};
ghost use Rattle.volume.specs.Bytes.{byte_at};
ghost use Rattle.model.specs.Layout.{page_count};
ghost use Rattle.model.specs.Entry.{entry_count, name_at};
ghost use Rattle.model.specs.Version1.{view};
ghost use Rattle.model.specs.Judge.{fresh_name};
ghost use Rattle.fresh.specs.Earlier.{position, earlier};

use fields::Page;

// The name of entry i, which is occupied, is legal, and no earlier entry of the directory has it. The model has the earlier ones
// from the last to the first, so the loop runs down.
pub fn name_is_fresh(image: &[u8], directory: Page, i: usize) -> bool
    requires { (directory.0 < page_count image.now) × (i < entry_count directory.0) × (1 ≤ byte_at image.now (position directory.0 i)) }
    ensures { result ≡ fresh_name (view image.now) (earlier directory.0 i) (name_at image.now (position directory.0 i)) }
{
    let at = fields::entry_position(directory, i);
    if !names::name_is_legal(image, at) {
        return false;
    }
    for j in (0..i).rev() {
        if names::has_name_of(image, fields::entry_position(directory, j), at) {
            return false;
        }
    }
    true
}
