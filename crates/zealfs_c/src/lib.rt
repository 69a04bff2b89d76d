// The calls of `zealfs` for C, one function for each; include/zealfs.h declares them. None has a `requires`: whatever the bytes, a function
// returns the code of the model's `answer`, puts what the answer tells into the out arrays, zeros beside a refusal, and leaves the image and
// the reader's buffer as `after` and `buffer_after` say. To C a slice is a pointer and then a length, and a reference to an array a pointer.
#![tactic(auto)]

ghost use Rattle.std.specs.Prelude.{◌≡◌, true, false, length};
ghost use Rattle.volume.specs.Bytes.{put};
ghost use Rattle.model.specs.Listing.{listing};
ghost use Rattle.model.specs.Sound.{sound};
ghost use Rattle.model.specs.Call.{format, verdict, find, list, read, make_file, make_directory, write, remove_file, remove_directory, set_lock, store};
ghost use Rattle.model.specs.Meaning.{answer, after, buffer_after, copied};
ghost use Rattle.answers.specs.Answers.{find_date, list_name, list_date};
ghost use Rattle.repair.specs.Repair.{repair_answer, repair_after};
ghost use Rattle.audit.specs.Owner.{owner_numbers};
ghost use Rattle.moves.specs.Tidy.{tidy_answer, tidy_after};
ghost use Rattle.moves.specs.Propose.{propose_answer, propose_after};
ghost use Rattle.link_list.specs.Links.{read_links, write_links, find_link, check_links, link_answer, link_after};
ghost use Rattle.link_judge.specs.Judged.{rows_of};
ghost use Rattle.link_looks.specs.Looks.{numbers_after};
ghost use Rattle.codes.specs.Codes.{code_of};
ghost use Rattle.link_codes.specs.Codes.{link_code_of};
ghost use Rattle.codes.specs.Outs.{sound_number, verdict_out, find_out, list_out, number_out, figure_out};

// ---- the calls

#[unsafe(no_mangle)]
pub extern "C" fn zealfs_format(image: &mut [u8]) -> u64
    ensures value { result ≡ code_of (answer format image.old) }
    ensures image_after { image.new ≡ after format image.old }
{
    c_changes::format(image)
}

// out: the pages, the free number.
#[unsafe(no_mangle)]
pub extern "C" fn zealfs_verdict(image: &[u8], out: &mut [u64; 2]) -> u64
    ensures value { result ≡ code_of (answer verdict image.now) }
    ensures out_after { out.new ≡ verdict_out (answer verdict image.now) }
{
    c_looks::verdict(image, out)
}

// out: the kind (0 a file, 1 a directory), the size, 1 if it is locked.
#[unsafe(no_mangle)]
pub extern "C" fn zealfs_find(
    image: &[u8],
    path: &[u8],
    out: &mut [u64; 3],
    date: &mut [u8; 8],
) -> u64
    ensures value { result ≡ code_of (answer (find path.now) image.now) }
    ensures out_after { out.new ≡ find_out (answer (find path.now) image.now) }
    ensures date_after { date.new ≡ find_date (answer (find path.now) image.now) }
{
    c_looks::find(image, path, out, date)
}

// out: 1 if the entry is occupied, its kind (0 a file, 1 a directory), its size, 1 if it is locked. All are 0 for an empty one.
#[unsafe(no_mangle)]
pub extern "C" fn zealfs_list(
    image: &[u8],
    path: &[u8],
    entry: u64,
    out: &mut [u64; 4],
    name: &mut [u8; 16],
    date: &mut [u8; 8],
) -> u64
    ensures value { result ≡ code_of (answer (list path.now entry) image.now) }
    ensures out_after { out.new ≡ list_out (answer (list path.now entry) image.now) }
    ensures name_after { name.new ≡ list_name (answer (list path.now entry) image.now) }
    ensures date_after { date.new ≡ list_date (answer (list path.now entry) image.now) }
{
    c_looks::list(image, path, entry, out, name, date)
}

// out: the number of bytes copied.
#[unsafe(no_mangle)]
pub extern "C" fn zealfs_read(
    image: &[u8],
    path: &[u8],
    position: u64,
    buffer: &mut [u8],
    out: &mut [u64; 1],
) -> u64
    ensures value { result ≡ code_of (answer (read path.now position buffer.old) image.now) }
    ensures out_after { out.new ≡ number_out (answer (read path.now position buffer.old) image.now) }
    ensures buffer_after { buffer.new ≡ buffer_after (read path.now position buffer.old) image.now }
{
    c_looks::read(image, path, position, buffer, out)
}

#[unsafe(no_mangle)]
pub extern "C" fn zealfs_make_file(image: &mut [u8], path: &[u8], date: &[u8]) -> u64
    ensures value { result ≡ code_of (answer (make_file path.now date.now) image.old) }
    ensures image_after { image.new ≡ after (make_file path.now date.now) image.old }
{
    c_changes::make_file(image, path, date)
}

#[unsafe(no_mangle)]
pub extern "C" fn zealfs_make_directory(image: &mut [u8], path: &[u8], date: &[u8]) -> u64
    ensures value { result ≡ code_of (answer (make_directory path.now date.now) image.old) }
    ensures image_after { image.new ≡ after (make_directory path.now date.now) image.old }
{
    c_changes::make_directory(image, path, date)
}

#[unsafe(no_mangle)]
pub extern "C" fn zealfs_write(image: &mut [u8], path: &[u8], position: u64, bytes: &[u8]) -> u64
    ensures value { result ≡ code_of (answer (write path.now position bytes.now) image.old) }
    ensures image_after { image.new ≡ after (write path.now position bytes.now) image.old }
{
    c_changes::write(image, path, position, bytes)
}

#[unsafe(no_mangle)]
pub extern "C" fn zealfs_remove_file(image: &mut [u8], path: &[u8]) -> u64
    ensures value { result ≡ code_of (answer (remove_file path.now) image.old) }
    ensures image_after { image.new ≡ after (remove_file path.now) image.old }
{
    c_changes::remove_file(image, path)
}

#[unsafe(no_mangle)]
pub extern "C" fn zealfs_remove_directory(image: &mut [u8], path: &[u8]) -> u64
    ensures value { result ≡ code_of (answer (remove_directory path.now) image.old) }
    ensures image_after { image.new ≡ after (remove_directory path.now) image.old }
{
    c_changes::remove_directory(image, path)
}

#[unsafe(no_mangle)]
pub extern "C" fn zealfs_lock(image: &mut [u8], path: &[u8]) -> u64
    ensures value { result ≡ code_of (answer (set_lock true path.now) image.old) }
    ensures image_after { image.new ≡ after (set_lock true path.now) image.old }
{
    c_changes::lock(image, path)
}

#[unsafe(no_mangle)]
pub extern "C" fn zealfs_unlock(image: &mut [u8], path: &[u8]) -> u64
    ensures value { result ≡ code_of (answer (set_lock false path.now) image.old) }
    ensures image_after { image.new ≡ after (set_lock false path.now) image.old }
{
    c_changes::unlock(image, path)
}

// ---- calls outside the lists of demand 3

// Wins back lost pages (02 §7).
#[unsafe(no_mangle)]
pub extern "C" fn zealfs_repair(image: &mut [u8]) -> u64
    ensures value { result ≡ code_of (repair_answer image.old) }
    ensures image_after { image.new ≡ repair_after image.old }
{
    c_requests::repair(image)
}

// The second judge (02 §8): 1 if the image is sound, and who owns each page: 0 nobody, 1 the header, else where the owner's entry begins.
#[unsafe(no_mangle)]
pub extern "C" fn zealfs_audit(image: &[u8], owners: &mut [u64; 256]) -> u64
    ensures value { result ≡ sound_number (sound image.now) }
    ensures owners_after { owners.new ≡ owner_numbers image.now }
{
    c_requests::audit(image, owners)
}

// out: the page's number.
#[unsafe(no_mangle)]
pub extern "C" fn zealfs_store(
    image: &[u8],
    path: &[u8],
    date: &[u8],
    bytes: &[u8],
    number: u64,
    page: &mut [u8],
    out: &mut [u64; 1],
) -> u64
    ensures value { result ≡ code_of (answer (store path.now date.now bytes.now number page.old) image.now) }
    ensures out_after { out.new ≡ number_out (answer (store path.now date.now bytes.now number page.old) image.now) }
    ensures page_after { page.new ≡ buffer_after (store path.now date.now bytes.now number page.old) image.now }
{
    c_requests::store(image, path, date, bytes, number, page, out)
}

// The bytes of the listing from byte `from` on, as many as there are and as the buffer has room for; the result is how many. An image that is not
// sound has a listing too, which says so, and so this is never refused.
#[unsafe(no_mangle)]
pub extern "C" fn zealfs_listing(image: &[u8], from: u64, buffer: &mut [u8]) -> u64
    ensures value { result ≡ length (copied (listing image.now) from buffer.old) }
    ensures buffer_after { buffer.new ≡ put 0 (copied (listing image.now) from buffer.old) buffer.old }
{
    c_requests::listing(image, from, buffer)
}

// A proposal for `zealfs_tidy` (02 §13): places[p] is the new place of page p.
#[unsafe(no_mangle)]
pub extern "C" fn zealfs_propose(image: &[u8], places: &mut [u8]) -> u64
    ensures value { result ≡ code_of (propose_answer image.now places.old) }
    ensures places_after { places.new ≡ propose_after image.now places.old }
{
    c_requests::propose(image, places)
}

// Writes the image to the target with its pages where the proposal puts them (02 §13).
#[unsafe(no_mangle)]
pub extern "C" fn zealfs_tidy(image: &[u8], places: &[u8], target: &mut [u8]) -> u64
    ensures value { result ≡ code_of (tidy_answer image.now places.now target.old) }
    ensures target_after { target.new ≡ tidy_after image.now places.now target.old }
{
    c_requests::tidy(image, places, target)
}

// ---- the link list of a directory (02 §4), numbers for rows, three each: the accession's count of digits, its value, the figure

// Reads the rows to the front of the numbers. out: how many rows.
#[unsafe(no_mangle)]
pub extern "C" fn zealfs_links_read(
    image: &[u8],
    directory: &[u8],
    numbers: &mut [u64],
    out: &mut [u64; 1],
) -> u64
    ensures value { result ≡ link_code_of (link_answer (read_links directory.now (rows_of numbers.old)) image.now) }
    ensures out_after { out.new ≡ number_out (link_answer (read_links directory.now (rows_of numbers.old)) image.now) }
    ensures numbers_after { numbers.new ≡ numbers_after directory.now image.now numbers.old }
{
    c_links::read(image, directory, numbers, out)
}

// Writes the rows in the place of any that were there, with a new date.
#[unsafe(no_mangle)]
pub extern "C" fn zealfs_links_write(
    image: &mut [u8],
    directory: &[u8],
    date: &[u8],
    numbers: &[u64],
) -> u64
    ensures value { result ≡ link_code_of (link_answer (write_links directory.now date.now (rows_of numbers.now)) image.old) }
    ensures image_after { image.new ≡ link_after (write_links directory.now date.now (rows_of numbers.now)) image.old }
{
    c_links::write(image, directory, date, numbers)
}

// out: 1 if the accession has a row, its figure.
#[unsafe(no_mangle)]
pub extern "C" fn zealfs_links_find(
    image: &[u8],
    directory: &[u8],
    count: u64,
    value: u64,
    out: &mut [u64; 2],
) -> u64
    ensures value { result ≡ link_code_of (link_answer (find_link directory.now count value) image.now) }
    ensures out_after { out.new ≡ figure_out (link_answer (find_link directory.now count value) image.now) }
{
    c_links::find(image, directory, count, value, out)
}

// Checks that every row names a file of the directory.
#[unsafe(no_mangle)]
pub extern "C" fn zealfs_links_check(image: &[u8], directory: &[u8]) -> u64
    ensures { result ≡ link_code_of (link_answer (check_links directory.now) image.now) }
{
    c_links::check(image, directory)
}
