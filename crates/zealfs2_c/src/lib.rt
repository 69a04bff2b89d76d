// The calls of version 2 for C, one function for each (paper 02 §12); include/zealfs.h declares them. None has a `requires`: whatever the bytes, a function returns
// the code of the model's `answer`, puts what the answer tells into the out arrays, zeros beside a refusal, and leaves the image and the reader's buffer as `after`
// and `buffer_after` say. To C a slice is a pointer and then a length, and a reference to an array a pointer.
#![tactic(auto)]

ghost use Rattle.std.specs.Prelude.{◌≡◌, true, false, length};
ghost use Rattle.model.specs.Call.{format_as, verdict, find, list, read, make_file, make_directory, write, remove_file, remove_directory, set_lock};
ghost use Rattle.model.specs.MeaningOf.{answer, after, buffer_after};
ghost use Rattle.arrivals.specs.Beside.{find_date, list_name, list_date};
ghost use Rattle.model2.specs.Calls.{v2};
ghost use Rattle.codes.specs.Codes.{code_of};
ghost use Rattle.codes.specs.Outs.{verdict_out, find_out, list_out, number_out};
ghost use Rattle.lists2.specs.Entries.{entries_answer, entries_after};
ghost use Rattle.c_lists2.specs.Outs.{entries_out};

// code: 0, 1 or 2 for pages of 256, 512 or 1,024 bytes.
#[unsafe(no_mangle)]
pub extern "C" fn zealfs2_format(image: &mut [u8], code: u64) -> u64
    ensures value { result ≡ code_of (answer v2 (format_as code) image.old) }
    ensures image_after { image.new ≡ after v2 (format_as code) image.old }
{
    c_changes2::format(image, code)
}

// out: the pages, the free number; a page's size is the image's length divided by the pages.
#[unsafe(no_mangle)]
pub extern "C" fn zealfs2_verdict(image: &[u8], out: &mut [u64; 2]) -> u64
    ensures value { result ≡ code_of (answer v2 verdict image.now) }
    ensures out_after { out.new ≡ verdict_out (answer v2 verdict image.now) }
{
    c_looks2::verdict(image, out)
}

// out: the kind (0 a file, 1 a directory), the size, a directory's being that of a page, 1 if it is locked.
#[unsafe(no_mangle)]
pub extern "C" fn zealfs2_find(
    image: &[u8],
    path: &[u8],
    out: &mut [u64; 3],
    date: &mut [u8; 8],
) -> u64
    ensures value { result ≡ code_of (answer v2 (find path.now) image.now) }
    ensures out_after { out.new ≡ find_out (answer v2 (find path.now) image.now) }
    ensures date_after { date.new ≡ find_date (answer v2 (find path.now) image.now) }
{
    c_looks2::find(image, path, out, date)
}

// out: 1 if the entry is occupied, its kind (0 a file, 1 a directory), its size, 1 if it is locked. All are 0 for an empty one.
#[unsafe(no_mangle)]
pub extern "C" fn zealfs2_list(
    image: &[u8],
    path: &[u8],
    entry: u64,
    out: &mut [u64; 4],
    name: &mut [u8; 16],
    date: &mut [u8; 8],
) -> u64
    ensures value { result ≡ code_of (answer v2 (list path.now entry) image.now) }
    ensures out_after { out.new ≡ list_out (answer v2 (list path.now entry) image.now) }
    ensures name_after { name.new ≡ list_name (answer v2 (list path.now entry) image.now) }
    ensures date_after { date.new ≡ list_date (answer v2 (list path.now entry) image.now) }
{
    c_looks2::list(image, path, entry, out, name, date)
}

// Entries of a directory from number `first` on, 32 bytes each, as many as there are and as the rows have room for: 0 occupied, 1 kind, 2 locked, 4 to 7 the size,
// 8 to 15 the date, 16 to 31 the name. out: how many were told, and how many the directory has. It is no call of the paper's; each row is what list tells.
#[unsafe(no_mangle)]
pub extern "C" fn zealfs2_entries(
    image: &[u8],
    path: &[u8],
    first: u64,
    rows: &mut [u8],
    out: &mut [u64; 2],
) -> u64
    ensures value { result ≡ code_of (entries_answer image.now path.now first (length rows.old)) }
    ensures out_after { out.new ≡ entries_out (entries_answer image.now path.now first (length rows.old)) }
    ensures rows_after { rows.new ≡ entries_after image.now path.now first rows.old }
{
    c_lists2::entries(image, path, first, rows, out)
}

// out: the number of bytes copied.
#[unsafe(no_mangle)]
pub extern "C" fn zealfs2_read(
    image: &[u8],
    path: &[u8],
    position: u64,
    buffer: &mut [u8],
    out: &mut [u64; 1],
) -> u64
    ensures value { result ≡ code_of (answer v2 (read path.now position buffer.old) image.now) }
    ensures out_after { out.new ≡ number_out (answer v2 (read path.now position buffer.old) image.now) }
    ensures buffer_after { buffer.new ≡ buffer_after v2 (read path.now position buffer.old) image.now }
{
    c_looks2::read(image, path, position, buffer, out)
}

#[unsafe(no_mangle)]
pub extern "C" fn zealfs2_make_file(image: &mut [u8], path: &[u8], date: &[u8]) -> u64
    ensures value { result ≡ code_of (answer v2 (make_file path.now date.now) image.old) }
    ensures image_after { image.new ≡ after v2 (make_file path.now date.now) image.old }
{
    c_changes2::make_file(image, path, date)
}

#[unsafe(no_mangle)]
pub extern "C" fn zealfs2_make_directory(image: &mut [u8], path: &[u8], date: &[u8]) -> u64
    ensures value { result ≡ code_of (answer v2 (make_directory path.now date.now) image.old) }
    ensures image_after { image.new ≡ after v2 (make_directory path.now date.now) image.old }
{
    c_changes2::make_directory(image, path, date)
}

#[unsafe(no_mangle)]
pub extern "C" fn zealfs2_write(image: &mut [u8], path: &[u8], position: u64, bytes: &[u8]) -> u64
    ensures value { result ≡ code_of (answer v2 (write path.now position bytes.now) image.old) }
    ensures image_after { image.new ≡ after v2 (write path.now position bytes.now) image.old }
{
    c_changes2::write(image, path, position, bytes)
}

#[unsafe(no_mangle)]
pub extern "C" fn zealfs2_remove_file(image: &mut [u8], path: &[u8]) -> u64
    ensures value { result ≡ code_of (answer v2 (remove_file path.now) image.old) }
    ensures image_after { image.new ≡ after v2 (remove_file path.now) image.old }
{
    c_changes2::remove_file(image, path)
}

#[unsafe(no_mangle)]
pub extern "C" fn zealfs2_remove_directory(image: &mut [u8], path: &[u8]) -> u64
    ensures value { result ≡ code_of (answer v2 (remove_directory path.now) image.old) }
    ensures image_after { image.new ≡ after v2 (remove_directory path.now) image.old }
{
    c_changes2::remove_directory(image, path)
}

#[unsafe(no_mangle)]
pub extern "C" fn zealfs2_lock(image: &mut [u8], path: &[u8]) -> u64
    ensures value { result ≡ code_of (answer v2 (set_lock true path.now) image.old) }
    ensures image_after { image.new ≡ after v2 (set_lock true path.now) image.old }
{
    c_changes2::lock(image, path)
}

#[unsafe(no_mangle)]
pub extern "C" fn zealfs2_unlock(image: &mut [u8], path: &[u8]) -> u64
    ensures value { result ≡ code_of (answer v2 (set_lock false path.now) image.old) }
    ensures image_after { image.new ≡ after v2 (set_lock false path.now) image.old }
{
    c_changes2::unlock(image, path)
}
