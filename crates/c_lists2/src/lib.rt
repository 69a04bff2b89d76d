// Many entries of a version 2 directory as C gets them (`zealfs2_c` names the function for C; paper 02 §12). It has no `requires`: whatever the bytes, it
// returns the code of `entries_answer`, puts what that tells into the out array, zeros beside a refusal, and leaves the rows as `entries_after` says.
#![tactic(auto)]

ghost use Rattle.std.specs.Prelude.{◌≡◌, length};
ghost use Rattle.codes.specs.Codes.{code_of};
ghost use Rattle.lists2.specs.Entries.{entries_answer, entries_after};
ghost use Rattle.c_lists2.specs.Outs.{entries_out};

// out: how many entries were told, and how many the directory has.
pub fn entries(image: &[u8], path: &[u8], first: u64, rows: &mut [u8], out: &mut [u64; 2]) -> u64
    ensures value { result ≡ code_of (entries_answer image.now path.now first (length rows.old)) }
    ensures out_after { out.new ≡ entries_out (entries_answer image.now path.now first (length rows.old)) }
    ensures rows_after { rows.new ≡ entries_after image.now path.now first rows.old }
{
    match lists2::entries(image, path, first as usize, rows) {
        Ok(told) => {
            *out = [told.count as u64, told.all as u64];
            0
        }
        Err(r) => {
            *out = [0; 2];
            codes2::code(r)
        }
    }
}
