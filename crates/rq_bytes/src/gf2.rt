//! Rows of bits, 64 to a word.
ghost use Rattle.std.specs.Prelude.{◌≡◌, ◌≤◌, length};
ghost use Rattle.rq_standard.specs.Rows.{row_sum};

/// Adds to each word the word at its place in a row that is at least as long.
pub fn add_assign_binary(dest: &mut [u64], src: &[u64])
    requires { length dest.old ≤ length src.now }
    ensures { dest.new ≡ row_sum dest.old src.now }
{
    for i in 0..dest.len() {
        dest[i] ^= src[i];
    }
}
