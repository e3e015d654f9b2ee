//! Cutting into parts of nearly one size.
ghost use Rattle.std.specs.Prelude.{◌≡◌, ◌+◌, ◌*◌, ◌<◌, ◌≤◌};
ghost use Rattle.rq_standard.specs.Partition.{parts_of};

/// Cuts `i` things into `j` parts (RFC 6330, 4.4.1.2): answers the size of the larger parts, the
/// size of the smaller ones, how many larger ones there are and how many smaller ones.
pub fn partition(i: u32, j: u32) -> (u32, u32, u32, u32)
    requires { 0 < j }
    ensures value { let p = parts_of i j in result ≡ (p.larger, p.smaller, p.larger_count, p.smaller_count) }
    ensures whole { result.0 * result.2 + result.1 * result.3 ≡ i }
    ensures parts { result.2 + result.3 ≡ j }
    ensures close { result.0 ≤ result.1 + 1 }
{
    let larger = i.div_ceil(j);
    let smaller = i / j;
    let larger_count = i - smaller * j;
    (larger, smaller, larger_count, j - larger_count)
}
