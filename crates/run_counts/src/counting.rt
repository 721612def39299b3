//! One more.
ghost use Rattle.std.specs.Prelude.{◌≡◌, ◌<◌, true, length};
ghost use Rattle.run_counts.specs.Tallies.{IsOneMore, HasRoom};

/// Counts one more at a place, where it is to be counted.
pub(crate) fn count_if(counts: &mut [u64], place: usize, is: bool)
    requires place { place < length counts.old }
    requires room { HasRoom counts.old place }
    ensures counted { IsOneMore is place counts.old counts.new }
    ensures long { length counts.new ≡ length counts.old }
{
    if is {
        counts[place] += 1;
    }
}

/// Counts one more of a byte.
pub(crate) fn count_byte(counts: &mut [u64; 256], byte: u8)
    requires room { HasRoom counts.old byte }
    ensures { IsOneMore true byte counts.old counts.new }
{
    counts[byte as usize] += 1;
}
