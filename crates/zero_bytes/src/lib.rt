// The first zero byte of eight that are read as one number.
#![tactic(auto)]

ghost use Rattle.std.specs.Prelude.{◌≡◌, length};
ghost use Rattle.format.specs.String.{string};
ghost use Rattle.format.specs.Bytes.{bytes};
ghost use Rattle.zero_bytes.specs.Marks.{zero_marks};

// 128 in each byte that is zero in `w`, and 0 in the others. The low seven bits of a byte and 127 set
// its highest bit unless they are all 0, and no carry leaves the byte.
fn zero_marks(w: u64) -> u64
    ensures { result ≡ zero_marks 8 w }
{
    let low: u64 = 0x7F7F_7F7F_7F7F_7F7F;
    !((w & low) + low | w | low)
}

// Where the first zero byte stands among the eight of `w`, the highest first; 8 if there is none.
pub fn first_zero(w: u64) -> usize
    ensures { result ≡ length (string (bytes 8 w)) }
{
    (u64::leading_zeros(zero_marks(w)) / 8) as usize
}
