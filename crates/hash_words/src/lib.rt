// The hash of a name eight bytes at a time. A word has eight bytes of a name, the first one highest;
// what each function answers is what the definition's plain loop, one byte after the other, comes
// to.
#![tactic(auto)]

ghost use Rattle.std.specs.Prelude.{◌≡◌, map, ◌%◌, ◌^◌, ◌<◌, take};
ghost use Rattle.format.specs.String.{signed, hash_from};
ghost use Rattle.format.specs.Bytes.{bytes};
ghost use Rattle.hash_words.specs.Sums.{sum_of, plain};

// The hash of the bytes as they stand, without the modulus: first of each pair of bytes, 31 times the
// high one and the low one, then of each pair of those, then of the two that are left. A pair
// 256 h + l becomes 31 h + l where 225 h is taken away: 225 is 2^8 - 31, 64575 is 2^16 - 31^2, and
// 4294043775 is 2^32 - 31^4.
fn sum(w: u64) -> u64
    ensures { result ≡ sum_of plain 8 w }
{
    let high = w >> 8 & 0x00FF_00FF_00FF_00FF;
    let pairs = w - 225 * high;
    let high_pairs = pairs >> 16 & 0x0000_FFFF_0000_FFFF;
    let fours = pairs - 64575 * high_pairs;
    fours - 4294043775 * (fours >> 32)
}

// The hash of the bytes as signed numbers, modulo 2^32, as a number below 2^44. With its highest bit
// turned a byte is the signed number and 128; the constant, 848 * 2^32 less the sum of eight bytes
// of 128, takes those away.
fn signed_sum(w: u64) -> u64
    ensures sum { result % 2 ^ 32 ≡ sum_of signed 8 w % 2 ^ 32 }
    ensures small { result < 2 ^ 44 }
{
    sum(w ^ 0x8080_8080_8080_8080) + 3130507264
}

// The hash that goes on from `h` with the eight bytes of `w`.
pub fn eight(h: u32, w: u64) -> u32
    ensures { result ≡ hash_from h (map signed (bytes 8 w)) }
{
    // 31^8 modulo 2^32
    let multiple = h as u64 * 2487512833;
    ((multiple + signed_sum(w)) % 4294967296) as u32
}

// 31^n modulo 2^32.
fn power(n: u64) -> u64
    requires { n < 8 }
    ensures { (result ≡ 31 ^ n % 2 ^ 32) × (result < 2 ^ 31) }
{
    match n {
        0 => 1,
        1 => 31,
        2 => 961,
        3 => 29791,
        4 => 923521,
        5 => 28629151,
        6 => 887503681,
        _ => 1742810335,
    }
}

// The hash that goes on from `h` with the first `n` of the bytes of `w`: those behind them are
// shifted out, in two shifts, as none may be by 64, and the zero bytes that come before them add
// nothing.
pub fn some(h: u32, w: u64, n: u64) -> u32
    requires { n < 8 }
    ensures { result ≡ hash_from h (map signed (take n (bytes 8 w))) }
{
    let front = w >> (56 - 8 * n) >> 8;
    let multiple = h as u64 * power(n);
    ((multiple + signed_sum(front)) % 4294967296) as u32
}
