// Little-endian numbers in a slice of bytes.
ghost use Rattle.std.specs.Prelude.{◌≡◌, ◌+◌, ◌^◌, ◌<◌, ◌≤◌, min, length};
ghost use Rattle.numbers.specs.Words.{word_at};

// The number of at most eight bytes, the lowest first. A loop, since `copy_from_slice` into eight bytes is a call for the bytes that the end cuts,
// and a function with a call in it keeps fewer of its values in registers.
fn whole_word(s: &[u8]) -> u64
    requires { length s.now ≤ 8 }
    ensures { result ≡ word_at s.now 0 (length s.now) }
{
    let mut word: u64 = 0;
    for &byte in s.iter().rev() {
        word = word * 256 + u64::from(byte);
    }
    word
}

// The number of the n bytes from `at` on, the lowest first. Bytes past the end count as 0, and an n above 8 as 8.
// The first call of `whole_word` is the common one: there a constant n makes it one load.
pub fn word_at(s: &[u8], at: usize, n: usize) -> u64
    ensures { (result ≡ word_at s.now at (min n 8)) × (result < 256 ^ min n 8) }
{
    if s.len() <= at {
        return 0;
    }
    let rest = &s[at..];
    let n = n.min(8);
    if n <= rest.len() {
        whole_word(&rest[..n])
    } else {
        whole_word(rest)
    }
}
