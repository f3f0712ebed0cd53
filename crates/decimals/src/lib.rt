// Decimal numbers below 2^64: read from a text, and written into one.
#![tactic(auto)]

ghost use Rattle.std.specs.Prelude.{◌≡◌, ◌+◌, ◌≤◌, ◌<◌, length};
ghost use Rattle.decimals.specs.Texts.{with_digit, number_of, last_digit, text_of, with_text};

// Reads the number that a text names: none where the text is empty or a byte is no digit, or where 64 bits do not hold the number.
pub fn read(text: &[u8]) -> Option<u64>
    ensures { result ≡ number_of text.now }
{
    if text.is_empty() {
        return None;
    }
    let mut n = 0;
    for b in text {
        n = joined(n, *b)?;
    }
    Some(n)
}

// Returns a number with one more digit behind it.
fn joined(n: u64, b: u8) -> Option<u64>
    ensures { result ≡ with_digit (Some n) b }
{
    if !b.is_ascii_digit() {
        return None;
    }
    n.checked_mul(10)?.checked_add(u64::from(b - b'0'))
}

// Writes a number into `out` from a place on, and returns the place behind it. Every other byte stays as it was. A place and no rest of
// the output: so one number is written behind another, and no caller adds lengths.
#[tactic(auto, using(crate::proofs::ReadBack::twenty_at_most, crate::proofs::ReadBack::not_empty))]
pub fn write(n: u64, out: &mut [u8], at: usize) -> usize
    requires { at + 20 ≤ length out.old }
    ensures value { (result ≡ at + length (text_of n)) × (out.new ≡ with_text at (text_of n) out.old) }
    ensures lower_bound { (at < result) × (result ≤ at + 20) }
{
    put(n, out, at)
}

// The same where there is room for this number: first the digits before the last one, by itself, then the last one.
#[tactic(auto, using(crate::proofs::Writing::length_short, crate::proofs::Writing::length_long, crate::proofs::Writing::put_one, crate::proofs::Writing::put_more))]
fn put(n: u64, out: &mut [u8], at: usize) -> usize
    requires { at + length (text_of n) ≤ length out.old }
    ensures { (result ≡ at + length (text_of n)) × (out.new ≡ with_text at (text_of n) out.old) }
{
    if n < 10 {
        out[at] = digit(n);
        return at + 1;
    }
    let end = put(n / 10, out, at);
    out[end] = digit(n);
    end + 1
}

// Returns the last digit of a number.
fn digit(n: u64) -> u8
    ensures { result ≡ last_digit n }
{
    b'0' + (n % 10) as u8
}
