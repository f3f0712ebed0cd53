// Numbers of 64 bits as bytes, the least first. How that is done is said here and nowhere else.
ghost use Rattle.std.specs.Prelude.{◌≡◌, ◌+◌, ◌≤◌, length, take, drop};
ghost use Rattle.model.specs.Dump.{number_of, word_bytes};
ghost use Rattle.runs.specs.Over.{written};

// The number that lies at a byte position. Each byte is named, since it is known to be there; a part of eight would be tested for its length.
pub fn word_at(bytes: &[u8], at: usize) -> u64
    requires { at + 8 ≤ length bytes.now }
    ensures { result ≡ number_of (take 8 (drop at bytes.now)) }
{
    u64::from_le_bytes([
        bytes[at],
        bytes[at + 1],
        bytes[at + 2],
        bytes[at + 3],
        bytes[at + 4],
        bytes[at + 5],
        bytes[at + 6],
        bytes[at + 7],
    ])
}

// Writes a number at a byte position.
pub fn put_word(out: &mut [u8], at: usize, n: u64)
    requires { at + 8 ≤ length out.old }
    ensures { out.new ≡ written at (word_bytes n) out.old }
{
    out[at..at + 8].copy_from_slice(&n.to_le_bytes());
}
