// Reads the lines, and the call of a line.
ghost use Rattle.std.specs.Iterator.{IsFinite};

use std::io;
use std::io::{BufRead, Read};

// The bytes of a line that are read at most, its end among them: a longer one brings 400,000 bytes or more.
const LONGEST: u64 = 1638400;

// A call: its code, its arguments, of which those that are not given are 0, and the bytes that it brings. No call has more than 64
// arguments: so they are an array and no `Vec`.
#[derive(Clone, Copy)]
pub struct Call<'a> {
    pub code: u64,
    pub arguments: [u64; 64],
    pub bytes: &'a [u8],
}

// Reads the next line into `text`, without its end, and returns whether there is one. A line that is too long is passed over, and becomes
// an empty one, which is no call.
pub(crate) fn next(input: &mut impl BufRead, text: &mut Vec<u8>) -> io::Result<bool> {
    text.clear();
    let read = input.by_ref().take(LONGEST).read_until(b'\n', text)?;
    if text.last() == Some(&b'\n') {
        text.pop();
    } else if read as u64 == LONGEST {
        input.skip_until(b'\n')?;
        text.clear();
    }
    Ok(0 < read)
}

// Reads the call of a line, whose bytes go into `bytes`: none where a part is no number, where numbers are missing, or where there is no
// room for them. A blank may stand behind the last number. Not by `parse`, which reads `+5` too: that is no number here.
pub(crate) fn read<'a>(text: &[u8], bytes: &'a mut Vec<u8>) -> Option<Call<'a>> {
    let text = text.strip_suffix(b" ").unwrap_or(text);
    let mut numbers = text.split(|b| *b == b' ').map(decimals::read);
    let code = numbers.next()??;
    let count = numbers.next()??;
    let mut arguments = [0; 64];
    for argument in arguments.get_mut(..count as usize)? {
        *argument = numbers.next()??;
    }
    read_bytes(numbers, bytes)?;
    Some(Call {
        code,
        arguments,
        bytes,
    })
}

// Reads bytes into `bytes`, which never grows: none where a number is no byte, or where there is no room for it.
fn read_bytes<I: Iterator<Item = Option<u64>> + Drop>(numbers: I, bytes: &mut Vec<u8>) -> Option<()>
    requires can { I.can_next numbers }
    requires finite { IsFinite (I.remaining numbers) }
{
    bytes.clear();
    for n in numbers {
        if bytes.len() == bytes.capacity() {
            return None;
        }
        bytes.push(u8::try_from(n?).ok()?).ok()?;
    }
    Some(())
}
