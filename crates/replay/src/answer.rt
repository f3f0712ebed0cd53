// Writes an answer as a line of numbers.
use book::totals::Totals;
use model::{Reason, Refusal, Verdict};
use numbers::codes;
use register::heading::SweptTo;
use std::alloc::{AllocError, Global};
use std::io;
use strikes::Restored;

// What a call that goes through gives.
pub trait Given {
    // Puts its out numbers behind those of a line.
    fn put_on(&self, line: &mut Line) -> Result<(), AllocError>;
}

impl Given for () {
    fn put_on(&self, _line: &mut Line) -> Result<(), AllocError> {
        Ok(())
    }
}

impl Given for bool {
    fn put_on(&self, line: &mut Line) -> Result<(), AllocError> {
        line.put(u64::from(*self))
    }
}

// Numbers, by themselves: one impl over `Into<u64>` would take in Reason, which is told by three.
impl Given for u64 {
    fn put_on(&self, line: &mut Line) -> Result<(), AllocError> {
        line.put(*self)
    }
}

impl Given for usize {
    fn put_on(&self, line: &mut Line) -> Result<(), AllocError> {
        line.put(*self as u64)
    }
}

impl Given for Option<u64> {
    fn put_on(&self, line: &mut Line) -> Result<(), AllocError> {
        line.put_all(&[u64::from(self.is_some()), self.unwrap_or(0)])
    }
}

impl Given for Verdict {
    fn put_on(&self, line: &mut Line) -> Result<(), AllocError> {
        line.put(u64::from(*self))
    }
}

impl Given for Reason {
    fn put_on(&self, line: &mut Line) -> Result<(), AllocError> {
        line.put(u64::from(*self))?;
        line.put(codes::reason_class(*self))?;
        Verdict::from(*self).put_on(line)
    }
}

impl Given for Restored {
    fn put_on(&self, line: &mut Line) -> Result<(), AllocError> {
        match self {
            Restored::Whole(read) => line.put_all(&[1, *read]),
            Restored::Partly(read) => line.put_all(&[0, *read]),
        }
    }
}

impl Given for SweptTo {
    fn put_on(&self, line: &mut Line) -> Result<(), AllocError> {
        line.put_all(&[self.bucket.0, self.published.0])
    }
}

impl Given for Totals {
    fn put_on(&self, line: &mut Line) -> Result<(), AllocError> {
        line.put_all(&[self.entries, self.holders, self.units, self.expired])
    }
}

// The text of a line, without its end.
#[derive(Drop)]
pub struct Line {
    text: Vec<u8>,
}

impl Line {
    // The line of a line that is no call.
    pub(crate) fn unread(alloc: Global) -> Result<Line, AllocError> {
        Ok(Line {
            text: Vec::from_slice(alloc, b"unread")?,
        })
    }

    // The line of an answer: 0 and the out numbers, or the number of the refusal.
    pub(crate) fn told<T: Given + Drop>(
        alloc: Global,
        answer: Result<T, Refusal>,
    ) -> Result<Line, AllocError> {
        let mut line = Line {
            text: Vec::new(alloc),
        };
        match answer {
            Ok(given) => {
                line.put(0)?;
                given.put_on(&mut line)?;
            }
            Err(refusal) => line.put(u64::from(refusal))?,
        }
        Ok(line)
    }

    // The line of an answer, and behind it what the call wrote: of a dump its bytes, and of a view its words.
    pub(crate) fn told_with<T: Copy + Into<u64>>(
        alloc: Global,
        answer: Result<usize, Refusal>,
        out: &[T],
    ) -> Result<Line, AllocError> {
        let mut line = Line::told(alloc, answer)?;
        if let Ok(n) = answer {
            line.put_all(&out[..out.len().min(n)])?;
        }
        Ok(line)
    }

    // Puts a number behind the others, with a blank between them. Not by `write!`: what decimals::write writes is proved to be what
    // decimals::read reads. The digits are an array and no `Vec`, which would need an allocator and an error for none: no number has more.
    fn put(&mut self, n: u64) -> Result<(), AllocError> {
        if !self.text.is_empty() {
            self.text.push(b' ')?;
        }
        let mut digits = [0; 20];
        let end = decimals::write(n, &mut digits, 0);
        self.text.extend_from_slice(&digits[..end])
    }

    // Puts numbers behind the others.
    fn put_all<T: Copy + Into<u64>>(&mut self, numbers: &[T]) -> Result<(), AllocError> {
        for n in numbers {
            self.put((*n).into())?;
        }
        Ok(())
    }

    // Writes the line, and its end.
    pub(crate) fn write(self, rt: &impl Print) -> io::Result<()> {
        let mut text = self.text;
        text.push(b'\n')?;
        rt.write_all(&text)
    }
}
