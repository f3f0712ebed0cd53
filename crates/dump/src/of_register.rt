// The dump of one register, from its own part of the lent words.
ghost use Rattle.std.specs.Prelude.{length};
ghost use Rattle.model.specs.Dump.{dump_bytes};
ghost use Rattle.register.specs.Words.{RegisterWords, RegisterReads};
ghost use Rattle.dump.specs.Outputs.{Holds, Outputs};

use crate::held::Rings;
use crate::output::Output;
use crate::write;
use model::Usable;

// How many bytes the dump has.
pub fn dump_length(part: &[u64], u: Usable) -> usize
    requires { RegisterWords u part.now }
    ensures { RegisterReads u (λ reg. length (dump_bytes reg)) part.now result }
{
    write::dump_length(Rings::of(part, u))
}

// Writes it at the start of an output that is long enough, leaves what lies behind it, and answers how many bytes it has.
pub fn dump(out: &mut [u8], part: &[u64], u: Usable) -> usize
    requires { RegisterWords u part.now × Holds dump_bytes u part.now out.old }
    ensures { Outputs dump_bytes u part.now out.old out.new result }
{
    let mut to = Output { out, at: 0 };
    write::put_dump(&mut to, Rings::of(part, u));
    to.at
}
