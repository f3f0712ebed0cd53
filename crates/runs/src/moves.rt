// Words moved within a run.
ghost use Rattle.std.specs.Prelude.{◌-◌, ◌≤◌, ◌≡◌, ◌++◌, length, drop, replicate};

// The first d words go, the others close up, and the last d words become 0. A function of its own: a move and a fill in one, which each
// caller would repeat.
pub fn close_up(words: &mut [u64], d: usize)
    requires { d ≤ length words.old }
    ensures { words.new ≡ drop d words.old ++ replicate d 0 }
{
    words.copy_within(d.., 0);
    let kept = words.len() - d;
    words[kept..].fill(0);
}
