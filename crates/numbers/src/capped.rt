// Division that rounds up, total for all arguments.
ghost use Rattle.std.specs.Prelude.{◌≡◌};
ghost use Rattle.model.specs.Numbers.{ceil};

// n / d rounded up, and 0 where d is 0, for which `div_ceil` has no answer.
#[tactic(auto, using(crate::proofs::Arithmetic::ceil_by_zero, crate::proofs::Arithmetic::ceil_is))]
pub fn ceil_div(n: u64, d: u64) -> u64
    ensures { result ≡ ceil n d }
{
    if d == 0 { 0 } else { n.div_ceil(d) }
}
