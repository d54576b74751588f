ghost use Rattle.std.specs.Prelude.{◌↔◌, IsTrue, Contains};

/// Whether a call, counted from 0, is one of the list.
pub fn is_listed(fails: &[u64], call: u64) -> bool
    ensures { IsTrue result ↔ Contains fails.now call }
{
    fails.iter().any(|x| *x == call)
}
