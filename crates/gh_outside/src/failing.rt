// Lists of the calls that are to fail.
ghost use Rattle.std.specs.Prelude.{◌↔◌, IsTrue, Contains};

/// Whether a call's number is among these.
pub fn is_listed(failing: &[u32], call: u64) -> bool
    ensures { IsTrue result ↔ Contains failing.now call }
{
    for at in failing {
        if *at as u64 == call {
            return true;
        }
    }
    false
}
