use crate::runs::run_over;
use crate::tests::rack_of;
use dg_run::Status;
use std::test::Fail;

// An array of which each block stands at first on the boundary of its number modulo those in use. It loses boundary 2, then 0, then 3.
const LOSSES: &[u8] = b"array 1024 64 4 32 2
write 0 11
write 2 22
regroup
fail 2 0
fail 2 1
read 2
write 0 33
drop 0 0
regroup
read 2
read 0
write 0 33
write 2 44
read 2
fail 2 0
replace 2 0
rebuild 2 1
save
lostfiles
fail 0 0
fail 0 1
regroup
read 2
read 0
mend 3 1
fail 3 0
fail 3 1
regroup
read 2
";

const REPLIES: &[u8] = b"ok
ok
ok
whole
ok
ok
unavailable
degraded
not parity
regrouped 1 1
unavailable
data 11
ok
ok
data 44
already
lost 2
lost 2
not saved
not settled
ok
ok
regrouped 1 1
data 44
unavailable
not parity
ok
ok
too few
unavailable
";

#[test]
fn an_array_goes_on_without_lost_boundaries(rt: HostRuntime) -> Result<(), Fail> {
    let alloc = rt.alloc();
    let mut rack = rack_of(alloc, &[])?;
    let (status, output) = run_over(alloc, "replay", LOSSES, &mut rack)?;
    assert!(rt; status == Status::Done);
    assert!(rt; output.as_slice() == REPLIES);
    Ok(())
}
