// The event `ls`, on the volume of the tests of `cat`.
use crate::cat_tests::{call_behind, calls_from, cut_after, first_call, image, replies};
use std::test::Fail;
use ufs_samples::Which;

// The listing of the root.
const ROOT: &str = "entry 2 d 512 .
entry 2 d 512 ..
entry 3 r 5 a
entry 4 d 512 d
entry 6 r 0 z
entry 7 r 5596 h
end 6
";

// The path `/` takes three calls. Its directory takes one the first time, and then twice one and one more for each of six
// entries.
#[test]
fn a_rack_that_fails_from_a_call_on_cuts_a_listing(rt: HostRuntime) -> Result<(), Fail> {
    let alloc = rt.alloc();
    let volume = image(alloc, Which::F)?;
    let first = first_call(alloc, &volume)?;
    for passed in [0, 2, 3, 4, 10] {
        let fails = calls_from(alloc, call_behind(first, passed))?;
        let answer = replies(alloc, &volume, "ls /\n", &fails)?;
        assert!(rt;
            answer.as_slice() == b"unavailable\n".as_slice(),
            "{passed}"
        );
    }
    for (passed, lines) in [(11, 0), (12, 0), (13, 1), (15, 3), (17, 5)] {
        let fails = calls_from(alloc, call_behind(first, passed))?;
        let answer = replies(alloc, &volume, "ls /\n", &fails)?;
        let wanted = cut_after(alloc, ROOT.as_bytes(), lines, lines)?;
        assert!(rt; answer == wanted, "{passed}");
    }
    let fails = calls_from(alloc, call_behind(first, 18))?;
    let answer = replies(alloc, &volume, "ls /\n", &fails)?;
    assert!(rt; answer.as_slice() == ROOT.as_bytes());
    Ok(())
}
