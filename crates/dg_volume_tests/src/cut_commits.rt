// Commits of a volume of which blocks were cut, over a rack that keeps two places for each page: what was cut is so again when the array is opened
// with what was kept. The array has eight blocks on two boundaries, and of these block 3 alone, on boundary 1, is written.
ghost use Rattle.std.specs.Prelude.{IfOk};
ghost use Rattle.dg_stop.specs.StopRacks.{stop_room, stop_words};
ghost use Rattle.dg_volume.specs.Volumes.{any_phase};
ghost use Rattle.dg_volume_tests.specs.Rooms.{HasRoom};

use crate::double_commits::{BEHIND, commits, keep_over, opened};
use crate::even_blocks::read_even;
use dg_io::{CommitAnswer, MemRack, Rack};
use dg_stop::{Opened, StopRack};
use dg_volume::{AnyPhase, OpenAnswer, Phase, Volume, open_kept};
use std::alloc::Global;
use std::process::Abort;
use std::test::Fail;

/// What stands beside the state: members of 21,219 bytes, both boundaries in use, and block 5 as a cut one.
const ONE_CUT: [u8; 20] = [
    0xe3, 0x52, 0, 0, 0, 0, 0, 0, 2, 2, 0, 1, 1, 0, 0, 0, 5, 0, 0, 0,
];

/// The same with the blocks 2 and 5.
const TWO_CUT: [u8; 24] = [
    0xe3, 0x52, 0, 0, 0, 0, 0, 0, 2, 2, 0, 1, 2, 0, 0, 0, 2, 0, 0, 0, 5, 0, 0, 0,
];

/// The array that is opened with such bytes.
fn opened_double<R: Rack + Drop>(
    alloc: Global,
    rack: StopRack<R>,
    beside: &[u8],
) -> Result<Volume<AnyPhase, StopRack<R>>, Fail>
    ensures { IfOk result (HasRoom any_phase (stop_words R.Rack) stop_room) }
{
    let OpenAnswer::Opened(volume, _hot) = open_kept(alloc, rack, beside)? else {
        return Err("opened".into());
    };
    Ok(volume)
}

/// Opens an array with such bytes, whatever stands beside its state, and keeps it as it stands then.
fn commit_with<R: Rack + Drop>(
    alloc: Global,
    rack: R,
    beside: &[u8],
) -> Result<CommitAnswer, Fail> {
    let Opened { rack: double, .. } = StopRack::open(alloc, rack)?;
    let mut volume = opened_double(alloc, double, beside)?;
    commits(alloc, &mut volume)
}

/// Whether just these bytes are kept, and the array that is opened with them is in this phase, has block 3 as it was written, and block 5 as a cut one.
fn is_kept<R: Rack + Drop>(
    alloc: Global,
    rack: R,
    beside: &[u8],
    phase: Phase,
) -> Result<bool, Fail> {
    let Opened {
        rack: double,
        extra: kept,
        ..
    } = StopRack::open(alloc, rack)?;
    let Some(mut volume) = opened(alloc, double, &kept)? else {
        return Ok(false);
    };
    let same = kept.as_slice() == beside && volume.phase() == phase;
    let written = read_even(&mut volume, 3)?;
    let cut = read_even(&mut volume, 5)?;
    Ok(same && written == Some(1) && cut == None)
}

/// The answer to the commit of this number, in which no member fell.
fn committed(sequence: u64) -> CommitAnswer {
    CommitAnswer::Committed { sequence, fell: 0 }
}

// The first commit was made with nothing cut. Before the third one both members of boundary 0 are taken away, so that the array is worn.
#[test]
fn cut_blocks_stay_cut(rt: HostRuntime) -> Result<(), Fail> {
    let alloc = rt.alloc();
    let mut behind = MemRack::new(alloc, 4, BEHIND, Vec::new(alloc))?;
    assert_eq!(rt; keep_over(alloc, &mut behind, 1)?, (1, 0));
    assert_eq!(rt; commit_with(alloc, &mut behind, &ONE_CUT)?, committed(2));
    assert!(rt; is_kept(alloc, &mut behind, &ONE_CUT, Phase::Loose)?);
    behind.remove(0);
    behind.remove(1);
    assert!(rt; is_kept(alloc, &mut behind, &ONE_CUT, Phase::Worn)?);
    assert_eq!(rt; commit_with(alloc, &mut behind, &TWO_CUT)?, committed(3));
    assert!(rt; is_kept(alloc, &mut behind, &TWO_CUT, Phase::Worn)?);
    Ok(())
}
