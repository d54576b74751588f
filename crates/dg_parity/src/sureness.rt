// What is wrong with the disks of a group when it is opened.
ghost use Rattle.std.specs.Prelude.{◌≡◌};
ghost use Rattle.dg_parity.specs.Groups.{is_sure};
ghost use Rattle.dg_parity.specs.Sound.{IsJudged, doubts_if, is_sound};

use crate::groups::Group;
use boxcar::tag::{Names, Tag};
use dg_io::Rack;

/// A group that is opened, and the rack behind it.
#[derive(Drop)]
struct Opened<'a, R: Rack> {
    rack: &'a R,
    group: &'a Group,
}

struct Doubts;

impl<'a, R: Rack> Names<Opened<'a, R>> for Doubts {
    ghost numbers = { λ it. doubts_if (is_sound R.Rack it.group.now it.rack.now) };
}

/// Remembers, for clauses alone, whether the parity of a group is right and no byte stands behind its member's end. It makes no call.
pub(crate) fn judge<R: Rack>(group: Group, rack: &R) -> Group
    ensures same { IsJudged group result }
    ensures sure { is_sure result ≡ is_sound R.Rack result rack.now }
{
    let doubts = Tag::of::<Opened<R>, Doubts>(&Opened {
        rack,
        group: &group,
    });
    let mut group = group;
    group.doubts = doubts;
    group
}
