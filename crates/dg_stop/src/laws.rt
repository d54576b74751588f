// Laws of double members.
ghost use Rattle.dg_stop.specs.Pages.{PagesArePatched};
ghost use Rattle.dg_stop.specs.Stops.{BlanksLeaveRest, OpeningsLeaveKept, StopsLeaveOldOrNew, WritesLeaveKept};

/// A commit that stops at any call leaves what the members were reopened as, or makes it what the commit names.
pub fn stops_leave_old_or_new()
    ensures { StopsLeaveOldOrNew }
{}

/// A write in the place that the last commit doesn't use leaves what the members are reopened as.
pub fn writes_leave_kept()
    ensures { WritesLeaveKept }
{}

/// What an opening writes leaves what the members are reopened as.
pub fn openings_leave_kept()
    ensures { OpeningsLeaveKept }
{}

/// A member that is made anew loses its entry, and no other one does.
pub fn blanks_leave_rest()
    ensures { BlanksLeaveRest }
{}

/// A write of a part of a page is one of the member's bytes, as its places name them.
pub fn pages_are_patched()
    ensures { PagesArePatched }
{}
