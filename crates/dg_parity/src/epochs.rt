// Laws on epochs: what a group left on its disks is what the next opening makes of them.
ghost use Rattle.std.specs.Prelude.{◌≡◌, ◌*◌, ◌<◌, ◌≤◌, ℕ, true, false, Option, Some, slice_get};
ghost use Rattle.dg_parity.specs.Arrays.{DisksTell, Grouped, IsHeld, serves};
ghost use Rattle.dg_parity.specs.Epochs.{IsCountable, IsLeft, IsReopened};
ghost use Rattle.dg_parity.specs.Groups.{disk_number, is_lost, is_sure, AllTold, IsReady};
ghost use Rattle.dg_parity.specs.Kept.{bytes_in, IsKept};
ghost use Rattle.dg_parity.specs.Openings.{HasWidth, IsFound, IsOpened, LeavesRead};
ghost use Rattle.dg_parity.specs.Reopens.{IsBack, OpensArray};
ghost use Rattle.dg_parity.specs.declared.groups.Group.{Group};
ghost use Rattle.dg_parity.specs.declared.headers.Header.{Header};
ghost use Rattle.dg_parity.specs.declared.parity_racks.ParityRack.TheVariants.{OfGroups};

use dg_io::Rack;

/// A disk that was out when a group was left, whose headers say what it is, never counts at the next opening, unless that finds the group lost; and
/// each that wasn't counts, but where a call on it failed.
pub fn out_stays_out<R: Rack>()
    ensures { (group next : Group) (left before now : R) (fronts : ℕ → Option Header)
        → IsCountable group → IsReady R.Rack group left → group.noted ≡ true → is_lost group ≡ false → IsLeft R.Rack group left now
        → ((j : ℕ) → j < 8 → IsFound R.Rack before now group.number j (fronts j)) → IsOpened fronts group.disks group.number next → is_lost next ≡ false
        → IsReopened R.Rack group next before now }
{}

/// A group that is opened again stands for the bytes of its member that it stood for when it was left.
pub fn reopened_reads_on<R: Rack>()
    ensures { (group next : Group) (left before now : R)
        → is_lost group ≡ false → IsKept R.Rack group left → AllTold R.Rack group left → IsLeft R.Rack group left now
        → IsReopened R.Rack group next before now → IsReady R.Rack next now → is_lost next ≡ false → next.told ≡ group.told
        → (IsKept R.Rack next now) × (is_sure next ≡ true → bytes_in R.Rack next now ≡ bytes_in R.Rack group left) }
{}

/// A group whose headers said what it is when it was left is there again after the next opening of a rack over its disks that finds one disk out at most, and
/// reads on then: no header but those of its own disks that were in is of its epoch. So the array has the same width.
pub fn noted_is_back<R: Rack>()
    ensures { (old new : Grouped R) (before : R) (s : ℕ) (group : Group) → IsHeld R.Rack old.width old.groups old.rack → slice_get old.groups s ≡ Some group
        → group.noted ≡ true → is_lost group ≡ false → IsCountable group → IsLeft R.Rack group old.rack before
        → OpensArray R.Rack before new → LeavesRead R.Rack (disk_number 0 0) (disk_number 16 0) before new.rack
        → DisksTell R.Rack new.rack new.width s → serves new.groups (2 * s) ≡ true
        → IsBack R.Rack s (OfGroups old) before (OfGroups new) }
{}

/// No header of the group's width that an opening found is of a greater epoch than the group. So the epoch that the group gets before its first
/// write, where a disk is out, is greater than that of each of them.
pub fn opened_is_latest()
    ensures { (group : Group) (fronts : ℕ → Option Header) (n s j : ℕ) (h : Header)
        → IsOpened fronts n s group → j < n → HasWidth fronts n j h → h.epoch ≤ group.epoch }
{}
