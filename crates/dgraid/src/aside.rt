// Setting aside the images that a new array would stand among.
use crate::members::Members;
use crate::names::{MEMBERS, name_of, old_name_of, path_of};
use crate::reports::report_member;
use std::{fs, io};

/// Why images weren't set aside was told.
#[derive(Clone, Copy, Debug, Drop)]
pub struct Told;

/// Sets aside each image of the folder, or none of them, and tells how many, or why none. No other run has one of them meanwhile.
pub fn set_aside(rt: HostRuntime, members: &mut Members<'_>) -> Result<(), Told> {
    let given = match hold_all(rt, members) {
        Ok(()) => rename_all(rt, members),
        Err(Told) => Err(Told),
    };
    members.let_all_go();
    let count = given?;
    if count > 0 {
        let noun = if count == 1 { "image" } else { "images" };
        let _ = eprintln!(rt; "{count} {noun} set aside, as member-SS-J.img.old");
    }
    Ok(())
}

/// Opens and locks each image.
fn hold_all(rt: HostRuntime, members: &mut Members<'_>) -> Result<(), Told> {
    for member in 0..MEMBERS {
        if let Err(error) = members.hold(member) {
            return Err(tell(rt, member, "set aside", &error));
        }
    }
    Ok(())
}

/// Renames each image that is held, and gives their number. Where one can't be renamed, those before it have their names again.
fn rename_all(rt: HostRuntime, members: &Members<'_>) -> Result<u32, Told> {
    let mut count = 0u32;
    for member in 0..MEMBERS {
        if members.holds(member) {
            if let Err(error) = rename(rt, &name_of(member), &old_name_of(member)) {
                let told = tell(rt, member, "set aside", &error);
                restore(rt, members, member);
                return Err(told);
            }
            count = count.saturating_add(1);
        }
    }
    Ok(count)
}

/// Gives the images that were set aside their names again, those before a member.
fn restore(rt: HostRuntime, members: &Members<'_>, end: u8) {
    for member in 0..end {
        if members.holds(member) {
            if let Err(error) = rename(rt, &old_name_of(member), &name_of(member)) {
                tell(rt, member, "set back", &error);
            }
        }
    }
}

/// Renames a file.
fn rename(rt: HostRuntime, from: &[u8], to: &[u8]) -> io::Result<()> {
    fs::rename(&rt, path_of(from)?, path_of(to)?)
}

/// Tells that a call on a member's image failed.
fn tell(rt: HostRuntime, member: u8, call: &str, error: &io::Error) -> Told {
    report_member(rt, member, call, error);
    Told
}
