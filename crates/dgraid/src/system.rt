// What the system is asked beside the calls on files and streams.
use std::fs;
use std::thread::sleep;
use std::time::Duration;

/// Where the limits of the process are told, a line for each.
const LIMITS: &str = "/proc/self/limits";

/// What stands before the limit on the length of files.
const LENGTH_OF_FILES: &str = "Max file size";

/// Leaves a standard stream alone for a while that has no bytes yet, or no room.
pub fn pause(rt: HostRuntime) {
    sleep(&rt, Duration::from_millis(2));
}

/// The limit on the length of files in this text, unless it tells none.
fn limit_in(limits: &str) -> Option<u64> {
    for line in limits.lines() {
        if let Some(rest) = line.strip_prefix(LENGTH_OF_FILES) {
            return rest.trim_start().split(' ').next()?.parse().ok();
        }
    }
    None
}

/// The longest file that the process may write. A write behind it would end the process by a signal, which can't be ignored here.
pub fn longest_file(rt: HostRuntime) -> u64 {
    match fs::read_to_string(&rt, LIMITS) {
        Ok(limits) => limit_in(&limits).unwrap_or(u64::MAX),
        Err(_) => u64::MAX,
    }
}
