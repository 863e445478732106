//! The standard ends of the program.

use std::fs::{Files, OpenOptions};
use std::{fs, mem};

/// Where each of them is told, in the order of their numbers (proc(5)).
const ENDS: [&str; 3] = ["/proc/self/fd/0", "/proc/self/fd/1", "/proc/self/fd/2"];

/// Opens nothing in the place of each standard end that is closed. Else a connection would get its number, and notes would
/// go to whoever is connected.
pub(crate) fn fill_ends<R: Files>(rt: &R) {
    for end in ENDS {
        if fs::metadata(rt, end).is_err() {
            if let Ok(nothing) = OpenOptions::new().read(true).open(rt, "/dev/null") {
                mem::forget(nothing);
            }
        }
    }
}
