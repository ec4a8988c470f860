//! The clock.

use libc::CLOCK_MONOTONIC;
use libc::types::timespec;

/// Nanoseconds since some moment; always the same if there is no clock.
pub(crate) fn now() -> u64 {
    let mut time = timespec {
        tv_sec: 0,
        tv_nsec: 0,
    };
    let _status = libc::clock_gettime(CLOCK_MONOTONIC, &mut time);
    let seconds = time.tv_sec.unsigned_abs();
    seconds
        .wrapping_mul(1_000_000_000)
        .wrapping_add(time.tv_nsec.unsigned_abs())
}
