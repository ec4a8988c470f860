//! The moment at which a server goes on.
use super::generations::meta;
use super::holds;
use rad_state::{Clocks, Last, next_moment};
use std::test::Fail;

// The moment at which a server goes on after moment 7000 at the wall time 1000: in the boot of the last life or another, by what
// the clocks show.
#[test]
fn moments_go_on(rt: HostRuntime) -> Result<(), Fail> {
    let meta = meta(rt.alloc())?;
    let last = Last {
        wall: 1000,
        moment: 7000,
    };
    for (is_same_boot, running, wall, moment, what) in [
        (true, 3000, 0, 8000, "the same boot"),
        (true, 1000, 9000, 7000, "its clock shows less"),
        (false, 3000, 1500, 7500, "another boot"),
        (false, 3000, 500, 7000, "the wall clock was set back"),
    ] {
        let now = Clocks {
            boot: if is_same_boot { meta.boot } else { [8; 16] },
            running,
            wall,
        };
        holds(&rt, next_moment(&meta, last, &now) == moment, what);
    }
    Ok(())
}
