//! Faults of opening as they are printed.
use super::holds;
use rad_state::OpenFault;
use std::alloc::Global;
use std::process::Abort;
use std::test::Fail;

const TEXTS: &[(OpenFault, &str)] = &[
    (OpenFault::InUse, "another process uses the state"),
    (OpenFault::Damaged, "it is no state, or it is damaged"),
    (OpenFault::Unfinished, "it is no state, or it is damaged"),
    (OpenFault::OtherFormat, "the state has another format"),
    (
        OpenFault::OtherRules,
        "the state was kept under other rules",
    ),
    (OpenFault::NoMemory, "out of memory"),
    (OpenFault::Disk, "the disk failed"),
    (OpenFault::NoRoom, "no room is left"),
    (OpenFault::JournalFull, "it is full"),
];

fn says(rt: &impl Abort, alloc: Global, fault: OpenFault, text: &str) {
    let said = fault.to_string(alloc).unwrap_or(String::new(alloc));
    holds(rt, said.as_str() == text, text);
}

#[test]
fn faults_have_texts(rt: HostRuntime) -> Result<(), Fail> {
    for (fault, text) in TEXTS.iter() {
        says(&rt, rt.alloc(), *fault, *text);
    }
    Ok(())
}
