//! Faults as they are printed.
use super::holds;
use rad_journal::{JournalFault, RestoreFault};
use std::test::Fail;

#[test]
fn faults_have_texts(rt: HostRuntime) -> Result<(), Fail> {
    const ROWS: &[(JournalFault, &str)] = &[
        (JournalFault::NoMemory, "out of memory"),
        (JournalFault::Disk, "the disk failed"),
        (JournalFault::Damaged, "it is damaged"),
        (JournalFault::Full, "it is full"),
    ];
    for (fault, want) in ROWS.iter() {
        let text = format!(in rt.alloc(); "{fault}")?;
        holds(&rt, text.as_str() == *want, want);
    }
    Ok(())
}

#[test]
fn faults_of_restoring_have_texts(rt: HostRuntime) -> Result<(), Fail> {
    const ROWS: &[(RestoreFault, &str)] = &[
        (RestoreFault::NoMemory, "out of memory"),
        (RestoreFault::Journal(JournalFault::Disk), "the disk failed"),
        (
            RestoreFault::TooLate { entry: 1 },
            "the moment of entry 1 is too late",
        ),
        (
            RestoreFault::NotAdmitted { entry: 2 },
            "the request of entry 2 is not admitted",
        ),
        (
            RestoreFault::OtherAnswer { entry: 3 },
            "the answer of entry 3 is another",
        ),
    ];
    for (fault, want) in ROWS.iter() {
        let text = format!(in rt.alloc(); "{fault}")?;
        holds(&rt, text.as_str() == *want, want);
    }
    Ok(())
}
