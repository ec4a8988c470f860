//! Faults and sums as they are printed, and sums that are carried on.
use crate::tests::holds;
use rad_shell::{JournalFault, Mismatch, RoundFault, ServeFault, Served};
use std::alloc::Global;
use std::test::Fail;

#[test]
fn round_faults_are_printed(rt: HostRuntime) {
    const MISPLACED: Mismatch = Mismatch::At { pass: 0, place: 3 };
    const ROWS: &[(RoundFault, &str)] = &[
        (
            RoundFault::Mismatch(MISPLACED),
            "pass 0 has a misplaced receipt for place 3",
        ),
        (RoundFault::NoMemory, "no memory for a round"),
        (RoundFault::NoThread, "no thread for a worker"),
    ];
    for row in ROWS.iter() {
        holds(&rt, is_round_fault(rt.alloc(), row.0, row.1), row.1);
    }
}

#[test]
fn serve_faults_are_printed(rt: HostRuntime) {
    const ROWS: &[(ServeFault, &str)] = &[
        (ServeFault::Receive, "receive failed"),
        (ServeFault::Send, "send failed"),
        (ServeFault::Mismatch, "mismatch"),
        (ServeFault::Journal(JournalFault::Full), "it is full"),
    ];
    for row in ROWS.iter() {
        holds(&rt, is_serve_fault(rt.alloc(), row.0, row.1), row.1);
    }
}

#[test]
fn sums_are_printed(rt: HostRuntime) -> Result<(), Fail> {
    const SUMS: Served = Served {
        rounds: 1,
        datagrams: 21,
        replies: 2,
        drops: 3,
        busy: 4,
        nomemory: 5,
        failed: 6,
    };
    let printed = SUMS.to_string(rt.alloc())?;
    holds(
        &rt,
        printed.as_str() == "rounds 1 datagrams 21 replies 2 drops 3 busy 4 nomemory 5 failed 6",
        "each number after its name",
    );
    Ok(())
}

#[test]
fn sums_are_carried_on(rt: HostRuntime) {
    const FIRST: Served = Served {
        rounds: 1,
        datagrams: 2,
        replies: 3,
        drops: 4,
        busy: 5,
        nomemory: 6,
        failed: u64::MAX,
    };
    const BOTH: Served = Served {
        rounds: 2,
        datagrams: 4,
        replies: 6,
        drops: 8,
        busy: 10,
        nomemory: 12,
        failed: u64::MAX,
    };
    let mut sums = Served::nothing();
    sums.add(&FIRST);
    sums.add(&FIRST);
    holds(&rt, sums == BOTH, "twice the sums, or the last number");
}

// Whether the fault of a round is printed so.
fn is_round_fault(alloc: Global, fault: RoundFault, text: &str) -> bool {
    match fault.to_string(alloc) {
        Ok(printed) => printed.as_str() == text,
        Err(_) => false,
    }
}

// Whether the fault of turns is printed so.
fn is_serve_fault(alloc: Global, fault: ServeFault, text: &str) -> bool {
    match fault.to_string(alloc) {
        Ok(printed) => printed.as_str() == text,
        Err(_) => false,
    }
}
