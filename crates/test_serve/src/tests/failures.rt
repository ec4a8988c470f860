//! What the system's errors mean to a call that receives and to one that sends.
use crate::tests::holds;
use rad_serve::{Failure, receive_failure, send_failure};
use std::io;
use std::io::ErrorKind;
use std::process::Abort;

fn means(rt: &impl Abort, number: i32, receiving: Failure, sending: Failure) {
    let error = io::Error::from_raw_os_error(number);
    holds(
        rt,
        receive_failure(&error) == receiving,
        "of a call that receives",
    );
    holds(rt, send_failure(&error) == sending, "of a call that sends");
}

const WAITS: Failure = Failure::WouldBlock;

const LOST: Failure = Failure::Datagram;

const FAULT: Failure = Failure::Socket;

/// Error numbers as Linux's `asm-generic/errno.h` has them, and what each says of a call that receives and of one that sends.
const ROWS: &[(i32, Failure, Failure)] = &[
    (1, FAULT, LOST), // EPERM, by a firewall or a sandbox
    (4, LOST, LOST), // EINTR
    (5, FAULT, FAULT), // EIO
    (9, FAULT, FAULT), // EBADF
    (11, WAITS, WAITS), // EAGAIN
    (12, LOST, LOST), // ENOMEM
    (13, FAULT, LOST), // EACCES
    (14, FAULT, FAULT), // EFAULT
    (22, FAULT, LOST), // EINVAL, to port 0
    (64, LOST, LOST), // ENONET
    (88, FAULT, FAULT), // ENOTSOCK
    (90, FAULT, LOST), // EMSGSIZE
    (99, FAULT, FAULT), // EADDRNOTAVAIL
    (100, LOST, LOST), // ENETDOWN
    (101, LOST, LOST), // ENETUNREACH
    (105, LOST, LOST), // ENOBUFS
    (107, FAULT, FAULT), // ENOTCONN
    (111, LOST, LOST), // ECONNREFUSED
    (112, LOST, LOST), // EHOSTDOWN
    (113, LOST, LOST), // EHOSTUNREACH
    (0, FAULT, FAULT),
    (-11, FAULT, FAULT),
];

#[test]
fn numbers(rt: HostRuntime) {
    for (number, receiving, sending) in ROWS.iter() {
        means(&rt, *number, *receiving, *sending);
    }
}

#[test]
fn an_error_that_is_not_of_the_system(rt: HostRuntime) {
    let error = io::Error::from(ErrorKind::WouldBlock);
    holds(&rt, receive_failure(&error) == FAULT, "no number");
    holds(&rt, send_failure(&error) == FAULT, "no number");
}
