//! Datagram lines, and the lines of a transcript.

use crate::tests::are_octets;
use rad_auth::Door;
use rad_replay::{DatagramLine, read_datagram_line};
use rad_text::lines::{DatagramLines, divide};
use std::alloc::AllocError;
use std::process::Abort;
use std::test::Fail;

/// Asserts what a line is read as.
fn is_read(rt: &impl Abort, line: &[u8], want: Option<DatagramLine>) {
    let mut octets = [0; 4096];
    let found = read_datagram_line(line, &mut octets);
    assert!(rt; found == want, "{line:?}");
}

const DRAW: [u8; 16] = [
    0x00, 0x11, 0x22, 0x33, 0x44, 0x55, 0x66, 0x77, 0x88, 0x99, 0xaa, 0xbb, 0xcc, 0xdd, 0xee, 0xff,
];

#[test]
fn reads_datagram_lines(rt: HostRuntime) {
    const ROWS: &[(&[u8], DatagramLine)] = &[
        (
            b"0 acct 192.168.1.17:1813 -",
            DatagramLine {
                moment: 0,
                source: 0xc0a8_0111,
                port: 1813,
                door: Door::Acct,
                len: 0,
                draw: None,
            },
        ),
        (
            b"0000000000000000042 auth 0.0.0.255:00080 0aFfbC",
            DatagramLine {
                moment: 42,
                source: 255,
                port: 80,
                door: Door::Auth,
                len: 3,
                draw: None,
            },
        ),
        (
            b"4611686018427387904 auth 255.255.255.255:65535 00",
            DatagramLine {
                moment: 4_611_686_018_427_387_904,
                source: 0xffff_ffff,
                port: 65535,
                door: Door::Auth,
                len: 1,
                draw: None,
            },
        ),
        (
            b"1 auth 1.2.3.4:5 00 00112233445566778899aAbBcCdDeEfF",
            DatagramLine {
                moment: 1,
                source: 0x0102_0304,
                port: 5,
                door: Door::Auth,
                len: 1,
                draw: Some(DRAW),
            },
        ),
        (
            b"1 acct 1.2.3.4:5 - 00112233445566778899aabbccddeeff",
            DatagramLine {
                moment: 1,
                source: 0x0102_0304,
                port: 5,
                door: Door::Acct,
                len: 0,
                draw: Some(DRAW),
            },
        ),
    ];
    for (line, want) in ROWS.iter() {
        is_read(&rt, line, Some(*want));
    }
}

#[test]
fn decodes_octets(rt: HostRuntime) {
    let mut octets = [7; 4096];
    let line = b"0000000000000000042 auth 0.0.0.255:00080 0aFfbC";
    let _ = read_datagram_line(line, &mut octets);
    are_octets(&rt, &octets[..4], &[0x0a, 0xff, 0xbc, 7], "the front");
}

#[test]
fn refuses_other_lines(rt: HostRuntime) {
    const ROWS: &[&[u8]] = &[
        b"",
        b"4611686018427387905 auth 1.2.3.4:5 00",
        b"00000000000000000042 auth 1.2.3.4:5 00",
        b" auth 1.2.3.4:5 00",
        b"+1 auth 1.2.3.4:5 00",
        b"1 AUTH 1.2.3.4:5 00",
        b"1 auth 1.2.3:5 00",
        b"1 auth 1.2.3.4.5:5 00",
        b"1 auth 1.2.3.256:5 00",
        b"1 auth 01.2.3.4:5 00",
        b"1 auth 1.2.3.00:5 00",
        b"1 auth 1.2..4:5 00",
        b"1 auth 1.2.3.4 00",
        b"1 auth 1.2.3.4: 00",
        b"1 auth 1.2.3.4:65536 00",
        b"1 auth 1.2.3.4:000080 00",
        b"1 auth 1.2.3.4:5 0",
        b"1 auth 1.2.3.4:5 000",
        b"1 auth 1.2.3.4:5 0g",
        b"1 auth 1.2.3.4:5 --",
        b"1 auth 1.2.3.4:5 ",
        b"1 auth 1.2.3.4:5",
        b"1  auth 1.2.3.4:5 00",
        b"1 auth 1.2.3.4:5  00",
        b"1 auth 1.2.3.4:5 00 ",
        b"1 auth 1.2.3.4:5 00 -",
        b"1 auth 1.2.3.4:5 00 00112233445566778899aabbccddee",
        b"1 auth 1.2.3.4:5 00 00112233445566778899aabbccddeef",
        b"1 auth 1.2.3.4:5 00 00112233445566778899aabbccddeeff0",
        b"1 auth 1.2.3.4:5 00 00112233445566778899aabbccddeeff00",
        b"1 auth 1.2.3.4:5 00 00112233445566778899aabbccddeefg",
        b"1 auth 1.2.3.4:5 00  00112233445566778899aabbccddeeff",
        b"1 auth 1.2.3.4:5 00 00112233445566778899aabbccddeeff ",
        b"1 auth 1.2.3.4:5 0 00112233445566778899aabbccddeeff",
    ];
    for line in ROWS.iter() {
        is_read(&rt, line, None);
    }
}

/// Asserts whether a line of so many hexadecimal digits is read, and with how many octets.
fn has_octets<R: Abort + AllocGlobal>(
    rt: &R,
    digits: usize,
    want: Option<usize>,
) -> Result<(), AllocError> {
    let text = "a".repeat(rt.alloc(), digits)?;
    let line = ["1 auth 1.2.3.4:5 ", text.as_str()].concat(rt.alloc())?;
    let mut octets = [0; 4096];
    let found = read_datagram_line(line.as_bytes(), &mut octets);
    is_len(rt, found.map(|it| it.len), want);
    Ok(())
}

fn is_len(rt: &impl Abort, len: Option<usize>, want: Option<usize>) {
    assert!(rt; len == want, "octets of a line");
}

#[test]
fn reads_up_to_4096_octets(rt: HostRuntime) -> Result<(), Fail> {
    has_octets(&rt, 8192, Some(4096))?;
    has_octets(&rt, 8194, None)?;
    Ok(())
}

/// Asserts what is before and after the divider of a text.
fn is_divided(rt: &impl Abort, text: &[u8], want: Option<(&[u8], &[u8])>) {
    assert!(rt; divide(text) == want, "{text:?}");
}

#[test]
fn divides_texts(rt: HostRuntime) {
    const ROWS: &[(&[u8], &[u8], &[u8])] = &[
        (b"a\r\nb\n---\r\nc\n---\n", b"a\r\nb\n", b"c\n---\n"),
        (b"a\n---", b"a\n", b""),
        (b"---", b"", b""),
        (
            b"---\r\r\n----\n--\n\n---\nx",
            b"---\r\r\n----\n--\n\n",
            b"x",
        ),
    ];
    for (text, before, after) in ROWS.iter() {
        is_divided(&rt, text, Some((before, after)));
    }
}

#[test]
fn finds_no_divider(rt: HostRuntime) {
    const ROWS: &[&[u8]] = &[b"", b"\n", b"a", b"---\r\r", b" ---\n", b"--- \n"];
    for text in ROWS.iter() {
        is_divided(&rt, text, None);
    }
}

/// Asserts which line comes next.
fn comes_next(rt: &impl Abort, lines: &mut DatagramLines, want: Option<&[u8]>) {
    assert!(rt; lines.next() == want, "a datagram line");
}

/// Asserts which datagram lines a text has.
fn has_lines(rt: &impl Abort, text: &[u8], want: &[&[u8]]) {
    let mut lines = DatagramLines::new(text);
    for line in want {
        comes_next(rt, &mut lines, Some(line));
    }
    comes_next(rt, &mut lines, None);
    comes_next(rt, &mut lines, None);
}

#[test]
fn yields_datagram_lines(rt: HostRuntime) {
    let text = b"1\r\n\r\n\n# 2\n#\r\n 3\r\r\n\r\r\n4".as_slice();
    has_lines(&rt, text, &[b"1", b" 3\r", b"\r", b"4"]);
    has_lines(&rt, b"1\n#\n2", &[b"1", b"2"]);
}
