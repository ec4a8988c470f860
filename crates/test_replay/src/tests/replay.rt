//! Whole replays, over memory.

use crate::tests::make::{ACCOUNT, attributes};
use crate::tests::transcripts::{
    ACCESS, ACCESS_REPLY, ACCT_STATUS, ACCT_STATUS_REPLY, ANSWER, CHALLENGING, DROPPED, DROPS,
    EAP_ACCESS, EAP_ACCESS_REPLY, FIRST_CHALLENGE, GATEWAY, LOGIN, OWN_CHALLENGE, PROXIED,
    PROXIED_ACCESS, PROXIED_ACCESS_REPLY, PROXIED_REPLY, PROXIED_STATUS, PROXIED_STATUS_ACCEPT,
    PROXIED_STATUS_RESPONSE, RIGHT_ANSWER, SECOND, SECOND_REPLY, START, START_REPLY, STATE_ACCESS,
    STATE_ACCESS_REPLY, STATUS, STATUS_REPLY, SUMMING_GATEWAY, TWICE_PROXIED, TWICE_PROXIED_REPLY,
    UNKNOWN_STATE,
};
use crate::tests::{are_octets, concat, is_number, is_text};
use rad_config::{ConfigFault, TEXT_MAX};
use rad_replay::{Make, RunFault, run_replay};
use std::alloc::AllocError;
use std::process::Abort;
use std::test::Fail;

/// A transcript in parts, the parts that a replay of it writes, and the printed fault that ends it, or nothing.
#[derive(Clone, Copy)]
struct Scenario {
    name: &'static str,
    input: &'static [&'static str],
    output: &'static [&'static str],
    fault: &'static str,
}

/// The printed fault, or nothing.
fn printed(rt: &impl AllocGlobal, ended: Result<(), RunFault>) -> Result<String, AllocError> {
    match ended {
        Ok(()) => Ok(String::new(rt.alloc())),
        Err(fault) => fault.to_string(rt.alloc()),
    }
}

/// Asserts how a replay ended: with this printed fault, or with none.
pub fn ends<R: Abort + AllocGlobal>(rt: &R, ended: Result<(), RunFault>, fault: &str, what: &str) {
    let text = printed(rt, ended).expect(rt, what);
    is_text(rt, text.as_str(), fault, what);
}

/// Asserts what a replay of octets writes, and the printed fault that it ends with.
fn replays_octets<R: Abort + AllocGlobal>(
    rt: &R,
    mut input: &[u8],
    output: &[u8],
    fault: &str,
    what: &str,
) {
    let mut written = Vec::new(rt.alloc());
    let ended = run_replay(rt.alloc(), &mut input, &mut written);
    are_octets(rt, written.as_slice(), output, what);
    ends(rt, ended, fault, what);
}

/// The same of an input and an output in parts.
fn replays<R: Abort + AllocGlobal>(
    rt: &R,
    input: &[&str],
    output: &[&str],
    fault: &str,
    what: &str,
) {
    let input = concat(rt, input).expect(rt, what);
    let output = concat(rt, output).expect(rt, what);
    replays_octets(rt, input.as_bytes(), output.as_bytes(), fault, what);
}

/// Asserts what a replay of a scenario writes.
fn is_replayed<R: Abort + AllocGlobal>(rt: &R, it: Scenario) {
    replays(rt, it.input, it.output, it.fault, it.name);
}

#[test]
fn scenarios(rt: HostRuntime) {
    const ROWS: &[Scenario] = &[
        Scenario {
            name: "ten ways to be dropped",
            input: &[GATEWAY, DROPS],
            output: &[DROPPED],
            fault: "",
        },
        Scenario {
            name: "a stranger, where no client is configured",
            input: &["---\n", START],
            output: &["1 drop 1 UnknownClient\n"],
            fault: "",
        },
        Scenario {
            name: "two replies with a drop between them",
            input: &[GATEWAY, START, "\n0 acct 1.2.3.4:5 -\n", SECOND, "\n"],
            output: &[
                "1 ",
                START_REPLY,
                "2 drop 1 UnknownClient\n3 ",
                SECOND_REPLY,
            ],
            fault: "",
        },
        Scenario {
            name: "a Proxy-State",
            input: &[GATEWAY, PROXIED, "\n"],
            output: &["1 ", PROXIED_REPLY],
            fault: "",
        },
        Scenario {
            name: "two Proxy-States",
            input: &[GATEWAY, TWICE_PROXIED, "\n"],
            output: &["1 ", TWICE_PROXIED_REPLY],
            fault: "",
        },
        Scenario {
            name: "an Access-Request",
            input: &[GATEWAY, ACCESS, "\n"],
            output: &["1 ", ACCESS_REPLY],
            fault: "",
        },
        Scenario {
            name: "an Access-Request with two Proxy-States",
            input: &[GATEWAY, PROXIED_ACCESS, "\n"],
            output: &["1 ", PROXIED_ACCESS_REPLY],
            fault: "",
        },
        Scenario {
            name: "an Access-Request with a State, and one with an EAP-Message",
            input: &[GATEWAY, STATE_ACCESS, "\n", EAP_ACCESS, "\n"],
            output: &["1 ", STATE_ACCESS_REPLY, "2 ", EAP_ACCESS_REPLY],
            fault: "",
        },
        Scenario {
            name: "a client that has to send Message-Authenticators",
            input: &[SUMMING_GATEWAY, ACCESS, "\n", EAP_ACCESS, "\n", START, "\n"],
            output: &[
                "1 drop 9 NoMessageAuthenticator\n2 ",
                EAP_ACCESS_REPLY,
                "3 ",
                START_REPLY,
            ],
            fault: "",
        },
        Scenario {
            name: "an Access-Request to the accounting port",
            input: &[
                GATEWAY,
                "0 acct 192.168.1.16:1024 010000380f403f9473978057bd83d5cb98f4227a01066e656d6f02120dbe708d93d413ce3196e43f782a0aee0406c0a80110050600000003\n",
            ],
            output: &["1 drop 6 WrongCode\n"],
            fault: "",
        },
        Scenario {
            name: "a Status-Server to each port",
            input: &[GATEWAY, STATUS, "\n", ACCT_STATUS, "\n"],
            output: &["1 ", STATUS_REPLY, "2 ", ACCT_STATUS_REPLY],
            fault: "",
        },
        Scenario {
            name: "a Status-Server with two Proxy-States to each port",
            input: &[
                GATEWAY,
                "0 auth",
                PROXIED_STATUS,
                "\n0 acct",
                PROXIED_STATUS,
                "\n",
            ],
            output: &["1 ", PROXIED_STATUS_ACCEPT, "2 ", PROXIED_STATUS_RESPONSE],
            fault: "",
        },
        Scenario {
            name: "repeats",
            input: &[
                GATEWAY, STATUS, "\n", ACCESS, "\n", STATUS, "\n", ACCESS, "\n", START, "\n",
                START, "\n",
            ],
            output: &[
                "1 ",
                STATUS_REPLY,
                "2 ",
                ACCESS_REPLY,
                "3 ",
                STATUS_REPLY,
                "4 ",
                ACCESS_REPLY,
                "5 ",
                START_REPLY,
                "6 ",
                START_REPLY,
            ],
            fault: "",
        },
        Scenario {
            name: "an answer to a challenge whose line has its draw",
            input: &[
                CHALLENGING,
                LOGIN,
                " 00112233445566778899aAbBcCdDeEfF\n",
                ANSWER,
                "\n",
            ],
            output: &["1 ", OWN_CHALLENGE, "2 ", RIGHT_ANSWER],
            fault: "",
        },
        Scenario {
            name: "the same where the line has none",
            input: &[CHALLENGING, LOGIN, "\n", ANSWER, "\n"],
            output: &["1 ", FIRST_CHALLENGE, "2 ", UNKNOWN_STATE],
            fault: "",
        },
        Scenario {
            name: "a draw of 15 octets",
            input: &[
                GATEWAY,
                START,
                "\n",
                SECOND,
                " 00112233445566778899aabbccddee\n",
            ],
            output: &["1 ", START_REPLY],
            fault: "datagram 2 is malformed",
        },
        Scenario {
            name: "a malformed line after a good one",
            input: &[GATEWAY, START, "\nx\n", SECOND, "\n"],
            output: &["1 ", START_REPLY],
            fault: "datagram 2 is malformed",
        },
        Scenario {
            name: "a second divider",
            input: &[GATEWAY, "---\n", START, "\n"],
            output: &[],
            fault: "datagram 1 is malformed",
        },
        Scenario {
            name: "skipped lines",
            input: &[
                GATEWAY,
                "# x\n\n#\n",
                START,
                "\n\n",
                SECOND,
                "\n#",
                START,
                "\nx\n",
            ],
            output: &["1 ", START_REPLY, "2 ", SECOND_REPLY],
            fault: "datagram 3 is malformed",
        },
        Scenario {
            name: "line ends with carriage returns",
            input: &[
                "[[client]]\r\naddress = \"192.168.1.16\"\r\nsecret = \"xyzzy5461\"\r\n---\r\n\r\n#\r\n",
                START,
                "\r\n",
                SECOND,
                "\r\n",
            ],
            output: &["1 ", START_REPLY, "2 ", SECOND_REPLY],
            fault: "",
        },
        Scenario {
            name: "no line feed at the end",
            input: &[GATEWAY, START],
            output: &["1 ", START_REPLY],
            fault: "",
        },
        Scenario {
            name: "no datagrams",
            input: &[GATEWAY],
            output: &[],
            fault: "",
        },
        Scenario {
            name: "a divider alone",
            input: &["---"],
            output: &[],
            fault: "",
        },
        Scenario {
            name: "nothing",
            input: &[],
            output: &[],
            fault: "no divider",
        },
        Scenario {
            name: "no divider below a faulty configuration",
            input: &["client = 3\n----\n", START],
            output: &[],
            fault: "no divider",
        },
        Scenario {
            name: "a client without a secret, and a malformed line",
            input: &["[[client]]\naddress = \"192.168.1.16\"\n---\nx\n"],
            output: &[],
            fault: "config fault 2 Missing at client 1 secret",
        },
        Scenario {
            name: "a text that ends at the divider",
            input: &["# \"\"\"\nname = \"\"\"\n---\n\"\"\"\n---\n", START],
            output: &[],
            fault: "config fault 1 Syntax",
        },
    ];
    for row in ROWS.iter() {
        is_replayed(&rt, *row);
    }
}

#[test]
fn printed_faults(rt: HostRuntime) {
    const ROWS: &[(RunFault, &str)] = &[
        (RunFault::Read, "read failed"),
        (RunFault::TooLong, "input too long"),
        (RunFault::NoDivider, "no divider"),
        (
            RunFault::Config(ConfigFault::HoldBelowWindow),
            "config fault 4 HoldBelowWindow",
        ),
        (RunFault::BadLine(7), "datagram 7 is malformed"),
        (RunFault::Write, "write failed"),
        (RunFault::NoMemory, "out of memory"),
    ];
    for (fault, text) in ROWS.iter() {
        ends(&rt, Err(*fault), text, text);
    }
}

/// An Access-Request without a name, with 3,584 octets of Proxy-State, the most that are copied, and one with an octet more.
#[test]
fn the_most_proxy_states(rt: HostRuntime) -> Result<(), Fail> {
    let long = attributes(&rt, "21ff", "61", 14)?;
    let input = [
        GATEWAY,
        "0 auth 192.168.1.16:1024 01000e140f403f9473978057bd83d5cb98f4227a",
        long.as_str(),
        "210e626262626262626262626262\n",
        "0 auth 192.168.1.16:1024 01000e150f403f9473978057bd83d5cb98f4227a",
        long.as_str(),
        "210f62626262626262626262626262\n",
    ];
    let output = [
        "1 reply 03000e39221cd7e76c74c6b5be8cdda4b177b103",
        "5012509c39be9d573da966d9a15ed42ef10f12136d616c666f726d65642072657175657374",
        long.as_str(),
        "210e626262626262626262626262\n",
        "2 drop 11 ProxyStateTooLong\n",
    ];
    replays(&rt, &input, &output, "", "3,584 octets of Proxy-State");
    Ok(())
}

/// Fifteen attributes 26 of 255 octets and one of 245, all zeros, in hexadecimal.
fn long_attributes(rt: &impl AllocGlobal) -> Result<String, AllocError> {
    let attributes = attributes(rt, "1aff", "00", 15)?;
    let zeros = "00".repeat(rt.alloc(), 243)?;
    concat(rt, &[attributes.as_str(), "1af5", zeros.as_str()])
}

/// An Accounting-Request of 4,096 octets, in hexadecimal.
fn longest_request(rt: &impl AllocGlobal) -> Result<String, Fail> {
    let attributes = long_attributes(rt)?;
    let make = Make {
        id: 9,
        extra: attributes.as_str(),
        ..ACCOUNT
    };
    let request = make.request(rt.alloc()).ok().ok_or("a request")?;
    Ok(hex::encode(rt.alloc(), request.octets())?)
}

#[test]
fn replies_to_the_longest_request(rt: HostRuntime) -> Result<(), Fail> {
    let request = longest_request(&rt)?;
    is_number(&rt, request.len(), 2 * 4096, "the digits of the request");
    let input = [GATEWAY, "7 acct 192.168.1.16:1813 ", request.as_str(), "\n"];
    let output = "1 reply 05090014275f977e196fa30d9e7b0c0a6a1933c5\n";
    replays(&rt, &input, &[output], "", "a request of 4,096 octets");
    Ok(())
}

/// A request, and a comment that makes the transcript so many octets.
fn commented(rt: &impl AllocGlobal, len: usize) -> Result<String, AllocError> {
    let head = concat(rt, &[GATEWAY, START, "\n"])?;
    let comment = "#".repeat(rt.alloc(), len.saturating_sub(head.len()))?;
    concat(rt, &[head.as_str(), comment.as_str()])
}

/// Asserts what a replay of a transcript of so many octets writes.
fn replays_long<R: Abort + AllocGlobal>(
    rt: &R,
    len: usize,
    output: &[&str],
    fault: &str,
    what: &str,
) -> Result<(), Fail> {
    let input = commented(rt, len)?;
    let output = concat(rt, output)?;
    replays_octets(rt, input.as_bytes(), output.as_bytes(), fault, what);
    Ok(())
}

#[test]
fn the_longest_input(rt: HostRuntime) -> Result<(), Fail> {
    let output = ["1 ", START_REPLY];
    replays_long(&rt, TEXT_MAX, &output, "", "16,777,216 octets")?;
    replays_long(
        &rt,
        TEXT_MAX + 1,
        &[],
        "input too long",
        "16,777,217 octets",
    )
}
