//! The requests of `make` with the longest options, and the faults of longer ones. The digests and HMACs were made with Python's
//! `hashlib` and `hmac`.

use crate::tests::{concat, is_text};
use rad_replay::{Kind, Make};
use std::alloc::AllocError;
use std::process::Abort;
use std::test::Fail;

/// An Accounting-Request, with the defaults of the other options.
pub const ACCOUNT: Make<'static> = Make {
    kind: Kind::Account,
    secret: "xyzzy5461",
    id: 0,
    user: None,
    password: None,
    chap: None,
    status: 1,
    random: "00000000000000000000000000000000",
    extra: "",
    mac: false,
};

const ACCESS: Make<'static> = Make {
    kind: Kind::Access,
    random: "0f403f9473978057bd83d5cb98f4227a",
    ..ACCOUNT
};

const STATUS: Make<'static> = Make {
    kind: Kind::Status,
    ..ACCOUNT
};

const BAD_SECRET: &str = "invalid value for '--secret <TEXT>': expected 1 to 128 octets";

const BAD_USER: &str = "invalid value for '--user <TEXT>': expected 1 to 253 octets";

const BAD_PASSWORD: &str = "invalid value for '--password <TEXT>': expected at most 128 octets";

const TOO_LONG: &str =
    "invalid value for '--extra <HEX>': expected attributes that leave the request at most 4096 octets";

/// The request in hexadecimal, or the printed fault.
fn outcome(rt: &impl AllocGlobal, make: &Make) -> Result<String, Fail> {
    match make.request(rt.alloc()) {
        Ok(request) => Ok(hex::encode(rt.alloc(), request.octets())?),
        Err(fault) => Ok(fault.to_string(rt.alloc())?),
    }
}

/// Asserts which request or fault these options give.
fn gives<R: Abort + AllocGlobal>(rt: &R, make: &Make, want: &str, what: &str) -> Result<(), Fail> {
    let outcome = outcome(rt, make)?;
    is_text(rt, outcome.as_str(), want, what);
    Ok(())
}

/// An option that is a text.
#[derive(Clone, Copy)]
enum Long {
    Secret,
    User,
    Password,
}

/// These options with this text for one of them.
fn with_text<'a>(make: Make<'a>, option: Long, text: &'a str) -> Make<'a> {
    match option {
        Long::Secret => Make {
            secret: text,
            ..make
        },
        Long::User => Make {
            user: Some(text),
            ..make
        },
        Long::Password => Make {
            password: Some(text),
            ..make
        },
    }
}

/// Asserts what these options give, where one of them has so many letters.
fn gives_with<R: Abort + AllocGlobal>(
    rt: &R,
    make: Make,
    (option, letter, len): (Long, &str, usize),
    want: &str,
    what: &str,
) -> Result<(), Fail> {
    let text = letter.repeat(rt.alloc(), len)?;
    let make = with_text(make, option, text.as_str());
    gives(rt, &make, want, what)
}

#[test]
fn long_secrets(rt: HostRuntime) -> Result<(), Fail> {
    let request = "0400001a8aebfb3c25f641990ffa0000e4f27c36280600000001";
    gives_with(
        &rt,
        ACCOUNT,
        (Long::Secret, "a", 128),
        request,
        "a long secret",
    )?;
    gives_with(
        &rt,
        ACCOUNT,
        (Long::Secret, "a", 129),
        BAD_SECRET,
        "a long secret",
    )
}

#[test]
fn long_users(rt: HostRuntime) -> Result<(), Fail> {
    let name = "6e".repeat(rt.alloc(), 253)?;
    let head = "040001190ed802ef7200da2744771e24e02e5af901ff";
    let request = concat(&rt, &[head, name.as_str(), "280600000001"])?;
    gives_with(
        &rt,
        ACCOUNT,
        (Long::User, "n", 253),
        request.as_str(),
        "a long User-Name",
    )?;
    gives_with(
        &rt,
        ACCOUNT,
        (Long::User, "n", 254),
        BAD_USER,
        "a long User-Name",
    )
}

/// The request of the longest password.
const LONG_PASSWORD: &str =
    "010000960f403f9473978057bd83d5cb98f4227a02821cbc638982ca04db2f92944f085a7a9eecf15fcf19aedfc40d6a2976e894b6ffa1ac2cd16b8989d355ad0b1b4596e71a3fa1b3258b3caea704fe416dae0c668fb55f7374f17ceb24c28255132731d2432b634c9c76516d7bdb6a88e692c6274d83bd5911da308327d11505e9e3211f095ac36111e1564124f7b3601bf5031a18";

const LONG_CHAP_PASSWORD: &str =
    "010000270f403f9473978057bd83d5cb98f4227a03130763b829ab231dfe80d64a109454df67c5";

/// The longest password, hidden and by CHAP, and one octet more in each kind: that is reported after the User-Name and before
/// `extra`.
#[test]
fn long_passwords(rt: HostRuntime) -> Result<(), Fail> {
    // Options, how many letters their password has, and the request or the fault that they give.
    const ROWS: &[(Make<'static>, usize, &str)] = &[
        (ACCESS, 128, LONG_PASSWORD),
        (
            Make {
                chap: Some(7),
                ..ACCESS
            },
            128,
            LONG_CHAP_PASSWORD,
        ),
        (
            Make {
                extra: "2",
                ..ACCESS
            },
            129,
            BAD_PASSWORD,
        ),
        (ACCOUNT, 129, BAD_PASSWORD),
        (
            Make {
                chap: Some(7),
                ..STATUS
            },
            129,
            BAD_PASSWORD,
        ),
        (
            Make {
                user: Some(""),
                ..ACCESS
            },
            129,
            BAD_USER,
        ),
    ];
    for (make, len, want) in ROWS.iter() {
        gives_with(
            &rt,
            *make,
            (Long::Password, "p", *len),
            want,
            "a long password",
        )?;
    }
    Ok(())
}

/// So many attributes of 255 octets, each with this head and 253 octets of this, in hexadecimal.
pub fn attributes(
    rt: &impl AllocGlobal,
    head: &str,
    octet: &str,
    count: usize,
) -> Result<String, AllocError> {
    let value = octet.repeat(rt.alloc(), 253)?;
    let attribute = concat(rt, &[head, value.as_str()])?;
    attribute.repeat(rt.alloc(), count)
}

/// Fifteen Proxy-States of 255 octets, a head and so many octets, in hexadecimal.
fn long_extra(rt: &impl AllocGlobal, head: &str, count: usize) -> Result<String, AllocError> {
    let attributes = attributes(rt, "21ff", "61", 15)?;
    let value = "62".repeat(rt.alloc(), count)?;
    concat(rt, &[attributes.as_str(), head, value.as_str()])
}

/// A request of 4,096 octets.
#[test]
fn the_longest_request(rt: HostRuntime) -> Result<(), Fail> {
    let most = long_extra(&rt, "21f5", 243)?;
    let head = "0400100086b3f0823b38ddca3a3f22cccaacd252280600000001";
    let request = concat(&rt, &[head, most.as_str()])?;
    let extra = most.as_str();
    let make = Make { extra, ..ACCOUNT };
    gives(&rt, &make, request.as_str(), "a request of 4,096 octets")
}

/// Asserts that these options with such attributes give too long a request.
fn is_too_long<R: Abort + AllocGlobal>(
    rt: &R,
    make: Make,
    head: &str,
    count: usize,
) -> Result<(), Fail> {
    let text = long_extra(rt, head, count)?;
    let extra = text.as_str();
    gives(rt, &Make { extra, ..make }, TOO_LONG, "attributes too many")
}

/// One octet more, and attributes that alone are too many.
#[test]
fn longer_requests(rt: HostRuntime) -> Result<(), Fail> {
    is_too_long(&rt, ACCOUNT, "21f6", 244)?;
    is_too_long(&rt, ACCESS, "21f5", 250)
}
