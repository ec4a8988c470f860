//! What the readers of a configuration give, and which configurations are the same.
use super::{are_octets, is_number};
use crate::tests::holds;
use rad_config::{Config, Spans, Text, User};
use std::alloc::AllocError;
use std::process::Abort;
use std::test::Fail;
use test_common::CAMPUS;

// Asserts the defaults.
fn is_empty(rt: &impl Abort, config: &Config) {
    holds(rt, config.window() == 30, "window");
    holds(rt, config.hold() == 60, "hold");
    holds(rt, config.stale().is_none(), "no stale");
    let spans = Spans {
        window: 30_000,
        hold: 60_000,
        stale: None,
    };
    holds(rt, config.spans() == spans, "spans");
    holds(rt, config.clients().is_empty(), "no clients");
    holds(rt, config.pools().is_empty(), "no pools");
    holds(rt, config.users().is_empty(), "no users");
    holds(rt, config.user(b"").is_none(), "no empty name");
}

#[test]
fn the_empty_text_is_a_configuration(rt: HostRuntime) -> Result<(), Fail> {
    let config = Config::read(rt.alloc(), "")?;
    is_empty(&rt, &config);
    Ok(())
}

// Asserts the three times of a text.
fn is_timed(rt: &impl Abort, config: &Config) {
    holds(rt, config.window() == 20, "window");
    holds(rt, config.hold() == 40, "hold");
    holds(rt, config.stale() == Some(604_800), "stale");
    let spans = Spans {
        window: 20_000,
        hold: 40_000,
        stale: Some(604_800_000),
    };
    holds(rt, config.spans() == spans, "spans");
}

#[test]
fn times_are_seconds(rt: HostRuntime) -> Result<(), Fail> {
    let config = Config::read(rt.alloc(), "stale = 604800\nhold = 40\nwindow = 20")?;
    is_timed(&rt, &config);
    Ok(())
}

// Asserts how long the lists of the campus are.
fn are_counted(rt: &impl Abort, config: &Config) {
    is_number(rt, config.clients().len(), 2, "clients");
    is_number(rt, config.pools().len(), 3, "pools");
    is_number(rt, config.users().len(), 13, "users");
    let client = config.clients().find(0xC0A8_0114);
    holds(rt, client == Some(1), "the second client");
}

// Asserts the place of each name.
fn are_placed(rt: &impl Abort, config: &Config) {
    // Names, and the place of each in the campus.
    const ROWS: &[(&str, Option<u32>)] = &[
        ("kay", Some(3)),
        ("Kay", None),
        ("ka", None),
        ("u9", Some(12)),
    ];
    for (name, want) in ROWS.iter() {
        holds(rt, config.user(name.as_bytes()) == *want, name);
    }
}

// Asserts what is found in the campus.
fn is_campus(rt: &impl Abort, config: &Config) {
    are_counted(rt, config);
    are_placed(rt, config);
    is_pool_eight(rt, config);
}

// Asserts the third pool of the campus.
fn is_pool_eight(rt: &impl Abort, config: &Config) {
    if config.pools().len() == 3 {
        let pool = config.pool_at(2);
        are_octets(rt, pool.name.octets(), b"eight", "the pool's name");
        holds(rt, pool.first == 0x0A00_0101, "the pool's first address");
        holds(rt, pool.last == 0x0A00_0108, "the pool's last address");
    }
}

#[test]
fn parts_are_found(rt: HostRuntime) -> Result<(), Fail> {
    let config = Config::read(rt.alloc(), CAMPUS)?;
    is_campus(&rt, &config);
    Ok(())
}

// The place of a name, or one where no user is.
fn place_of(config: &Config, name: &[u8]) -> usize {
    match config.user(name) {
        Some(place) => place as usize,
        None => usize::MAX,
    }
}

// Asserts that each user is found by name.
fn are_found(rt: &impl Abort, config: &Config) {
    for (place, user) in config.users().iter().enumerate() {
        let found = place_of(config, user.name.octets());
        is_number(rt, found, place, "the place of a user's name");
    }
}

// Asserts what a text that may be absent says.
fn is_text(rt: &impl Abort, text: &Option<Text>, want: &[u8], what: &str) {
    match text {
        Some(text) => are_octets(rt, text.octets(), want, what),
        None => holds(rt, false, what),
    }
}

fn user<'a>(config: &'a Config, name: &[u8]) -> Option<&'a User> {
    let place = config.user(name)?;
    Some(config.user_at(place))
}

// Asserts what the campus says of nemo.
fn is_nemo(rt: &impl Abort, nemo: &User) {
    are_octets(rt, nemo.password.octets(), b"arctangent", "password");
    holds(rt, nemo.pool == Some(0), "pool");
    holds(rt, nemo.sessions == 1, "sessions");
    holds(rt, nemo.service == Some(2), "service");
    holds(rt, nemo.protocol == Some(1), "protocol");
    holds(rt, nemo.timeout.is_none(), "no timeout");
    holds(rt, nemo.message.is_none(), "no message");
    holds(rt, nemo.challenge.is_none(), "no challenge");
    holds(rt, nemo.answer.is_none(), "no answer");
    holds(rt, nemo.challenges.is_none(), "no limit of challenges");
    holds(rt, nemo.grants.is_none(), "no limit of grants");
    holds(rt, nemo.reply.size() == 0, "no further attributes");
}

// Asserts what the campus says of kay.
fn is_kay(rt: &impl Abort, kay: &User) {
    holds(rt, kay.pool.is_none(), "no pool");
    is_text(rt, &kay.challenge, b"code?", "challenge");
    is_text(rt, &kay.answer, b"4711", "answer");
}

// Asserts what the campus says of two users.
fn are_nemo_and_kay(rt: &impl Abort, config: &Config) {
    match user(config, b"nemo") {
        Some(nemo) => is_nemo(rt, nemo),
        None => holds(rt, false, "nemo is found"),
    }
    match user(config, b"kay") {
        Some(kay) => is_kay(rt, kay),
        None => holds(rt, false, "kay is found"),
    }
}

#[test]
fn a_user_has_what_the_text_says(rt: HostRuntime) -> Result<(), Fail> {
    let config = Config::read(rt.alloc(), CAMPUS)?;
    are_found(&rt, &config);
    are_nemo_and_kay(&rt, &config);
    Ok(())
}

const LINE_COUNT: usize = 26;

// The lines of a configuration, each with another that says something else.
const LINES: &[(&str, &str); LINE_COUNT] = &[
    ("window = 30", "window = 29"),
    ("hold = 60", "hold = 61"),
    ("stale = 90", "stale = 91"),
    (
        "[[client]]\naddress = \"1.2.3.4\"",
        "[[client]]\naddress = \"1.2.3.5\"",
    ),
    ("secret = \"s\"", "secret = \"t\""),
    (
        "require_message_authenticator = true",
        "require_message_authenticator = false",
    ),
    ("share = 50", "share = 51"),
    ("[[pool]]\nname = \"a\"", "[[pool]]\nname = \"A\""),
    ("first = \"1.0.0.2\"", "first = \"1.0.0.1\""),
    ("last = \"1.0.0.3\"", "last = \"1.0.0.4\""),
    (
        "[[pool]]\nname = \"b\"\nfirst = \"2.0.0.1\"\nlast = \"2.0.0.1\"",
        "",
    ),
    (
        "[[group]]\nname = \"g\"\nreply = [{attribute = 11, value = \"f\"}]",
        "[[group]]\nname = \"g\"\nreply = [{attribute = 11, value = \"F\"}]",
    ),
    (
        "[[group]]\nname = \"h\"\ngroup = \"g\"",
        "[[group]]\nname = \"h\"",
    ),
    ("[[user]]\nname = \"n\"", "[[user]]\nname = \"nn\""),
    ("password = \"p\"", "password = \"q\""),
    ("sessions = 2", "sessions = 3"),
    ("service = 2", ""),
    ("protocol = 1", "protocol = 0"),
    ("timeout = 5", "timeout = 6"),
    ("message = \"m\"", "message = \"M\""),
    ("challenge = \"c\"", "challenge = \"d\""),
    ("answer = \"4711\"", "answer = \"4712\""),
    ("challenges = 2", ""),
    ("grants = 9", "grants = 10"),
    ("group = \"h\"", ""),
    (
        "reply = [{attribute = 62, value = 1}]",
        "reply = [{attribute = 62, value = 2}]",
    ),
];

// The text in which this one line says something else.
fn changed_at(rt: &impl AllocGlobal, place: usize) -> Result<String, AllocError> {
    let mut text = String::new(rt.alloc());
    for (k, (line, other)) in LINES.iter().enumerate() {
        text.push_str(if k == place { other } else { line })?;
        text.push_str("\n")?;
    }
    Ok(text)
}

// The configuration that it is.
fn config_changed_at(rt: &impl AllocGlobal, place: usize) -> Result<Config, Fail> {
    let text = changed_at(rt, place)?;
    Ok(Config::read(rt.alloc(), text.as_str())?)
}

// The line at a place.
fn line_at(place: usize) -> &'static str {
    match LINES.get(place) {
        Some((line, _)) => line,
        None => "",
    }
}

// Asserts whether two configurations are equal, whichever of them is asked.
fn are_same(rt: &impl Abort, config: &Config, other: &Config, want: bool, what: &str) {
    holds(rt, config.same(other) == want, what);
    holds(rt, other.same(config) == want, what);
}

// Asserts that the line at this place counts.
fn differs_at<R: Abort + AllocGlobal>(rt: &R, config: &Config, place: usize) -> Result<(), Fail> {
    let other = config_changed_at(rt, place)?;
    are_same(rt, config, &other, false, line_at(place));
    Ok(())
}

// Asserts that each line counts.
fn differs_at_each<R: Abort + AllocGlobal>(rt: &R, config: &Config) -> Result<(), Fail> {
    for place in 0..LINE_COUNT {
        differs_at(rt, config, place)?;
    }
    Ok(())
}

// Asserts the shares of three clients.
fn are_shared(rt: &impl Abort, config: &Config) {
    holds(rt, config.shares().len() == 3, "three");
    holds(rt, config.share(0).is_none(), "the first has none");
    holds(rt, config.share(1) == Some(60), "the second's");
    holds(rt, config.share(2) == Some(100), "the third's");
    holds(rt, config.share(3).is_none(), "there is no fourth");
}

#[test]
fn clients_have_shares(rt: HostRuntime) -> Result<(), Fail> {
    let config = Config::read(
        rt.alloc(),
        "[[client]]\naddress = \"1.2.3.4\"\nsecret = \"a\"\n\
        [[client]]\naddress = \"1.2.3.5\"\nsecret = \"b\"\nshare = 60\n\
        [[client]]\naddress = \"1.2.3.6\"\nsecret = \"c\"\nshare = 100\n",
    )?;
    are_shared(&rt, &config);
    Ok(())
}

#[test]
fn each_value_is_compared(rt: HostRuntime) -> Result<(), Fail> {
    let config = config_changed_at(&rt, LINE_COUNT)?;
    differs_at_each(&rt, &config)
}

// Asserts whether a text says the same as a configuration.
fn is_compared<R: Abort + AllocGlobal>(
    rt: &R,
    config: &Config,
    text: &str,
    want: bool,
) -> Result<(), Fail> {
    let other = Config::read(rt.alloc(), text)?;
    are_same(rt, config, &other, want, text);
    Ok(())
}

// Asserts the same of each text.
fn are_compared<R: Abort + AllocGlobal>(
    rt: &R,
    config: &Config,
    cases: &[(&str, bool)],
) -> Result<(), Fail> {
    for (text, want) in cases {
        is_compared(rt, config, text, *want)?;
    }
    Ok(())
}

#[test]
fn equal_texts_give_equal_configurations(rt: HostRuntime) -> Result<(), Fail> {
    // Texts, and whether each is the configuration of one plain user.
    const ROWS: &[(&str, bool)] = &[
        ("\n[[user]]\nname = \"n\"\npassword = \"p\"\n", true),
        (
            "hold = 60\n[[user]]\nname = \"n\"\npassword = \"p\"\n",
            true,
        ),
        (
            "stale = 60\n[[user]]\nname = \"n\"\npassword = \"p\"\n",
            false,
        ),
        (
            "\n[[user]]\nname = \"n\"\npassword = \"p\"\nservice_type = 3",
            true,
        ),
        (
            "\n[[user]]\nname = \"n\"\npassword = \"p\"\nsessions = 1",
            true,
        ),
        (
            "\n[[user]]\nname = \"n\"\npassword = \"p\"\nreply = []",
            true,
        ),
        (
            "\n[[user]]\nname = \"n\"\npassword = \"p\"\n[[group]]\nname = \"g\"\ntimeout = 1",
            true,
        ),
        (
            "\n[[user]]\nname = \"n\"\npassword = \"p\"\nreply = [{attribute = 11, value = \"f\"}]",
            false,
        ),
        (
            "\n[[user]]\nname = \"n\"\npassword = \"p\"\ntimeout = 1",
            false,
        ),
        (
            "\n[[user]]\nname = \"n\"\npassword = \"p\"\nmessage = \"m\"",
            false,
        ),
        (
            "\n[[user]]\nname = \"n\"\npassword = \"p\"\nchallenge = \"c\"\nanswer = \"d\"",
            false,
        ),
        (
            "\n[[user]]\nname = \"n\"\npassword = \"p\"\n[[user]]\nname = \"o\"\npassword = \"p\"",
            false,
        ),
        (
            "\n[[user]]\nname = \"n\"\npassword = \"p\"\n[[pool]]\nname = \"b\"\nfirst = \"2.0.0.1\"\nlast = \"2.0.0.2\"",
            false,
        ),
        (
            "\n[[user]]\nname = \"n\"\npassword = \"p\"\n[[client]]\naddress = \"1.2.3.5\"\nsecret = \"s\"",
            false,
        ),
    ];
    let config = Config::read(rt.alloc(), "[[user]]\nname = \"n\"\npassword = \"p\"\n")?;
    are_compared(&rt, &config, ROWS)
}

// Asserts that a text gives back the octets that it was made of.
fn gives_back(rt: &impl Abort, text: &Text, same: &Text) {
    holds(rt, text.same(same), "equal octets are the same text");
    are_octets(rt, text.octets(), b"reef", "the octets");
}

#[test]
fn a_text_gives_its_octets_back(rt: HostRuntime) -> Result<(), Fail> {
    let same = Text::new(Vec::from_slice(rt.alloc(), b"reef")?);
    let text = Text::copy_of(rt.alloc(), b"reef")?;
    gives_back(&rt, &text, &same);
    Ok(())
}
