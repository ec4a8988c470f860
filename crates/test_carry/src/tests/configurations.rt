//! Configurations, in parts.
use rad_config::Config;
use std::alloc::Global;

/// The parts of a configuration's text.
#[derive(Clone, Copy)]
pub(crate) struct Text {
    pub spans: &'static str,
    pub clients: &'static str,
    pub pools: &'static str,
    pub users: &'static str,
}

impl Text {
    pub fn config(&self, alloc: Global) -> Option<Config> {
        let Text {
            spans,
            clients,
            pools,
            users,
            ..
        } = *self;
        let text = format!(in alloc; "{spans}{clients}{pools}{users}").ok()?;
        Config::read(alloc, &text).ok()
    }
}

pub(crate) const SPANS: &str = "window = 30\nhold = 60\n";

pub(crate) const CLIENTS: &str = r#"
[[client]]
address = "192.168.1.16"
secret = "xyzzy5461"
[[client]]
address = "192.168.1.0/24"
secret = "second"
"#;

pub(crate) const SWAPPED_CLIENTS: &str = r#"
[[client]]
address = "192.168.1.0/24"
secret = "second"
[[client]]
address = "192.168.1.16"
secret = "xyzzy5461"
"#;

pub(crate) const FIRST_CLIENT: &str = r#"
[[client]]
address = "192.168.1.16"
secret = "xyzzy5461"
"#;

pub(crate) const CLOSER_CLIENTS: &str = r#"
[[client]]
address = "192.168.1.16"
secret = "xyzzy5461"
[[client]]
address = "192.168.1.0/24"
secret = "second"
[[client]]
address = "192.168.1.20"
secret = "third"
"#;

pub(crate) const SHARED_CLIENTS: &str = r#"
[[client]]
address = "192.168.1.16"
secret = "xyzzy5461"
share = 1
[[client]]
address = "192.168.1.0/24"
secret = "second"
"#;

pub(crate) const POOLS: &str = r#"
[[pool]]
name = "one"
first = "10.0.0.1"
last = "10.0.0.1"
[[pool]]
name = "two"
first = "10.0.2.1"
last = "10.0.2.2"
"#;

pub(crate) const RENAMED_POOLS: &str = r#"
[[pool]]
name = "one"
first = "10.0.2.1"
last = "10.0.2.2"
[[pool]]
name = "two"
first = "10.0.0.1"
last = "10.0.0.1"
"#;

pub(crate) const MOVED_POOLS: &str = r#"
[[pool]]
name = "one"
first = "10.0.0.1"
last = "10.0.0.1"
[[pool]]
name = "two"
first = "10.0.2.2"
last = "10.0.2.3"
"#;

pub(crate) const DISTANT_POOLS: &str = r#"
[[pool]]
name = "one"
first = "10.0.3.1"
last = "10.0.3.1"
[[pool]]
name = "two"
first = "10.0.2.1"
last = "10.0.2.2"
"#;

pub(crate) const USERS: &str = r#"
[[user]]
name = "nemo"
password = "arctangent"
pool = "one"
[[user]]
name = "bruce"
password = "shark"
pool = "two"
sessions = 2
[[user]]
name = "kay"
password = "pw"
challenge = "code?"
answer = "4711"
"#;

pub(crate) const TURNED_USERS: &str = r#"
[[user]]
name = "kay"
password = "pw"
challenge = "code?"
answer = "4711"
[[user]]
name = "bruce"
password = "shark"
pool = "two"
sessions = 2
[[user]]
name = "nemo"
password = "arctangent"
pool = "one"
"#;

pub(crate) const USERS_OF_RENAMED_POOLS: &str = r#"
[[user]]
name = "nemo"
password = "arctangent"
pool = "two"
[[user]]
name = "bruce"
password = "shark"
pool = "one"
sessions = 2
[[user]]
name = "kay"
password = "pw"
challenge = "code?"
answer = "4711"
"#;

pub(crate) const RENAMED_USERS: &str = r#"
[[user]]
name = "marlin"
password = "arctangent"
pool = "one"
[[user]]
name = "bruce"
password = "shark"
pool = "two"
sessions = 2
[[user]]
name = "kay"
password = "pw"
challenge = "code?"
answer = "4711"
"#;

pub(crate) const LIMITED_USERS: &str = r#"
[[user]]
name = "nemo"
password = "arctangent"
pool = "one"
[[user]]
name = "bruce"
password = "shark"
pool = "two"
sessions = 1
[[user]]
name = "kay"
password = "pw"
challenge = "code?"
answer = "4711"
"#;

pub(crate) const UNCHALLENGED_USERS: &str = r#"
[[user]]
name = "nemo"
password = "arctangent"
pool = "one"
[[user]]
name = "bruce"
password = "shark"
pool = "two"
sessions = 2
[[user]]
name = "kay"
password = "pw"
"#;

pub(crate) const OTHER_USERS: &str = r#"
[[user]]
name = "marlin"
password = "arctangent"
pool = "one"
"#;

/// The configuration that rows are carried from.
pub(crate) const OLD: Text = Text {
    spans: SPANS,
    clients: CLIENTS,
    pools: POOLS,
    users: USERS,
};
