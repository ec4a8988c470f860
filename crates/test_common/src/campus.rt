//! Configurations.

/// The text of a configuration, which `$more` continues: two clients, two pools and four users, of whom `nemo` and `dory` share a
/// pool of one address, `bruce` has two sessions and two addresses, and `kay` is challenged and has no pool.
#[macro_export]
macro_rules! campus {
    ($more:literal) => {
        concat!(
            r#"
window = 30
hold = 60

[[client]]
address = "192.168.1.16"
secret = "xyzzy5461"

[[client]]
address = "192.168.1.20"
secret = "second"

[[pool]]
name = "one"
first = "10.0.0.1"
last = "10.0.0.1"

[[pool]]
name = "two"
first = "10.0.2.1"
last = "10.0.2.2"

[[user]]
name = "nemo"
password = "arctangent"
pool = "one"
service = 2
protocol = 1

[[user]]
name = "dory"
password = "reef"
pool = "one"

[[user]]
name = "bruce"
password = "shark"
pool = "two"
sessions = 2

[[user]]
name = "kay"
password = "pw"
challenge = "code?"
answer = "4711"
"#,
            $more
        )
    };
}

/// The campus, and nine users more, who share eight addresses.
pub const CAMPUS: &str = campus!(
    r#"
[[pool]]
name = "eight"
first = "10.0.1.1"
last = "10.0.1.8"

[[user]]
name = "u1"
password = "p"
pool = "eight"

[[user]]
name = "u2"
password = "p"
pool = "eight"

[[user]]
name = "u3"
password = "p"
pool = "eight"

[[user]]
name = "u4"
password = "p"
pool = "eight"

[[user]]
name = "u5"
password = "p"
pool = "eight"

[[user]]
name = "u6"
password = "p"
pool = "eight"

[[user]]
name = "u7"
password = "p"
pool = "eight"

[[user]]
name = "u8"
password = "p"
pool = "eight"

[[user]]
name = "u9"
password = "p"
pool = "eight"
"#
);
