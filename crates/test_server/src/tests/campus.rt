//! The configuration of a run, and another one.
use test_common::campus;

/// The campus, and users more: `many` and fifteen more may together have as many sessions as there are, and no address; `coral` has
/// all that keys of their own tell in an Access-Accept, and `marlin` an address of its own in place of its group's pool, and
/// replies of both; the rest have long passwords.
pub(crate) const CAMPUS: &str = campus!(
    r#"
[[pool]]
name = "eight"
first = "10.0.1.1"
last = "10.0.1.8"

[[user]]
name = "many"
password = "p"
sessions = 4096

[[user]]
name = "many1"
password = "p"
sessions = 4096

[[user]]
name = "many2"
password = "p"
sessions = 4096

[[user]]
name = "many3"
password = "p"
sessions = 4096

[[user]]
name = "many4"
password = "p"
sessions = 4096

[[user]]
name = "many5"
password = "p"
sessions = 4096

[[user]]
name = "many6"
password = "p"
sessions = 4096

[[user]]
name = "many7"
password = "p"
sessions = 4096

[[user]]
name = "many8"
password = "p"
sessions = 4096

[[user]]
name = "many9"
password = "p"
sessions = 4096

[[user]]
name = "many10"
password = "p"
sessions = 4096

[[user]]
name = "many11"
password = "p"
sessions = 4096

[[user]]
name = "many12"
password = "p"
sessions = 4096

[[user]]
name = "many13"
password = "p"
sessions = 4096

[[user]]
name = "many14"
password = "p"
sessions = 4096

[[user]]
name = "many15"
password = "p"
sessions = 4096

[[user]]
name = "coral"
password = "p"
pool = "eight"
service = 2
protocol = 1
timeout = 3600
message = "welcome"

[[user]]
name = "sixteen"
password = "0123456789abcdef"

[[user]]
name = "seventeen"
password = "0123456789abcdefg"

[[user]]
name = "longest"
password = "0123456789abcdef0123456789abcdef0123456789abcdef0123456789abcdef0123456789abcdef0123456789abcdef0123456789abcdef0123456789abcdef"

[[group]]
name = "gold"
pool = "eight"
timeout = 600
reply = [{ attribute = "Filter-Id", value = "gold" }]

[[user]]
name = "marlin"
password = "p"
group = "gold"
address = "10.0.3.7"
message = "hi"
reply = [{ vendor = 9, attribute = 1, value = "x" }]
"#
);

/// Another configuration: the first client alone.
pub(crate) const HAMLET: &str = r#"
[[client]]
address = "192.168.1.16"
secret = "xyzzy5461"
"#;
