//! The names of numbers in accounting.
ghost use Rattle.std.specs.Prelude.{◌≡◌, option_copied};
ghost use Rattle.rad_export.specs.Names.{cause_name, status_name};

/// The name of an Acct-Status-Type (RFC 2866, section 5.1).
pub(crate) fn status_name(status: i64) -> Option<&'static str>
    ensures { option_copied result ≡ status_name status }
{
    match status {
        1 => Some("Start"),
        2 => Some("Stop"),
        3 => Some("Interim-Update"),
        7 => Some("Accounting-On"),
        8 => Some("Accounting-Off"),
        _ => None,
    }
}

/// The name of an Acct-Terminate-Cause (RFC 2866, section 5.10).
pub(crate) fn cause_name(cause: i64) -> Option<&'static str>
    ensures { option_copied result ≡ cause_name cause }
{
    match cause {
        1 => Some("User-Request"),
        2 => Some("Lost-Carrier"),
        3 => Some("Lost-Service"),
        4 => Some("Idle-Timeout"),
        5 => Some("Session-Timeout"),
        6 => Some("Admin-Reset"),
        7 => Some("Admin-Reboot"),
        8 => Some("Port-Error"),
        9 => Some("NAS-Error"),
        10 => Some("NAS-Request"),
        11 => Some("NAS-Reboot"),
        12 => Some("Port-Unneeded"),
        13 => Some("Port-Preempted"),
        14 => Some("Port-Suspended"),
        15 => Some("Service-Unavailable"),
        16 => Some("Callback"),
        17 => Some("User-Error"),
        18 => Some("Host-Request"),
        _ => None,
    }
}
