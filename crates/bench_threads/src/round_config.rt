//! The configuration of rounds.

use rad_config::Config;
use std::alloc::Global;

// A reply is kept for 512 seconds, and a session without a Start lives as long. The client has sixteen addresses, and the pool
// 65,536.
const HEAD: &str = "window = 512\nhold = 512\n\
    [[client]]\naddress = \"192.168.1.16/28\"\nsecret = \"xyzzy5461\"\n\
    [[pool]]\nname = \"hall\"\nfirst = \"10.0.0.0\"\nlast = \"10.0.255.255\"\n";

// The last letters of the names of sixteen users, who may have 4,096 sessions each.
const LETTERS: &str = "ABCDEFGHIJKLMNOP";

pub(crate) fn read_config(alloc: Global) -> Option<Config> {
    let text = configuration(alloc)?;
    Config::read(alloc, text.as_str()).ok()
}

fn configuration(alloc: Global) -> Option<String> {
    let mut text = format!(in alloc; "{HEAD}").ok()?;
    for letter in LETTERS.chars() {
        let user = user(alloc, letter)?;
        text.push_str(user.as_str()).ok()?;
    }
    Some(text)
}

fn user(alloc: Global, letter: char) -> Option<String> {
    format!(in alloc;
        "[[user]]\nname = \"user{letter}\"\npassword = \"a good password\"\nsessions = 4096\npool = \"hall\"\n\
        service = 2\nprotocol = 1\ntimeout = 3600\n"
    )
    .ok()
}
