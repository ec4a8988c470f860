//! Calls on clients and texts, and those that read a configuration.

use crate::trial::{Called, Trial, Verdict, are_alike, judge, keep};
use rad_auth::{CLIENTS_MAX, ClientFault, Clients, PREFIX_MAX, network_fits};
use rad_config::{Config, ConfigFault, Text, read_configuration};
use std::alloc::Global;
use test_common::CAMPUS;

#[derive(Clone, Copy)]
pub(crate) enum Call {
    Add,
    TextCopy,
    ConfigRead,
    /// One with groups and replies is read.
    GroupsRead,
    /// A configuration is read from octets.
    ConfigurationRead,
}

pub(crate) fn judge_call(alloc: Global, call: Call) -> Verdict {
    match call {
        Call::Add => judge(alloc, Some(ClientsTrial::new(alloc))),
        Call::TextCopy => judge(alloc, Some(TextTrial { alloc, given: None })),
        Call::ConfigRead | Call::GroupsRead | Call::ConfigurationRead => {
            judge(alloc, Some(ConfigTrial::new(alloc, call)))
        }
    }
}

/// Two groups and two users, each with a reply but for the second user.
const GROUPS: &str = r#"
[[group]]
name = "staff"
timeout = 3600
reply = [{attribute = "Filter-Id", value = "staff"}, {vendor = 9, attribute = 1, value = "shell:priv-lvl=1"}]

[[group]]
name = "admin"
group = "staff"
reply = [{attribute = "Framed-IPv6-Prefix", value = "2001:db8::/32"}]

[[user]]
name = "nemo"
password = "arctangent"
group = "admin"
message = "welcome"
reply = [{attribute = "Tunnel-Type", tag = 1, value = "VLAN"}, {attribute = 200, hex = "00ff"}]

[[user]]
name = "dory"
password = "reef"
group = "staff"
"#;

/// The first client is added.
#[derive(Drop)]
struct ClientsTrial {
    alloc: Global,
    clients: Clients,
}

impl ClientsTrial {
    fn new(alloc: Global) -> ClientsTrial {
        ClientsTrial {
            alloc,
            clients: Clients::new(alloc),
        }
    }
}

impl Trial for ClientsTrial {
    fn copy(&self) -> Option<ClientsTrial> {
        Some(ClientsTrial::new(self.alloc))
    }

    fn is_like(&self, other: &ClientsTrial) -> bool {
        self.clients.same(&other.clients)
    }

    fn call(&mut self) -> Called {
        if self.clients.len() >= CLIENTS_MAX || !network_fits(0xC0A8_0110, PREFIX_MAX) {
            return Called::Failed;
        }
        match self
            .clients
            .add(0xC0A8_0110, PREFIX_MAX, b"xyzzy5461", true)
        {
            Ok(()) => Called::Done,
            Err(ClientFault::NoMemory) => Called::Refused,
            Err(ClientFault::Doubled) => Called::Failed,
        }
    }
}

#[derive(Drop)]
struct TextTrial {
    alloc: Global,
    given: Option<Text>,
}

impl Trial for TextTrial {
    fn copy(&self) -> Option<TextTrial> {
        Some(TextTrial {
            alloc: self.alloc,
            given: None,
        })
    }

    fn is_like(&self, other: &TextTrial) -> bool {
        are_alike(&self.given, &other.given, Text::same)
    }

    fn call(&mut self) -> Called {
        keep(&mut self.given, Text::copy_of(self.alloc, b"nemo"))
    }
}

#[derive(Drop)]
struct ConfigTrial {
    alloc: Global,
    call: Call,
    given: Option<Config>,
}

impl ConfigTrial {
    fn new(alloc: Global, call: Call) -> ConfigTrial {
        ConfigTrial {
            alloc,
            call,
            given: None,
        }
    }

    fn read(&self) -> Result<Config, ConfigFault> {
        match self.call {
            Call::ConfigurationRead => read_configuration(self.alloc, CAMPUS.as_bytes()),
            Call::GroupsRead => Config::read(self.alloc, GROUPS),
            _ => Config::read(self.alloc, CAMPUS),
        }
    }
}

impl Trial for ConfigTrial {
    fn copy(&self) -> Option<ConfigTrial> {
        Some(ConfigTrial::new(self.alloc, self.call))
    }

    fn is_like(&self, other: &ConfigTrial) -> bool {
        are_alike(&self.given, &other.given, Config::same)
    }

    fn call(&mut self) -> Called {
        match self.read() {
            Ok(config) => keep(&mut self.given, Ok(config)),
            Err(ConfigFault::NoMemory) => Called::Refused,
            Err(_) => Called::Failed,
        }
    }
}
