//! Reading clients.
ghost use Rattle.std.specs.Prelude.{◌≡◌, false, IfOk};
ghost use Rattle.rad_auth.specs.Clients.{IsSecret, has_network};
ghost use Rattle.rad_config.specs.Configurations.{client_in};
ghost use Rattle.rad_config_fault.specs.Faults.{Gives};
ghost use Rattle.rad_config.specs.Networks.{IsNetwork};
ghost use Rattle.rad_config.specs.ReadEntries.{entry_client};
ghost use Rattle.rad_config.specs.Views.{entry_data};

use crate::entry::Entry;
use crate::keys::{CLIENT_ADDRESS, CLIENT_SECRET, REQUIRE_MESSAGE_AUTHENTICATOR};
use crate::network::Network;
use rad_auth::Clients;
use rad_config_fault::{ConfigFault, Key};

/// What an entry says of a client.
#[derive(Clone, Copy)]
pub struct ClientEntry<'a> {
    pub network: Network,
    pub secret: &'a [u8],
    pub require_message_authenticator: bool,
}

/// The client that an entry says, whose network no earlier one has.
#[tactic(auto, unfolding(crate::specs::Configurations::client_in))]
pub fn read_client<'a>(earlier: &Clients, entry: &Entry<'a>) -> Result<ClientEntry<'a>, ConfigFault>
    ensures read { Gives entry_client result (client_in earlier.now (entry_data entry.now)) }
    ensures fits { IfOk result (λ client. IsNetwork client.network) }
    ensures new { IfOk result
        (λ client. has_network earlier.now client.network.address client.network.prefix ≡ false) }
    ensures secret { IfOk result (λ client. IsSecret client.secret.now) }
{
    let network = entry.network(&CLIENT_ADDRESS)?;
    if earlier.has_network(network.address, network.prefix) {
        return Err(ConfigFault::BadValue(entry.spot(Key::Address)));
    }
    let secret = entry.required_text(&CLIENT_SECRET)?;
    let require_message_authenticator = entry.flag_or_default(&REQUIRE_MESSAGE_AUTHENTICATOR)?;
    Ok(ClientEntry {
        network,
        secret,
        require_message_authenticator,
    })
}
