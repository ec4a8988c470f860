//! A configuration as octets.
ghost use Rattle.rad_config.specs.Configurations.{configuration_of_octets};
ghost use Rattle.rad_config_fault.specs.Faults.{Gives};

use crate::config::Config;
use rad_config_fault::ConfigFault;
use std::alloc::Global;

/// The configuration that octets say, or its first fault. Octets that aren't UTF-8 are `Syntax`.
pub fn read_configuration(alloc: Global, octets: &[u8]) -> Result<Config, ConfigFault>
    ensures { Gives (λ config. config) result (configuration_of_octets octets.now) }
{
    match std::str::from_utf8(octets) {
        Ok(text) => Config::read(alloc, text),
        Err(_) => Err(ConfigFault::Syntax),
    }
}
