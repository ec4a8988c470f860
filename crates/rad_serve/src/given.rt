//! What the options of `serve` name, read.
ghost use Rattle.std.specs.Prelude.{◌≡◌, Ok};
ghost use Rattle.rad_config.specs.Configurations.{configuration_of_octets};

use crate::given_fault::GivenFault;
use crate::input::{open_seed, open_source};
use crate::options::Options;
use rad_check::{Source, warn, warn_of_file};
use rad_config::{Config, read_configuration};
use rad_server::HashKey;
use rand_chacha::ChaCha20Rng;
use rand_core::{Rng, SeedableRng};
use std::alloc::AllocGlobal;
use std::rt::Files;

/// What the options of `serve` name, read: the configuration and the seed; and what may be wrong with them.
#[derive(Drop)]
pub struct Given {
    pub(crate) text: Vec<u8>,
    pub(crate) config: Config,
    pub(crate) seed: [u8; 32],
    // Lines that nobody has been told yet.
    pub(crate) warnings: String,
    ghost reads: { configuration_of_octets text.items ≡ Ok config },
}

impl Given {
    /// Reads the configuration and the seed.
    ///
    /// `Unreadable`, `Users`, `Config`: the configuration can't be read, or has a fault; then `Unreadable`: the seed can't be read.
    pub fn read<R: Files + Eprint + AllocGlobal>(
        rt: &R,
        options: &Options,
    ) -> Result<Given, GivenFault> {
        let source = open_source(rt, &options.config)?;
        let config = match read_configuration(rt.alloc(), &source.text) {
            Ok(config) => config,
            Err(fault) => return Err(GivenFault::of_source(rt.alloc(), source, fault)),
        };
        let mut warnings = String::new(rt.alloc());
        if options.reports.log.is_some() {
            warn(&mut warnings, rt, &options.config, &source, &config);
            warn_of_file(&mut warnings, rt, &options.seed);
            if let Some(folder) = &options.state {
                warn_of_file(&mut warnings, rt, folder);
            }
        }
        let Source { text, .. } = source;
        match open_seed(rt, &options.seed) {
            Ok(seed) => Ok(Given {
                text,
                config,
                seed,
                warnings,
            }),
            Err(fault) => {
                let _ = eprint!(rt; "{warnings}");
                Err(fault)
            }
        }
    }
}

/// The random source of a life, and the key of the tables' hashes: its first 16 octets.
///
/// `generation` is the number of the life's first generation. Each number has a stream of its own, so that no life draws what one
/// before it has drawn for a reply.
pub(crate) fn random_of(seed: [u8; 32], generation: u32) -> (ChaCha20Rng, HashKey) {
    let mut random = ChaCha20Rng::from_seed(seed);
    random.set_stream(u64::from(generation));
    let key = HashKey {
        low: random.next_u64(),
        high: random.next_u64(),
    };
    (random, key)
}
