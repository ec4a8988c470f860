//! Datagrams that come to ports in memory, and turns over them.
use rad_auth::Door;
use rad_packet::Packet;
use rad_packet::attribute::STATE;
use rad_packet::code::ACCESS_CHALLENGE;
use rad_shell::{Datagram, MemoryPorts, OpenGate, Passed, ServeFault, Served, Service, run_rounds};
use rand_chacha::ChaCha20Rng;
use rand_core::{Rng, SeedableRng};
use std::alloc::{AllocError, Global};
use std::sync::Wait;
use std::thread::Threads;
use test_common::{CLIENT, PORT};

/// The seed of the draws.
const SEED: [u8; 32] = [7; 32];

/// The draws, from the first on.
pub(crate) fn random() -> ChaCha20Rng {
    ChaCha20Rng::from_seed(SEED)
}

/// Whether just so many draws were taken of a source that began as `random` does.
pub(crate) fn is_after(mut source: ChaCha20Rng, draws: usize) -> bool {
    let mut other = random();
    let mut draw = [0; 16];
    for _ in 0..draws {
        other.fill_bytes(&mut draw);
    }
    source.next_u64() == other.next_u64()
}

/// Makes so many turns, with two workers allowed.
pub(crate) fn serve<R: Threads + Wait + Sync>(
    rt: &R,
    service: &mut Service,
    ports: &mut MemoryPorts,
    random: &mut ChaCha20Rng,
    rounds: u32,
) -> Result<Served, ServeFault> {
    run_rounds(service, rt, ports, random, &OpenGate, rounds, 2)
}

/// Lets octets come to the authentication port.
pub(crate) fn arrive(
    alloc: Global,
    ports: &mut MemoryPorts,
    address: u32,
    moment: u64,
    octets: &[u8],
) -> Result<(), AllocError> {
    let octets = octets.to_vec(alloc)?;
    ports.arrive(Datagram {
        turn: 0,
        address,
        port: PORT,
        door: Door::Auth,
        moment,
        octets,
    })
}

/// The same octets, so many times.
pub(crate) fn arrive_often(
    alloc: Global,
    ports: &mut MemoryPorts,
    address: u32,
    octets: &[u8],
    count: u32,
) -> Result<(), AllocError> {
    for _ in 0..count {
        arrive(alloc, ports, address, 0, octets)?;
    }
    Ok(())
}

/// Whether the datagrams that were sent are Access-Challenges to the first client: one for each number from 1 on, with the draws of
/// a source that begins again.
pub(crate) fn are_challenges(ports: &MemoryPorts, numbers: &[u64]) -> bool {
    let mut random = random();
    let mut wanted = numbers.iter();
    for passed in ports.passed() {
        let Passed::Out(sent) = passed else {
            continue;
        };
        let mut draw = [0; 16];
        random.fill_bytes(&mut draw);
        match wanted.next() {
            Some(number) if is_challenge(sent, *number, &draw) => (),
            _ => return false,
        }
    }
    wanted.next().is_none()
}

/// How many datagrams were sent.
pub(crate) fn sent_count(ports: &MemoryPorts) -> usize {
    ports
        .passed()
        .iter()
        .filter(|passed| matches!(passed, Passed::Out(_)))
        .count()
}

fn is_challenge(sent: &Datagram, number: u64, draw: &[u8; 16]) -> bool {
    if sent.address != CLIENT || sent.port != PORT || sent.door != Door::Auth {
        return false;
    }
    let Ok(packet) = Packet::read(&sent.octets) else {
        return false;
    };
    let Some(state) = packet.first(STATE) else {
        return false;
    };
    let Some((first, second)) = state.split_at_checked(8) else {
        return false;
    };
    packet.code() == ACCESS_CHALLENGE
        && first == number.to_be_bytes().as_slice()
        && second == draw.as_slice()
}

/// Whether turns ended with these sums, and no others.
pub(crate) fn is_sum(
    ended: Result<Served, ServeFault>,
    rounds: u64,
    datagrams: u64,
    replies: u64,
    drops: u64,
) -> bool {
    ended
        == Ok(Served {
            rounds,
            datagrams,
            replies,
            drops,
            busy: 0,
            nomemory: 0,
            failed: 0,
        })
}
