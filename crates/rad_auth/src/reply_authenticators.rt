//! The HMACs and digests of eight replies, computed side by side.
ghost use Rattle.std.specs.Prelude.{◌≡◌, ◌<◌, ◌-◌, length, map, IfSome};
ghost use Rattle.rad_hmac.specs.Hmac.{text_limit};
ghost use Rattle.rad_md5.specs.Pieces.{HasFreePiece, message};
ghost use Rattle.rad_auth.specs.ReplyLanes.{AreReplyDigests, AreReplyHmacs, IsKeyOf, HasDigestedText, HasReplyHmac};
ghost use Rattle.rad_auth.specs.ReplyLanes.{HasReplyHmacText, IsReplyHmac, has_hmac, header_octets, lane_header};
ghost use Rattle.rad_packet.specs.Bodies.{FitsPacket};
ghost use Rattle.rad_auth.specs.Sealing.{AreJobs, IsJob};

use crate::authenticators::{SIXTEEN_ZEROS, nothing};
use crate::job::Job;
use rad_hmac::{Key, hmac_some};
use rad_md5::{DIGEST_LEN, LANES, Pieces, digest_some, each_lane};
use rad_packet::attribute::MESSAGE_AUTHENTICATOR;
use rad_packet::{HEADER_SIZE, code};

// The octets of a Message-Authenticator attribute.
const HMAC_SIZE: usize = 2 + DIGEST_LEN;

// Its Type and Length.
const HMAC_FRONT: [u8; 2] = [MESSAGE_AUTHENTICATOR, HMAC_SIZE as u8];

/// The headers of replies, with the Request Authenticator in the Authenticator field.
pub(crate) fn headers(jobs: &[Option<Job>; LANES]) -> [[u8; HEADER_SIZE]; LANES]
    requires { AreJobs jobs.now }
    ensures { result ≡ map lane_header jobs.now }
{
    each_lane!(job of jobs => lane_header(job))
}

fn lane_header(job: &Option<Job>) -> [u8; HEADER_SIZE]
    requires { IfSome job.now IsJob }
    ensures { result ≡ lane_header job.now }
{
    match job {
        None => [0; HEADER_SIZE],
        Some(job) => header(job),
    }
}

fn header(job: &Job) -> [u8; HEADER_SIZE]
    requires { FitsPacket job.now.body.now }
    ensures { result ≡ header_octets job.now }
{
    let [high, low] = ((HEADER_SIZE + job.body.size()) as u16).to_be_bytes();
    let mut header = [0; HEADER_SIZE];
    header[..4].copy_from_slice(&[job.body.code(), job.id, high, low]);
    header[4..].copy_from_slice(&job.request_authenticator);
    header
}

/// The Message-Authenticators of replies.
pub(crate) fn reply_hmacs<'x>(
    jobs: &'x [Option<Job<'x>>; LANES],
    headers: &'x [[u8; HEADER_SIZE]; LANES],
    no_key: &'x Key,
) -> [[u8; DIGEST_LEN]; LANES]
    requires jobs { AreJobs jobs.now }
    requires headers { headers.now ≡ map lane_header jobs.now }
    ensures { AreReplyHmacs jobs.now result }
{
    if !jobs.iter().any(has_hmac) {
        return [SIXTEEN_ZEROS; LANES];
    }
    let (keyed, wanted) = each_lane!(
        j, job of jobs => (key(job, no_key), hmac_text(job, &headers[j])), has_hmac(job)
    );
    hmac_some(&keyed, &wanted)
}

// Whether a reply has a Message-Authenticator.
fn has_hmac(job: &Option<Job>) -> bool
    ensures { result ≡ has_hmac job.now }
{
    match job {
        None => false,
        Some(job) => job.body.code() != code::ACCOUNTING_RESPONSE,
    }
}

// The key for a lane.
fn key<'x>(job: &'x Option<Job<'x>>, no_key: &'x Key) -> &'x Key
    ensures { IfSome job.now (IsKeyOf result.now) }
{
    match job {
        None => no_key,
        Some(job) => job.secret.key(),
    }
}

// The message of a lane's HMAC.
fn hmac_text<'x>(job: &'x Option<Job<'x>>, header: &'x [u8; HEADER_SIZE]) -> Pieces<'x>
    requires job { IfSome job.now IsJob }
    requires header { header.now ≡ lane_header job.now }
    ensures text { IfSome job.now (HasReplyHmacText (message result)) }
    ensures free { HasFreePiece result }
    ensures short { length (message result) < text_limit }
{
    match job {
        None => nothing(),
        Some(job) => hmac_reply(job, header),
    }
}

// A reply with zeros in its Message-Authenticator, if it has one.
fn hmac_reply<'x>(job: &'x Job<'x>, header: &'x [u8; HEADER_SIZE]) -> Pieces<'x>
    requires job { IsJob job.now }
    requires header { header.now ≡ header_octets job.now }
    ensures text { HasReplyHmacText (message result) job.now }
    ensures free { HasFreePiece result }
    ensures short { length (message result) < text_limit }
{
    if job.body.code() == code::ACCOUNTING_RESPONSE {
        return nothing();
    }
    let others = &job.body.attributes_octets()[HMAC_SIZE..];
    Pieces::of([header, &HMAC_FRONT, &SIXTEEN_ZEROS, others, &[]])
}

/// The Response Authenticators of replies.
pub(crate) fn reply_digests(
    jobs: &[Option<Job>; LANES],
    headers: &[[u8; HEADER_SIZE]; LANES],
    macs: &[[u8; DIGEST_LEN]; LANES],
) -> [[u8; DIGEST_LEN]; LANES]
    requires jobs { AreJobs jobs.now }
    requires headers { headers.now ≡ map lane_header jobs.now }
    requires macs { AreReplyHmacs jobs.now macs.now }
    ensures { AreReplyDigests jobs.now result }
{
    let (texts, wanted) =
        each_lane!(j, job of jobs => digested_text(job, &headers[j], &macs[j]), job.is_some());
    digest_some(&texts, &wanted)
}

// The message of a lane's digest.
fn digested_text<'x>(
    job: &'x Option<Job<'x>>,
    header: &'x [u8; HEADER_SIZE],
    mac: &'x [u8; DIGEST_LEN],
) -> Pieces<'x>
    requires job { IfSome job.now IsJob }
    requires header { header.now ≡ lane_header job.now }
    requires mac { IsReplyHmac job.now mac.now }
    ensures { IfSome job.now (HasDigestedText (message result)) }
{
    match job {
        None => nothing(),
        Some(job) => digested_reply(job, header, mac),
    }
}

// A reply with its Message-Authenticator, if it has one, and then the secret.
fn digested_reply<'x>(
    job: &'x Job<'x>,
    header: &'x [u8; HEADER_SIZE],
    mac: &'x [u8; DIGEST_LEN],
) -> Pieces<'x>
    requires job { IsJob job.now }
    requires header { header.now ≡ header_octets job.now }
    requires mac { HasReplyHmac mac.now job.now }
    ensures { HasDigestedText (message result) job.now }
{
    let attributes = job.body.attributes_octets();
    let secret = job.secret.octets();
    if job.body.code() == code::ACCOUNTING_RESPONSE {
        return Pieces::of([header, attributes, secret, &[], &[]]);
    }
    Pieces::of([header, &HMAC_FRONT, mac, &attributes[HMAC_SIZE..], secret])
}
