//! Sealing: the octets of replies, and of requests, under a secret.
ghost use Rattle.std.specs.Prelude.{◌≡◌, ◌↔◌, ◌+◌, ◌<◌, ◌≤◌, ◌-◌, length, IsOk, IfSome, OnOk, OnErr};
ghost use Rattle.rad_hmac.specs.Hmac.{mac_under, text_limit};
ghost use Rattle.rad_md5.specs.Pieces.{HasFreePiece, message};
ghost use Rattle.rad_packet.specs.Bodies.{FitsPacket};
ghost use Rattle.rad_auth.specs.Summaries.{hmac_before, with_hmac};
ghost use Rattle.rad_auth.specs.ReplyLanes.{HasReplyDigest, HasReplyHmac, IsReplyDigest, IsReplyHmac};
ghost use Rattle.rad_auth.specs.Authenticators.{response_authenticator};
ghost use Rattle.rad_auth.specs.Sealing.{AreJobs, BeginsOtherwise, IsJob, IsRequestCode, job_octets, lane_octets, request_octets};
ghost use Rattle.rad_auth.specs.Sealing.{sealed};

use crate::authenticators::{SIXTEEN_ZEROS, body_digest, hmac_pieces};
use crate::job::Job;
use crate::reply_authenticators::{headers, reply_digests, reply_hmacs};
use crate::secret::Secret;
use crate::summary::Summary;
use rad_hmac::{Key, hmac_one};
use rad_md5::{DIGEST_LEN, LANES};
use rad_packet::{Body, Frame, HEADER_SIZE, LENGTH_MAX, TooLong, code, write};

/// The Response Authenticator of a reply.
///
/// The reply has at most 4,096 octets, and its first attribute is no Message-Authenticator. Source: RFC 2865, section 3.
pub fn response_authenticator(
    body: &Body,
    identifier: u8,
    request_authenticator: &[u8; 16],
    secret: &Secret,
) -> [u8; 16]
    requires fits { FitsPacket body.now }
    requires begins { BeginsOtherwise body.now.attributes }
    ensures { result
        ≡ response_authenticator body.now identifier request_authenticator.now secret.now }
{
    body_digest(body, identifier, request_authenticator, secret.octets())
}

/// Writes each job's reply into the frame of its lane, and leaves the other frames.
///
/// Each reply has at most 4,096 octets. An Accounting-Response has no Message-Authenticator; an Access-Accept,
/// Access-Reject or Access-Challenge begins with one of 16 octets, which are not looked at, and has no second.
/// Source: RFC 2865, section 3; RFC 3579, section 3.2.
pub fn seal8(jobs: &[Option<Job>; 8], frames: &mut [Frame; 8])
    requires { AreJobs jobs.now }
    ensures { frames.new ≡ sealed jobs.now frames.old }
{
    let headers = headers(jobs);
    let no_key = Key::new(&[]);
    let macs = reply_hmacs(&*jobs, &headers, &no_key);
    let digests = reply_digests(jobs, &headers, &macs);
    'lanes: for lane in 0..LANES {
        seal_lane(&jobs[lane], &macs[lane], &digests[lane], &mut frames[lane]);
    }
}

fn seal_lane(
    job: &Option<Job>,
    mac: &[u8; DIGEST_LEN],
    authenticator: &[u8; DIGEST_LEN],
    frame: &mut Frame,
)
    requires job { IfSome job.now IsJob }
    requires mac { IsReplyHmac job.now mac.now }
    requires authenticator { IsReplyDigest job.now authenticator.now }
    ensures { frame.new ≡ lane_octets job.now frame.old }
{
    if let Some(job) = job {
        seal(job, mac, authenticator, frame);
    }
}

fn seal(job: &Job, mac: &[u8; DIGEST_LEN], authenticator: &[u8; DIGEST_LEN], frame: &mut Frame)
    requires job { IsJob job.now }
    requires mac { HasReplyHmac mac.now job.now }
    requires authenticator { HasReplyDigest authenticator.now job.now }
    ensures { frame.new ≡ job_octets job.now }
{
    write(job.body, job.id, authenticator, frame).unwrap();
    if job.body.code() != code::ACCOUNTING_RESPONSE {
        frame.overwrite(HEADER_SIZE + 2, mac);
    }
}

/// Writes a request with this body.
///
/// An Accounting-Request gets its Authenticator under the secret, and the argument isn't used. An Access-Request or a
/// Status-Server gets the argument, and its first Message-Authenticator of 16 octets, if it has one, is computed. Returns
/// `TooLong` if and only if the packet would exceed 4,096 octets, and then the frame is unchanged. Source: RFC 2866,
/// section 3; RFC 3579, section 3.2; RFC 5997, section 3.
pub fn sign_request(
    body: &Body,
    identifier: u8,
    authenticator: &[u8; 16],
    secret: &Secret,
    frame: &mut Frame,
) -> Result<(), TooLong>
    requires code { IsRequestCode body.now.code }
    ensures fits { IsOk result ↔ FitsPacket body.now }
    ensures signed { OnOk result
        (frame.new ≡ request_octets body.now identifier authenticator.now secret.now) }
    ensures unchanged { OnErr result (frame.new ≡ frame.old) }
{
    if body.size() > LENGTH_MAX - HEADER_SIZE {
        return Err(TooLong);
    }
    if body.code() == code::ACCOUNTING_REQUEST {
        let authenticator = body_digest(body, identifier, &SIXTEEN_ZEROS, secret.octets());
        return write(body, identifier, &authenticator, frame);
    }
    write(body, identifier, authenticator, frame)?;
    if let Some(after) = Summary::of(body.attributes()).octets_after_hmac {
        put_hmac(frame, after, secret);
    }
    Ok(())
}

// Computes the HMAC of the packet in a frame, and writes it before the last so many octets.
fn put_hmac(frame: &mut Frame, after: usize, secret: &Secret)
    requires place { after + 16 ≤ length frame.old }
    ensures written { frame.new
        ≡ with_hmac after (hmac_before after secret.now frame.old) frame.old }
    ensures long { length (hmac_before after secret.now frame.old) ≡ 16 }
{
    let octets = frame.octets();
    let place = octets.len() - after - DIGEST_LEN;
    let mac = hmac_one(secret.key(), &hmac_pieces(octets, after));
    frame.overwrite(place, &mac);
}
