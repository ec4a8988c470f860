//! A body that is made again of its Code and the octets of its attributes.
ghost use Rattle.std.specs.Prelude.{◌≡◌, ◌++◌, None, IfOk, IfSome, IsTrue, OnOk, is_some, false};
ghost use Rattle.rad_packet.specs.Attributes.{attributes_octets, attributes_of};

use rad_packet::Body;
use std::alloc::{AllocError, Global};

/// The body of this Code and of the attributes that octets are; none if they are none.
///
/// Its copies share the octets.
pub(crate) fn body_of(alloc: Global, code: u8, octets: &[u8]) -> Result<Option<Body>, AllocError>
    ensures code { IfOk result (λ found. IfSome found (λ body. body.code ≡ code)) }
    ensures spelled { IfOk result (λ found. IfSome found
        (λ body. attributes_octets body.attributes ≡ octets.now)) }
    ensures none { IfOk result (λ found. found ≡ None
        → is_some (attributes_of octets.now) ≡ false) }
{
    let mut body = Body::with_capacity(alloc, code, octets.len())?;
    if !push_all(&mut body, octets)? {
        return Ok(None);
    }
    body.share()?;
    Ok(Some(body))
}

// Pushes the attributes that octets are, and says whether they are such.
fn push_all(body: &mut Body, octets: &[u8]) -> Result<bool, AllocError>
    ensures code { OnOk result (body.new.code ≡ body.old.code) }
    ensures all { IfOk result (λ all. IsTrue all → attributes_octets body.new.attributes
        ≡ attributes_octets body.old.attributes ++ octets.now) }
    ensures none { IfOk result (λ all. all ≡ is_some (attributes_of octets.now)) }
{
    let mut rest = octets;
    while let [kind, len, ..] = rest {
        let len = *len as usize;
        if len < 2 || rest.len() < len {
            return Ok(false);
        }
        let (first, others) = rest.split_at(len);
        body.push(*kind, &first[2..])?;
        rest = others;
    }
    Ok(rest.is_empty())
}
