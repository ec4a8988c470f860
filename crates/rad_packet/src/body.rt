//! Bodies: what a packet says before it has an Identifier and an Authenticator.
ghost use Rattle.std.specs.Prelude.{◌≡◌, [], ◌++◌, ◌≤◌, ◌↔◌, IsTrue, length, IfOk, OnOk, OnErr};
ghost use Rattle.std.specs.List.{AllByRecursion};
ghost use Rattle.rad_packet.specs.Attributes.{IsAttribute, attribute_octets, attributes_octets, size, value_max};
ghost use Rattle.rad_packet.specs.Bodies.{with_attribute, with_attributes};

use crate::attribute::Attributes;
use crate::octets::Octets;
use std::alloc::{AllocError, Global};
use std::marker::Model;

/// A Code and attributes. Contracts see the attributes as a list; they are kept as octets, which copies can share.
#[derive(Drop)]
pub struct Body {
    code: u8,
    octets: Octets,
}

impl Model for Body {
    ghost use Rattle.rad_packet.specs.Attributes.{AreAttributes, attributes_in};
    ghost use Rattle.rad_packet.specs.Bodies.{Body};

    ghost Value = { Body };

    ghost view = { λ b. record { code = b.code; attributes = attributes_in b.octets } };

    ghost invariant = { λ b. AreAttributes b.octets (attributes_in b.octets) };
}

impl Body {
    /// A body of this Code with no attribute.
    pub fn new(alloc: Global, code: u8) -> Body
        ensures code { result.code ≡ code }
        ensures attributes { result.attributes ≡ [] }
    {
        Body {
            code,
            octets: Octets::new(Vec::new(alloc)),
        }
    }

    /// A body of this Code with no attribute, and with memory for attributes of so many octets.
    ///
    /// To push them then takes no more memory, which no clause tells.
    pub fn with_capacity(alloc: Global, code: u8, size: usize) -> Result<Body, AllocError>
        ensures code { IfOk result (λ body. body.code ≡ code) }
        ensures attributes { IfOk result (λ body. body.attributes ≡ []) }
    {
        let octets = Octets::new(Vec::with_capacity(alloc, size)?);
        Ok(Body { code, octets })
    }

    /// Appends an attribute.
    ///
    /// The Value has at most `VALUE_MAX` octets. Bodies that share their octets with this one don't change. If memory is refused,
    /// the body is unchanged. Source: RFC 2865, section 5.
    pub fn push(&mut self, kind: u8, value: &[u8]) -> Result<(), AllocError>
        requires fits { length value.now ≤ value_max }
        ensures appended { OnOk result (self.new ≡ with_attribute kind value.now self.old) }
        ensures unchanged { OnErr result (self.new ≡ self.old) }
    {
        append_attribute(&mut self.octets, kind, value)?;
        Ok(())
    }

    /// Appends the attributes of another body.
    ///
    /// Bodies that share their octets with this one don't change. If memory is refused, the body is unchanged.
    pub fn append(&mut self, other: &Body) -> Result<(), AllocError>
        ensures appended { OnOk result
            (self.new ≡ with_attributes other.now.attributes self.old) }
        ensures unchanged { OnErr result (self.new ≡ self.old) }
    {
        self.octets.append(other.octets.octets(), &[])?;
        Ok(())
    }

    /// Shares the octets of the attributes with the copies that are made from here on.
    ///
    /// If memory is refused, they stay as they were, not shared.
    pub fn share(&mut self) -> Result<(), AllocError>
        ensures { self.new ≡ self.old }
    {
        self.octets.share()
    }

    /// An equal body. A copy of a shared body takes no memory.
    pub fn copy(&self) -> Result<Body, AllocError>
        ensures { IfOk result (λ copy. copy ≡ self.now) }
    {
        let octets = self.octets.copy()?;
        Ok(Body {
            code: self.code,
            octets,
        })
    }

    /// Whether the other body has the same Code and the same attributes in the same order.
    pub fn same(&self, other: &Body) -> bool
        ensures { IsTrue result ↔ (self.now ≡ other.now) }
    {
        other.code == self.code && other.octets.same(&self.octets)
    }

    /// The Code.
    pub fn code(&self) -> u8
        ensures { result ≡ self.now.code }
    {
        self.code
    }

    /// The attributes in their order.
    pub fn attributes(&self) -> Attributes<'_>
        ensures { result ≡ self.now.attributes }
    {
        Attributes::of(self.octets.octets())
    }

    /// The octets of the attributes.
    pub fn attributes_octets(&self) -> &[u8]
        ensures value { result.now ≡ attributes_octets self.now.attributes }
        ensures each { AllByRecursion IsAttribute self.now.attributes }
    {
        self.octets.octets()
    }

    /// The size of the attributes in octets.
    pub fn size(&self) -> usize
        ensures { result ≡ size self.now.attributes }
    {
        self.octets.octets().len()
    }
}

// Appends Type, Length and Value to the octets, which are unchanged if memory is refused.
fn append_attribute(octets: &mut Octets, kind: u8, value: &[u8]) -> Result<(), AllocError>
    requires { length value.now ≤ value_max }
    ensures appended { OnOk result
        (octets.new ≡ octets.old ++ attribute_octets (record { kind = kind; value = value.now })) }
    ensures unchanged { OnErr result (octets.new ≡ octets.old) }
{
    let len = value.len() + 2;
    octets.append(&[kind, len as u8], value)
}
