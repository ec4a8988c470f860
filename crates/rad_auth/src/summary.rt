//! What one walk over a packet's attributes finds for the checks.
ghost use Rattle.std.specs.Prelude.{◌<◌, ◌≤◌, ◌^◌, length};
ghost use Rattle.std.specs.List.{AllByRecursion};
ghost use Rattle.rad_packet.specs.AttributeViews.{attribute_of};
ghost use Rattle.rad_packet.specs.Attributes.{IsAttribute, size, value_max};
ghost use Rattle.rad_packet.specs.Packets.{length_max};
ghost use Rattle.rad_auth.specs.Summaries.{IsNextSummary, IsSummary};

use rad_packet::attribute::{ACCT_STATUS_TYPE, EAP_MESSAGE, MESSAGE_AUTHENTICATOR, PROXY_STATE};
use rad_packet::{Attribute, Attributes};

/// What the checks ask of a packet's attributes.
#[derive(Clone, Copy)]
pub(crate) struct Summary {
    /// How many Message-Authenticators there are, of whatever length.
    pub message_authenticators: usize,
    /// How many octets follow the first one of 16 octets.
    pub octets_after_hmac: Option<usize>,
    pub has_eap_message: bool,
    /// Whether there is an Acct-Status-Type of 4 octets.
    pub has_status_type: bool,
    /// The octets of the Proxy-State attributes, Type and Length counted.
    pub proxy_states: usize,
}

impl Summary {
    /// What these attributes say, found in one walk.
    pub fn of(attributes: Attributes) -> Summary
        requires fits { size attributes ≤ length_max }
        requires each { AllByRecursion IsAttribute attributes }
        ensures { IsSummary attributes.entry result }
    {
        let mut summary = Summary {
            message_authenticators: 0,
            octets_after_hmac: None,
            has_eap_message: false,
            has_status_type: false,
            proxy_states: 0,
        };
        let mut rest = attributes;
        while let Some(attribute) = rest.next() {
            summary.add(&attribute, rest.octets().len());
        }
        summary
    }

    // Adds an attribute that so many octets follow.
    fn add(&mut self, attribute: &Attribute, after: usize)
        requires few { self.old.message_authenticators < 2 ^ 32 }
        requires short { self.old.proxy_states < 2 ^ 32 }
        requires value { length attribute.now.value.now ≤ value_max }
        ensures { IsNextSummary (attribute_of attribute.now) after self.old self.new }
    {
        let len = attribute.value.len();
        match attribute.kind {
            MESSAGE_AUTHENTICATOR => {
                self.message_authenticators += 1;
                if self.octets_after_hmac.is_none() && len == 16 {
                    self.octets_after_hmac = Some(after);
                }
            }
            EAP_MESSAGE => self.has_eap_message = true,
            ACCT_STATUS_TYPE => self.has_status_type = self.has_status_type || len == 4,
            PROXY_STATE => self.proxy_states += len + 2,
            _ => {}
        }
    }
}
