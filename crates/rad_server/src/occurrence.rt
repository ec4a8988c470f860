//! How often an attribute occurs, for those that an Access-Request may have once.
ghost use Rattle.std.specs.Prelude.{◌≡◌};
ghost use Rattle.rad_packet.specs.AttributeViews.{attribute_of};
ghost use Rattle.rad_server.specs.SentCredentials.{AreAccessAttributes, IsOneMore, occurrence_of, one_more};

use rad_packet::attribute::{
    CHAP_CHALLENGE, CHAP_PASSWORD, EAP_MESSAGE, STATE, USER_NAME, USER_PASSWORD,
};
use rad_packet::{Attribute, Attributes};

/// How often an attribute occurs: not at all, once with this Value, or more often.
#[derive(Clone, Copy)]
pub(crate) enum Occurrence<'a> {
    Absent,
    Once(&'a [u8]),
    Repeated,
}

impl<'a> Occurrence<'a> {
    // It occurs once more.
    fn add(&mut self, value: &'a [u8])
        ensures { occurrence_of self.new ≡ one_more value.now (occurrence_of self.old) }
    {
        *self = match *self {
            Occurrence::Absent => Occurrence::Once(value),
            Occurrence::Once(_) | Occurrence::Repeated => Occurrence::Repeated,
        };
    }
}

/// What the attributes of an Access-Request say of who asks.
#[derive(Clone, Copy)]
pub(crate) struct AccessAttributes<'a> {
    pub has_eap_message: bool,
    pub user_name: Occurrence<'a>,
    pub user_password: Occurrence<'a>,
    pub chap_password: Occurrence<'a>,
    pub chap_challenge: Occurrence<'a>,
    pub state: Occurrence<'a>,
}

impl<'a> AccessAttributes<'a> {
    /// What these attributes say, found in one walk.
    pub fn of(attributes: Attributes<'a>) -> AccessAttributes<'a>
        ensures { AreAccessAttributes attributes.entry result }
    {
        let mut found = AccessAttributes {
            has_eap_message: false,
            user_name: Occurrence::Absent,
            user_password: Occurrence::Absent,
            chap_password: Occurrence::Absent,
            chap_challenge: Occurrence::Absent,
            state: Occurrence::Absent,
        };
        let mut rest = attributes;
        while let Some(attribute) = rest.next() {
            found.add(attribute);
        }
        found
    }

    fn add(&mut self, attribute: Attribute<'a>)
        ensures { IsOneMore (attribute_of attribute.entry) self.old self.new }
    {
        let value = attribute.value;
        match attribute.kind {
            EAP_MESSAGE => self.has_eap_message = true,
            USER_NAME => self.user_name.add(value),
            USER_PASSWORD => self.user_password.add(value),
            CHAP_PASSWORD => self.chap_password.add(value),
            CHAP_CHALLENGE => self.chap_challenge.add(value),
            STATE => self.state.add(value),
            _ => {}
        }
    }
}
