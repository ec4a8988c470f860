//! What is sealed in a lane.
ghost use Rattle.std.specs.Prelude.{◌≡◌};
ghost use Rattle.rad_auth.specs.Admission.{IsAdmitted};
ghost use Rattle.rad_auth.specs.Clients.{secret_at};

use crate::admit::admitted_is_answerable;
use crate::arrival::Request;
use crate::client::Clients;
use crate::secret::Secret;
use rad_packet::Body;

/// A reply to be sealed: to the request with this Identifier and Authenticator, under the client's secret.
#[derive(Clone, Copy)]
pub struct Job<'a> {
    pub body: &'a Body,
    pub id: u8,
    pub request_authenticator: [u8; 16],
    pub secret: &'a Secret,
}

impl<'a> Job<'a> {
    /// The reply with this body to an admitted request.
    pub fn of(clients: &'a Clients, request: &Request, body: &'a Body) -> Job<'a>
        requires { IsAdmitted clients.now request.now }
        ensures body { result.body.now ≡ body.now }
        ensures id { result.id ≡ request.now.packet.identifier }
        ensures authenticator { result.request_authenticator ≡ request.now.packet.authenticator }
        ensures secret { result.secret.now ≡ secret_at clients.now request.now.client }
    {
        admitted_is_answerable(clients, request);
        Job {
            body,
            id: request.packet.identifier(),
            request_authenticator: request.packet.authenticator(),
            secret: clients.secret(request.client),
        }
    }
}
