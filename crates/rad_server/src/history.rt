//! An exchange on a server and its history.
ghost use Rattle.std.specs.Prelude.{◌≡◌, [], ◌∷◌, ◌++◌, IfOk, OnErr, OnOk};
ghost use Rattle.rad_server.specs.Runs.{GoesOn, IsAsked, MarksGoOn};
ghost use Rattle.rad_server.specs.Steps.{IsSealable, step};

use crate::ask::Ask;
use crate::entry::Entry;
use crate::server::Server;
use std::alloc::AllocError;

/// Steps a server and appends an entry to its history. Returns an equal entry, and whether its request was fresh.
///
/// The request was prepared under the server's configuration. The rest is as for `Server::step`. If memory is refused, nothing has
/// changed.
#[doc(hidden)]
pub fn exchange(
    server: &mut Server,
    history: &mut Vec<Entry>,
    ask: Ask,
) -> Result<(Entry, bool), AllocError>
    requires { ask.prepared.now.configuration ≡ server.old.configuration }
    ensures appended { IfOk result (λ made.
        history.new.items ≡ history.old.items ++ made.0 ∷ []) }
    ensures asked { IfOk result (λ made. IsAsked ask.entry.tag ask.entry.prepared.now.request
        ask.entry.moment ask.entry.draw.now made.0) }
    ensures answered { IfOk result (λ made. step server.old.configuration server.old.state
        ask.entry.prepared.now.request ask.entry.moment ask.entry.draw.now
        ≡ (made.0.answer, server.new.state)) }
    ensures sealable { IfOk result (λ made. IsSealable made.0.answer) }
    ensures goes_on { OnOk result
        (GoesOn history.old.items server.old history.new.items server.new) }
    ensures marked { IfOk result (λ made.
        MarksGoOn history.old.items server.old made.0 made.1 server.new) }
    ensures configuration { server.new.configuration ≡ server.old.configuration }
    ensures server { OnErr result (server.new ≡ server.old) }
    ensures history { OnErr result (history.new.items ≡ history.old.items) }
{
    let first_copy = ask.octets.copy()?;
    let second_copy = ask.octets.copy()?;
    history.reserve(1)?;
    let stepped = server.step_with_copy(ask.prepared, Some(ask.octets), ask.moment, ask.draw)?;
    history.push_reserved(ask.entry(first_copy, stepped.copy, stepped.session));
    let entry = ask.entry(second_copy, stepped.answer, stepped.session);
    Ok((entry, stepped.is_fresh))
}
