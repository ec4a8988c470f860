//! What no line of a log tells.
ghost use Rattle.rad_watch.specs.Untold.{AlikeAreToldAlike};

/// The same is told of requests that have the same part that may be told: Code, User-Name, Framed-IP-Address, Class and
/// Acct-Status-Type. So no password, no answer to a challenge and no authenticator has a say in a line.
///
/// The call costs nothing: it does nothing at run time.
#[tactic(auto, using(crate::proofs::UntoldLemmas::alike_are_told_alike))]
pub fn alike_are_told_alike()
    ensures { AlikeAreToldAlike }
{}
