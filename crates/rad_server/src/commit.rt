//! A plan is carried out: memory is made ready for it, and then the state changes, which can't fail.
ghost use Rattle.std.specs.Prelude.{◌≡◌, ◌≤◌, OnOk, option_copied, true};
ghost use Rattle.rad_config.specs.Spans.{moment_max};
ghost use Rattle.rad_recent.specs.Challenges.{cut_challenges};
ghost use Rattle.rad_server.specs.Changes.{challenges_without};
ghost use Rattle.rad_server.specs.Plans.{IsPlanOf, IsReadyForPlan, planned_answer};
ghost use Rattle.rad_server.specs.TableStates.{live_state};
ghost use Rattle.rad_server.specs.Servers.{state_with};
ghost use Rattle.rad_server.specs.Steps.{answer, session_at};

use crate::answer::Answer;
use crate::change::{Change, make_change};
use crate::plan::{NewReply, Plan, key_of};
use crate::tables::Tables;
use rad_auth::Request;
use rad_config::Config;
use rad_recent::Challenges;
use std::alloc::AllocError;

/// Makes memory ready for a plan.
pub(crate) fn make_room(tables: &mut Tables, plan: &Plan) -> Result<(), AllocError>
    ensures unchanged { state_with 0 tables.new ≡ state_with 0 tables.old }
    ensures ready { OnOk result (IsReadyForPlan plan.now tables.new) }
{
    let Plan::New(reply, kept) = plan else {
        return Ok(());
    };
    let Tables {
        sessions,
        replies,
        challenges,
    } = tables;
    match reply.change {
        Change::Challenge(_) => challenges.room()?,
        Change::Grant(_) => sessions.room()?,
        Change::Nothing | Change::Report(_) => {}
    }
    replies.make_ready(&kept.key)
}

/// Removes what is no longer live, does what is planned for a request, and gives the answer and the number of the session that the
/// request names.
pub(crate) fn commit(
    _config: &Config,
    tables: &mut Tables,
    now: u64,
    request: &Request,
    draw: &[u8; 16],
    plan: Plan,
) -> (Answer, Option<u64>)
    requires moment { now ≤ moment_max }
    requires planned { IsPlanOf _config.now (live_state now tables.old)
        request.now draw.now plan }
    requires ready { IsReadyForPlan plan tables.old }
    ensures answered { answer _config.now (live_state now tables.old) request.now draw.now
        ≡ (result.0, state_with now tables.new) }
    ensures planned { result.0 ≡ planned_answer plan.entry }
    ensures session { result.1
        ≡ session_at _config.now (live_state now tables.old) request.now }
{
    tables.expire(now);
    match plan {
        Plan::Unchanged(body) => (Answer::Send(body), None),
        Plan::Busy => {
            tables.replies.remove(&key_of(request));
            (Answer::Busy, None)
        }
        Plan::New(reply, kept) => {
            let NewReply {
                body,
                answered,
                change,
            } = reply;
            take_answered(&mut tables.challenges, now, request.client, answered);
            let session = make_change(tables, now, request, draw, &change);
            tables.replies.put(kept);
            (Answer::Send(body), session)
        }
    }
}

// Removes the challenge that a client answers with a State, if it sent one.
fn take_answered(challenges: &mut Challenges, now: u64, client: u32, state: Option<&[u8]>)
    requires moment { now ≤ moment_max }
    requires live { cut_challenges now challenges.old.table ≡ challenges.old.table }
    ensures left { challenges.new.table
        ≡ challenges_without client (option_copied state.entry) challenges.old.table }
    ensures live { cut_challenges now challenges.new.table ≡ challenges.new.table }
    ensures room { challenges.old.has_room ≡ true → challenges.new.has_room ≡ true }
{
    if let Some(state) = state {
        // The plan was made with it.
        let _taken = challenges.take(state, client, now);
    }
}
