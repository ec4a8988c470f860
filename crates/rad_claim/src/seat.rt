//! Seats.
ghost use Rattle.std.specs.Prelude.{◌≡◌, [], map, IfOk};
ghost use Rattle.std.specs.Vec.{vec_capacity};
ghost use Rattle.rad_claim.specs.Claims.{IsOrdered, drawn_by, has_finished, new_seat, put_last};
ghost use Rattle.rad_claim.specs.Draws.{lent};

use crate::view::View;
use atomic_table::Seat;
use std::alloc::{AllocError, Global};
use std::marker::Model;

/// What one thread claims with, and the batches that it has claimed, in rising order.
#[derive(Drop)]
pub struct ClaimSeat {
    pub(crate) token: Seat<(), View>,
    /// How many batches there are.
    pub(crate) batches: u64,
    /// There is memory for all batches, so that a claim takes none.
    pub(crate) claimed: Vec<u64>,
    /// The number that was drawn after those batches and is none. Then nothing more is drawn.
    pub(crate) ended: Option<u64>,
}

impl Model for ClaimSeat {
    ghost use Rattle.std.specs.Vec.{vec_capacity};
    ghost use Rattle.rad_claim.specs.Claims.{ClaimSeat, HasDrawn};

    ghost Value = { ClaimSeat };

    ghost view = { λ seat. record {
      table = seat.token.table_id;
      batches = seat.batches;
      claimed = seat.claimed.items;
      ended = seat.ended;
    } };

    ghost invariant = { λ seat. HasDrawn
        seat.batches seat.token.me seat.claimed.items (vec_capacity seat.claimed) seat.ended };
}

impl ClaimSeat {
    /// A seat that has drawn nothing.
    pub(crate) fn new(
        alloc: Global,
        token: Seat<(), View>,
        batches: u64,
    ) -> Result<ClaimSeat, AllocError>
        requires { token.me ≡ (lent [], []) }
        ensures { IfOk result (λ seat. seat ≡ new_seat token.table_id batches) }
    {
        Ok(ClaimSeat {
            token,
            batches,
            claimed: Vec::with_capacity(alloc, batches as usize)?,
            ended: None,
        })
    }

    /// Whether it was told that there are no more batches.
    pub(crate) fn has_finished(&self) -> bool
        ensures { result ≡ has_finished self.now }
    {
        self.ended.is_some()
    }

    /// Its token. Its batches are put last in the lists, if there is memory.
    pub(crate) fn leave(self, lists: &mut Vec<Vec<u64>>) -> Seat<(), View>
        ensures table { result.table_id ≡ self.table }
        ensures view { result.me ≡ (lent (drawn_by self.claimed self.ended), []) }
        ensures ordered { IsOrdered self }
        ensures lists { map (λ list. list.items) lists.new.items ≡ put_last
            (vec_capacity lists.old) (map (λ list. list.items) lists.old.items) self.claimed }
        ensures capacity { vec_capacity lists.new ≡ vec_capacity lists.old }
    {
        let ClaimSeat { token, claimed, .. } = self;
        put(lists, claimed);
        token
    }
}

// Puts a list last, if there is memory.
fn put(lists: &mut Vec<Vec<u64>>, list: Vec<u64>)
    ensures lists { map (λ list. list.items) lists.new.items
        ≡ put_last (vec_capacity lists.old) (map (λ list. list.items) lists.old.items) list.items }
    ensures capacity { vec_capacity lists.new ≡ vec_capacity lists.old }
{
    // There is: no more seats come back than were lent. But that is known only once all have.
    if lists.len() < lists.capacity() {
        lists.push_reserved(list);
    }
}
