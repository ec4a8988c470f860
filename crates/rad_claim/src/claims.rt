//! Claims.
ghost use Rattle.std.specs.Prelude.{◌≡◌, ◌≤◌, map, length, vec_len, IfOk, IfNone, IfSome};
ghost use Rattle.std.specs.List.{All, list_all};
ghost use Rattle.std.specs.Result.{result_err};
ghost use Rattle.rad_claim.specs.Claims.{AreDealt, HasEnded, IsFinishedSeatOf, IsNewSeatOf, IsNext, IsSeatOf, batches_max};
ghost use Rattle.rad_claim.specs.Claims.{close_fault, has_finished, seats_max};

use crate::close_fault::CloseFault;
use crate::rule::{Draw, Draws, Lend, TakeBack};
use crate::seat::ClaimSeat;
use crate::view::{Size, View};
use atomic_table::Table;
use std::alloc::{AllocError, Global};
use std::marker::Model;

/// The most batches.
pub const BATCHES_MAX: u64 = 8_192;

/// The most seats.
pub const SEATS_MAX: u64 = 8;

/// Batches, counted from 0, each of which one seat claims.
#[derive(Drop)]
pub struct Claims {
    // It has one word, which counts the numbers drawn.
    table: Table<(), View, Size, Draws, Global>,
    batches: u64,
    seats: u64,
    // Empty, with memory for the list of each seat, so that closing takes none.
    lists: Vec<Vec<u64>>,
}

impl Model for Claims {
    ghost use Rattle.std.specs.Vec.{vec_capacity, vec_len};
    ghost use Rattle.rad_claim.specs.Claims.{Claims, AreOpen};

    ghost Value = { Claims };

    ghost view = { λ claims. record {
      table = claims.table.shared.table_id;
      batches = claims.batches;
      seats = claims.seats;
    } };

    ghost invariant = { λ claims.
        AreOpen claims.table.shared.table_id claims.table.shared.key claims.batches claims.seats
        (vec_len claims.lists) (vec_capacity claims.lists) };
}

impl Claims {
    /// Claims of so many batches, at most `BATCHES_MAX`, and their seats, from 1 to `SEATS_MAX`.
    ///
    /// All memory is taken here, also that for `claim` and `close`.
    pub fn open(
        alloc: Global,
        batches: u64,
        seats: u64,
    ) -> Result<(Claims, Vec<ClaimSeat>), AllocError>
        requires batches { batches ≤ batches_max }
        requires seats { (1 ≤ seats) × (seats ≤ seats_max) }
        ensures claims { IfOk result (λ opened.
            (opened.0.batches ≡ batches) × (opened.0.seats ≡ seats)) }
        ensures count { IfOk result (λ opened. vec_len opened.1 ≡ seats) }
        ensures seats { IfOk result (λ opened. All (IsNewSeatOf opened.0) opened.1.items) }
    {
        let lists = Vec::with_capacity(alloc, seats as usize)?;
        let mut lent = Vec::with_capacity(alloc, seats as usize)?;
        let size = Size { batches, seats };
        let (table, mut rest) = Table::of_words(alloc, &[0], &size)?;
        for _number in 0..seats {
            let token = table.shared.split_seat::<Lend>(&mut rest);
            let seat = ClaimSeat::new(alloc, token, batches)?;
            lent.push_reserved(seat);
        }
        let claims = Claims {
            table,
            batches,
            seats,
            lists,
        };
        Ok((claims, lent))
    }

    /// Claims the next batch. None: there are no more batches.
    ///
    /// The seat is one of these claims. Its batches rise; that no other seat has one of them, `close` says. Once it was told None,
    /// it is told so again, and draws nothing. The call takes no memory and doesn't wait.
    pub fn claim(&self, mut seat: ClaimSeat) -> (Option<u64>, ClaimSeat)
        requires { IsSeatOf self.now seat }
        ensures seat { IsSeatOf self.now result.1 }
        ensures next { IfSome result.0 (λ batch. IsNext seat batch result.1) }
        ensures none { IfNone result.0 (HasEnded seat result.1) }
    {
        let batch = self.draw(&mut seat);
        (batch, seat)
    }

    // The same with a seat in place.
    fn draw(&self, seat: &mut ClaimSeat) -> Option<u64>
        requires { IsSeatOf self.now seat.old }
        ensures seat { IsSeatOf self.now seat.new }
        ensures next { IfSome result (λ batch. IsNext seat.old batch seat.new) }
        ensures none { IfNone result (HasEnded seat.old seat.new) }
    {
        if seat.ended.is_some() {
            return None;
        }
        let number = self.table.shared.fetch_add::<Draw>(&mut seat.token, 0, 1);
        if number < self.batches {
            seat.claimed.push_reserved(number);
            Some(number)
        } else {
            seat.ended = Some(number);
            None
        }
    }

    /// Takes the seats back, and returns the batches of each, in the order in which the seats are handed in.
    ///
    /// The seats are those of these claims. The first fault that applies is returned, and then the seats are dropped. The call
    /// takes no memory and doesn't wait.
    pub fn close(self, seats: Vec<ClaimSeat>) -> Result<Vec<Vec<u64>>, CloseFault>
        requires { All (IsSeatOf self) seats.items }
        ensures dealt { IfOk result (λ lists.
            AreDealt self.batches seats.items (map (λ list. list.items) lists.items)) }
        ensures fault { result_err result ≡ close_fault self.seats seats.items }
    {
        if (seats.len() as u64) < self.seats {
            return Err(CloseFault::TooFew);
        }
        if !have_finished(seats.as_slice()) {
            return Err(CloseFault::Unfinished);
        }
        Ok(self.take_back(seats))
    }

    // The same of all seats, which have finished.
    fn take_back(self, seats: Vec<ClaimSeat>) -> Vec<Vec<u64>>
        requires seats { All (IsFinishedSeatOf self) seats.items }
        requires count { self.seats ≤ length seats.items }
        ensures { AreDealt self.batches seats.items (map (λ list. list.items) result.items) }
    {
        let Claims {
            table,
            mut lists,
            ..
        } = self;
        let mut seats = seats.into_iter();
        let Some(first) = seats.next() else {
            unreachable!()
        };
        let mut keeper = first.leave(&mut lists);
        for seat in seats {
            let token = seat.leave(&mut lists);
            table.shared.join_seat::<TakeBack>(&mut keeper, token);
        }
        table.close_with(keeper).free();
        lists
    }
}

// Whether all seats have finished.
fn have_finished(seats: &[ClaimSeat]) -> bool
    ensures { result ≡ list_all has_finished seats.now }
{
    seats.iter().all(|seat| seat.has_finished())
}
