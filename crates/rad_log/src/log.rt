//! Logs, their keepers and their tickets.
ghost use Rattle.std.specs.Prelude.{◌≡◌, [], ◌∷◌, ◌++◌, IfOk};
ghost use Rattle.rad_log.specs.Logs.{Has, newer, taking};

use crate::rule::{Find, Publish, SplitOff, TakeBack, Taking, Takings, View};
use atomic_table::{Seat, Table};
use std::alloc::{AllocError, Global};
use std::marker::{Brand, Model, PhantomData};

/// Which log a keeper and its tickets are of. Contracts alone see it.
pub trait Logged {
    ghost use Rattle.atomic_table.specs.Seated.{TableId};

    ghost table: { TableId };
}

impl Logged for Brand {
    ghost use Rattle.rad_log.specs.Logs.{no_table};

    ghost table = { no_table };
}

/// A log. It lies beside the lock, and threads share it. Contracts see which one it is.
#[derive(Drop)]
pub struct Log<T> {
    // Its one word says nothing.
    table: Table<Vec<T>, View<T>, (), Takings, Global>,
}

impl<T> Model for Log<T> {
    ghost use Rattle.std.specs.Prelude.{◌≡◌};
    ghost use Rattle.atomic_table.specs.Seated.{TableId};

    ghost Value = { TableId };

    ghost view = { λ log. log.table.shared.table_id };

    ghost invariant = { λ log. log.table.shared.table_id.words ≡ 1 };
}

/// The first seat of an empty log, before a type stands for the log. Contracts see which log it is of.
#[derive(Drop)]
pub struct FirstSeat<T> {
    seat: Seat<Vec<T>, View<T>>,
}

impl<T> Model for FirstSeat<T> {
    ghost use Rattle.std.specs.Prelude.{◌≡◌, []};
    ghost use Rattle.atomic_table.specs.Seated.{TableId};
    ghost use Rattle.rad_log.specs.Logs.{keeper_of};

    ghost Value = { TableId };

    ghost view = { λ first. first.seat.table_id };

    ghost invariant = { λ first. first.seat.me ≡ (keeper_of [], []) };
}

/// Who knows a log whole. Contracts see it as the log, oldest taking first.
#[derive(Drop)]
pub struct Keeper<T, L: Logged> {
    seat: Seat<Vec<T>, View<T>>,
    of: PhantomData<L>,
}

impl<T, L: Logged> Model for Keeper<T, L> {
    ghost use Rattle.std.specs.Prelude.{◌≡◌, List, []};
    ghost use Rattle.rad_log.specs.Logs.{keeper_of};
    ghost use Rattle.rad_log.specs.declared.rule.Taking.{Taking};

    ghost Value = { List (Taking T) };

    ghost view = { λ keeper. keeper.seat.me.0.log };

    ghost invariant = { λ keeper.
        (keeper.seat.table_id ≡ L.table)
        × (keeper.seat.me ≡ (keeper_of keeper.seat.me.0.log, [])) };
}

/// That a taking stands in a log. Contracts see it as the taking.
#[derive(Drop)]
pub struct Ticket<T, L: Logged> {
    seat: Seat<Vec<T>, View<T>>,
    of: PhantomData<L>,
}

impl<T, L: Logged> Model for Ticket<T, L> {
    ghost use Rattle.std.specs.Prelude.{◌≡◌, []};
    ghost use Rattle.rad_log.specs.Logs.{claim_of};
    ghost use Rattle.rad_log.specs.declared.rule.Taking.{Taking};

    ghost Value = { Taking T };

    ghost view = { λ ticket. ticket.seat.me.0.taking };

    ghost invariant = { λ ticket.
        (ticket.seat.table_id ≡ L.table)
        × (ticket.seat.me ≡ (claim_of ticket.seat.me.0.taking, [])) };
}

impl<T> Log<T> {
    /// An empty log, and its first seat.
    pub fn open(alloc: Global) -> Result<(Log<T>, FirstSeat<T>), AllocError>
        ensures { IfOk result (λ opened. opened.1 ≡ opened.0) }
    {
        let (table, seat) = Table::of_words(alloc, &[0], &())?;
        Ok((Log { table }, FirstSeat { seat }))
    }
}

impl<T> FirstSeat<T> {
    /// The keeper of the log, which `L` names: call this in a function that is generic over `L`, with `Brand` for `L`.
    pub fn keeper<L: Logged>(self) -> Keeper<T, L>
        requires { self ≡ L.table }
        ensures { result ≡ [] }
    {
        let FirstSeat { seat } = self;
        Keeper {
            seat,
            of: PhantomData,
        }
    }
}

impl<T, L: Logged> Keeper<T, L> {
    /// Puts what a history has more than the log last in it, as one taking with this number. Returns the ticket of it.
    ///
    /// The call takes no memory and doesn't wait.
    pub fn publish(&mut self, log: &Log<T>, number: u64, history: &Vec<T>) -> Ticket<T, L>
        requires { log.now ≡ L.table }
        ensures published { self.new ≡ self.old ++ result ∷ [] }
        ensures taking { result ≡ taking number (newer self.old history.now.items) }
    {
        let Keeper { seat, of: _ } = self;
        log.table
            .shared
            .compare_exchange_with::<Publish>(seat, 0, number, number, history);
        let claim = log.table.shared.split_seat::<SplitOff>(seat);
        Ticket {
            seat: claim,
            of: PhantomData,
        }
    }

    /// Takes a ticket back: its taking stands in the log.
    ///
    /// The call takes no memory and doesn't wait.
    pub fn find(&mut self, log: &Log<T>, ticket: Ticket<T, L>)
        requires { log.now ≡ L.table }
        ensures unchanged { self.new ≡ self.old }
        ensures found { Has self.old ticket }
    {
        let Ticket { seat: claim, of: _ } = ticket;
        let Keeper { seat, of: _ } = self;
        log.table.shared.join_seat::<TakeBack>(seat, claim);
        log.table.shared.load::<Find>(seat, 0);
    }
}
