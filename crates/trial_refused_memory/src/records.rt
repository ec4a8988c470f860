//! The calls of `rad_accounting`.
use crate::requests::START;
use crate::trial::{Time, Verdict, judge_anew};
use rad_accounting::{Occasion, fill, fill_grant};
use rad_packet::Packet;
use sqlite_value::row::Row;
use sqlite_value::value::ValueRef;
use std::alloc::Global;

const OCCASION: Occasion = Occasion {
    entry: 1,
    time: 1_700_000_000_000,
    client: 0,
    source: 0xC000_0201,
    session: None,
};

pub(crate) fn judge_fill(alloc: Global) -> Verdict {
    judge_anew(|time| try_fill(alloc, time))
}

// The row of a Start has its columns.
fn try_fill(alloc: Global, time: Time) -> Verdict {
    let Ok(packet) = Packet::read(START.octets) else {
        return Verdict::Unready;
    };
    let mut row = Row::new(alloc);
    time.begin(alloc);
    let filled = fill(&mut row, &OCCASION, &packet);
    time.end(alloc);
    match filled {
        Ok(()) => Verdict::of(row.len() == 24 && matches!(row.get(7), ValueRef::Int(1))),
        Err(_) => Verdict::Refused,
    }
}

pub(crate) fn judge_fill_grant(alloc: Global) -> Verdict {
    judge_anew(|time| try_fill_grant(alloc, time))
}

// So has that of a session that is granted.
fn try_fill_grant(alloc: Global, time: Time) -> Verdict {
    let Ok(packet) = Packet::read(START.octets) else {
        return Verdict::Unready;
    };
    let mut row = Row::new(alloc);
    time.begin(alloc);
    let filled = fill_grant(&mut row, &OCCASION, Some(OCCASION.source), &packet);
    time.end(alloc);
    match filled {
        Ok(()) => Verdict::of(row.len() == 9 && matches!(row.get(7), ValueRef::Int(0xC000_0201))),
        Err(_) => Verdict::Refused,
    }
}
