//! Whether the receipts of passes agree with a history.
ghost use Rattle.std.specs.Prelude.{◌≡◌, IfErr, IfOk, IfSome, IfNone, IsTrue, OnOk, ◌↔◌};
ghost use Rattle.rad_server.specs.Runs.{IsHistory};
ghost use Rattle.rad_desk.specs.Settlements.{
  Agrees,
  Disagrees,
  HasMisplaced,
  IsMismatch,
  MisplacedDisagree,
  AreInOrder,
  IsAtItsPlace,
  receipt_count,
};

use crate::mismatch::Mismatch;
use crate::opened::Opened;
use crate::pass::Pass;
use crate::receipt::Receipt;
use rad_server::{Book, Entry, Server};

/// What is left of a closed desk.
#[derive(Drop)]
pub struct Closed<'c> {
    pub server: Server<'c>,
    /// The entries, oldest first.
    pub history: Vec<Entry>,
}

/// Compares a book with the server from which it should have begun, and with the receipts of passes.
///
/// The first mismatch that applies is returned, and then the book is dropped. The call takes no memory and doesn't wait.
pub fn settle<'c, L: Opened>(
    book: Book<'c>,
    server: &Server,
    passes: Vec<Pass<L>>,
) -> Result<Closed<'c>, Mismatch>
    ensures server { IfOk result (λ closed. closed.server ≡ book.entry.server) }
    ensures history { IfOk result (λ closed. closed.history.items ≡ book.entry.history) }
    ensures run { IfOk result (λ closed. IsHistory server.now closed.history.items closed.server) }
    ensures agreed { IfOk result (λ closed. Agrees closed.history.items passes.items) }
    ensures opening { IfOk result (λ closed. book.entry.opening ≡ server.now) }
    ensures refused { IfErr result (IsMismatch book.entry server.now passes.items) }
{
    if !book.opening().same(server) {
        return Err(Mismatch::Opening);
    }
    compare(book.history(), passes.as_slice())?;
    let (history, server) = book.into_parts();
    Ok(Closed { server, history })
}

/// `settle` returns `Mismatch::At` only when it can't return `Ok`: a misplaced receipt and agreement exclude each other.
///
/// The call costs nothing: it does nothing at run time.
pub fn misplaced_disagree()
    ensures { MisplacedDisagree }
{}

/// Whether the receipts of passes are as many as the entries, and each entry is at its receipt's place.
#[tactic(auto, using(crate::proofs::ReceiptLemmas::one_more_settled, crate::proofs::ReceiptLemmas::all_settled))]
pub(crate) fn compare<L: Opened>(history: &[Entry], passes: &[Pass<L>]) -> Result<(), Mismatch>
    ensures agreed { OnOk result (Agrees history.now passes.now) }
    ensures refused { IfErr result (Disagrees history.now passes.now) }
{
    if !has_receipts(history.len(), passes) {
        return Err(Mismatch::Count);
    }
    for pass in 0..passes.len() {
        if let Some(place) = misplaced(history, passes[pass].receipts()) {
            let pass = pass as u64;
            return Err(Mismatch::At { pass, place });
        }
    }
    Ok(())
}

// Whether the passes have this many receipts. The ledger says so once all passes are back, but no type makes a caller bring all.
fn has_receipts<L: Opened>(count: usize, passes: &[Pass<L>]) -> bool
    ensures { IsTrue result ↔ (receipt_count passes.now ≡ count) }
{
    match passes.split_first() {
        None => count == 0,
        Some((pass, rest)) => {
            let first = pass.receipts().len();
            first <= count && has_receipts(count - first, rest)
        }
    }
}

// The place of the first receipt whose entry isn't there, or that isn't above the one before.
fn misplaced(history: &[Entry], receipts: &[Receipt]) -> Option<u64>
    ensures none { IfNone result (AreInOrder 0 history.now receipts.now) }
    ensures some { IfSome result (HasMisplaced 0 history.now receipts.now) }
{
    let mut floor = 0;
    for i in 0..receipts.len() {
        let receipt = &receipts[i];
        if receipt.place < floor || !is_at_its_place(history, receipt) {
            return Some(receipt.place);
        }
        floor = receipt.place + 1;
    }
    None
}

// Whether the receipt's entry is at its place.
fn is_at_its_place(history: &[Entry], receipt: &Receipt) -> bool
    ensures { IsTrue result ↔ IsAtItsPlace history.now receipt.now }
{
    receipt.place < history.len() as u64 && history[receipt.place as usize].same(&receipt.entry)
}
