//! What a start needs to go on, and its row.
ghost use Rattle.std.specs.Prelude.{◌≡◌, ◌≢◌, ◌<◌, ◌^◌, ℕ, ℤ, pos, List, length, Err, IfOk, MatchResult, OnErr, OnOk};
ghost use Rattle.sqlite_value.specs.Order.{column};
ghost use Rattle.sqlite_value.specs.declared.value.Value.TheVariants.{Blob, Int, Text};
ghost use Rattle.rad_state.specs.Fits.{Fits, IsMisfit};
ghost use Rattle.rad_state.specs.declared.open_fault.OpenFault.TheVariants.{Damaged};
ghost use Rattle.rad_state.specs.Metas.{IsNoMeta, meta_of, meta_row};

use crate::open_fault::OpenFault;
use rad_packet::Octets;
use sqlite_value::row::Row;
use sqlite_value::value::ValueRef;
use std::alloc::{AllocError, Global};

/// The number of the file's format.
pub const FORMAT: u32 = 1;

/// The number of the program's rules, raised whenever it may answer an entry otherwise.
pub const RULES: u32 = 2;

// The columns of a row, after its rowid.
const AT_FORMAT: usize = 1;

const AT_RULES: usize = 2;

const AT_CONFIGURATION: usize = 3;

const AT_BOOT: usize = 4;

const AT_ZERO: usize = 5;

const AT_WALL: usize = 6;

/// What a start needs to go on from a generation, beside its snapshot and its journal.
#[derive(Drop)]
pub struct Meta {
    /// The number of the file's format.
    pub format: u32,
    /// The number of the rules by which the entries were answered.
    pub rules: u32,
    /// The text of the configuration under which the entries were answered, whole.
    pub configuration: Octets,
    /// The id of the boot in which the last life ran.
    pub boot: [u8; 16],
    /// What the boot clock showed at that life's moment 0, in milliseconds.
    pub zero: i64,
    /// The wall time at which the generation began, in milliseconds since 1970.
    pub wall: i64,
}

impl Meta {
    /// Whether a generation with this meta can be gone on from, or why not. Without entries any rules do.
    pub fn check(&self, has_entries: bool) -> Result<(), OpenFault>
        ensures { MatchResult result (λ _. Fits self.now has_entries)
            (IsMisfit self.now has_entries) }
    {
        if self.format != FORMAT {
            return Err(OpenFault::OtherFormat);
        }
        if has_entries && self.rules != RULES {
            return Err(OpenFault::OtherRules);
        }
        Ok(())
    }
}

/// Makes the row of a meta.
pub(crate) fn fill(row: &mut Row, meta: &Meta) -> Result<(), AllocError>
    ensures { OnOk result (row.new ≡ meta_row meta.now) }
{
    row.clear();
    row.push(ValueRef::Int(1))?;
    row.push(ValueRef::Int(i64::from(meta.format)))?;
    row.push(ValueRef::Int(i64::from(meta.rules)))?;
    row.push(ValueRef::Text(meta.configuration.octets()))?;
    row.push(ValueRef::Blob(&meta.boot))?;
    row.push(ValueRef::Int(meta.zero))?;
    row.push(ValueRef::Int(meta.wall))?;
    Ok(())
}

/// The meta of a row, if it is one's.
pub(crate) fn meta_in(alloc: Global, row: &Row) -> Result<Meta, OpenFault>
    ensures found { IfOk result (λ meta. row.now ≡ meta_row meta) }
    ensures other { result ≡ Err Damaged → IsNoMeta row.now }
{
    let meta = read(alloc, row)?;
    let mut wanted = Row::new(alloc);
    fill(&mut wanted, &meta)?;
    if !row.is_same(&wanted) {
        return Err(OpenFault::Damaged);
    }
    Ok(meta)
}

// The meta in the columns of a row, if they have its kinds and sizes.
fn read(alloc: Global, row: &Row) -> Result<Meta, OpenFault>
    ensures found { IfOk result (λ meta. meta ≡ meta_of row.now) }
    ensures other { result ≡ Err Damaged → IsNoMeta row.now }
{
    Ok(Meta {
        format: number(row, AT_FORMAT)?,
        rules: number(row, AT_RULES)?,
        configuration: text(alloc, row, AT_CONFIGURATION)?,
        boot: id(row, AT_BOOT)?,
        zero: integer(row, AT_ZERO)?,
        wall: integer(row, AT_WALL)?,
    })
}

// The integer in a column.
fn integer(row: &Row, at: usize) -> Result<i64, OpenFault>
    ensures found { IfOk result (λ n. column row.now at ≡ Int n) }
    ensures other { OnErr result ((n : ℤ) → column row.now at ≢ Int n) }
{
    match row.get(at) {
        ValueRef::Int(n) => Ok(n),
        _ => Err(OpenFault::Damaged),
    }
}

// The number in a column, of 32 bits.
fn number(row: &Row, at: usize) -> Result<u32, OpenFault>
    ensures found { IfOk result (λ n. column row.now at ≡ Int (pos n)) }
    ensures other { OnErr result ((n : ℕ) → n < 2 ^ 32 → column row.now at ≢ Int (pos n)) }
{
    match u32::try_from(integer(row, at)?) {
        Ok(n) => Ok(n),
        Err(_) => Err(OpenFault::Damaged),
    }
}

// The text in a column.
fn text(alloc: Global, row: &Row, at: usize) -> Result<Octets, OpenFault>
    ensures found { IfOk result (λ octets. column row.now at ≡ Text octets) }
    ensures other { result ≡ Err Damaged → (t : List ℕ) → column row.now at ≢ Text t }
{
    match row.get(at) {
        ValueRef::Text(octets) => Ok(Octets::of(alloc, octets)?),
        _ => Err(OpenFault::Damaged),
    }
}

// The 16 octets in a column.
fn id(row: &Row, at: usize) -> Result<[u8; 16], OpenFault>
    ensures found { IfOk result (λ id. column row.now at ≡ Blob id) }
    ensures other { OnErr result ((b : List ℕ) → length b ≡ 16 → column row.now at ≢ Blob b) }
{
    let ValueRef::Blob(octets) = row.get(at) else {
        return Err(OpenFault::Damaged);
    };
    match <[u8; 16]>::try_from(octets) {
        Ok(id) => Ok(id),
        Err(_) => Err(OpenFault::Damaged),
    }
}
