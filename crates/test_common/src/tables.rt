//! Tables of stores in memory.
ghost use Rattle.std.specs.Prelude.{◌≡◌};
ghost use Rattle.sqlite_trees.specs.declared.store.Shape.TheVariants.{Table};

use sqlite_trees::schema::Object;
use sqlite_trees::store::Shape;

/// The tables of a journal, as a database in a file lists them.
pub const JOURNAL_TABLES: [Object<'static>; 3] = [
    Object {
        shape: Shape::Table,
        kind: "table",
        name: "exchange",
        table: "exchange",
        reals: 0,
        sql: Some("CREATE TABLE exchange(a, b, c, d, e, f, g, h, i, j)"),
    },
    Object {
        shape: Shape::Table,
        kind: "table",
        name: "accounting",
        table: "accounting",
        reals: 0,
        sql: Some(
            "CREATE TABLE accounting(a, b, c, d, e, f, g, h, i, j, k, l, m, n, o, p, q, r, s, t, u, v)",
        ),
    },
    Object {
        shape: Shape::Table,
        kind: "table",
        name: "grants",
        table: "grants",
        reals: 0,
        sql: Some("CREATE TABLE grants(a, b, c, d, e, f, g, h)"),
    },
];

/// A table, as a store in memory lists it.
pub fn table(name: &'static str) -> Object<'static>
    ensures { result.shape ≡ Table }
{
    Object {
        shape: Shape::Table,
        kind: "table",
        name,
        table: name,
        reals: 0,
        sql: None,
    }
}
