//! The tables of a ledger's file, and of an archive's.

use sqlite_trees::schema::Object;
use sqlite_trees::store::Shape;
use sqlite_value::keys::Order;

fn table(name: &'static str, shape: Shape, sql: &'static str) -> Object<'static> {
    Object {
        shape,
        kind: "table",
        name,
        table: name,
        reals: 0,
        sql: Some(sql),
    }
}

/// The table `batch`, which a ledger and its archives have.
fn batches() -> Object<'static> {
    table(
        "batch",
        Shape::Table,
        "CREATE TABLE batch(place INTEGER PRIMARY KEY, first INTEGER, entries TEXT) STRICT",
    )
}

/// The tables of a ledger's store, by their numbers.
pub fn ledger_tables() -> [Object<'static>; 4] {
    let keyed = Shape::Index(Order { digits: 0 });
    [
        table(
            "ledger",
            Shape::Table,
            "CREATE TABLE ledger(format INTEGER, edition INTEGER, checkpoint INTEGER) STRICT",
        ),
        batches(),
        table(
            "balance",
            keyed,
            "CREATE TABLE balance(key TEXT PRIMARY KEY, value INTEGER) STRICT, WITHOUT ROWID",
        ),
        table(
            "request",
            keyed,
            "CREATE TABLE request(id TEXT PRIMARY KEY, place INTEGER, answer TEXT) STRICT, WITHOUT ROWID",
        ),
    ]
}

/// The table of an archive's store.
pub fn archive_tables() -> [Object<'static>; 1] {
    [batches()]
}
