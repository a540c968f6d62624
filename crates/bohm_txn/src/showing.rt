//! How many values a transaction shows.

ghost use Rattle.std.specs.Prelude.{◌≡◌, ◌≤◌, length};
ghost use Rattle.bohm_txn.specs.Declares.{shows_in};

use bohm_log::TxnView;

/// How many values a commit shows. The time grows with the number of statements.
pub fn shows(txn: &TxnView<'_>) -> usize
    ensures shows { result ≡ shows_in txn.now.body }
    ensures few { result ≤ length txn.now.body }
{
    let mut count = 0;
    for index in 0..txn.body_len() {
        if txn.stmt(index).is_show() {
            count += 1;
        }
    }
    count
}
