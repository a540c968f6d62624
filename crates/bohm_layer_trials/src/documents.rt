//! Which transactions are sure.

use crate::logs::checked;
use bohm_txn::{Checked, sure};
use std::process::Abort;

/// Transactions that are sure.
const SURE: &str = "\
txn
reads
writes a b
set a = 4
drop b
show 1 - 3
end
txn
reads
writes
end
txn
reads
writes a
set a = 4000000000000000000 + 1
end
txn
reads
writes a
set a = -9223372036854775807 - 1
end
";

/// Transactions that aren't sure.
const UNSURE: &str = "\
txn
reads
writes a
end
txn
reads
writes a
set a = 4 when 1 < 2
end
txn
reads
writes a
set a = 9223372036854775807 + 1
end
txn
reads
writes a
let $x = 1
set a = 2
end
txn
reads
writes a
set a = -9223372036854775807 - 2
end
txn
reads b
writes a
set a = b
end
txn
reads a
writes a
need has a
set a = 2
end
txn
reads
writes a
set a = 2
fail
end
txn
reads
writes a b
set a = 4
show 1
end
";

fn assert_each(rt: &impl Abort, log: &Checked, count: usize, want: bool) {
    assert_eq!(rt; log.log().len(), count);
    for index in 0..log.log().len() {
        assert_eq!(rt; sure(&log.log().txn(index)), want, "{index}");
    }
}

#[test]
fn literals_alone_are_sure(rt: HostRuntime) {
    for (head, log, count, want) in [
        ("log 1\n", SURE, 4, true),
        ("log 2\n", SURE, 4, true),
        ("log 1\n", UNSURE, 9, false),
        ("log 2\n", UNSURE, 9, false),
    ] {
        let log = checked(&rt, rt.alloc(), head, log);
        assert_each(&rt, &log, count, want);
    }
}
