//! Texts that are read and printed.

use bohm_text::{parse, print_doc};
use bohm_types::NoMemory;
use std::alloc::Global;

/// Every statement, every comparison, negative first terms, and keys with the names of keywords.
const EVERY_FORM: &[u8] = b"\
log 2
a 0
b9_ -9223372036854775808
end 9223372036854775807
txn
reads a b9_ end has txn
writes a no when
let $x = 1
let $end = -a - 2 + $x
need a < 1
need -a <= b9_ - 1
need has = no
need a >= 0 + 7
need 9223372036854775807 > -$x
need has a
need no when
need has has
set a = -5
set when = a + b9_ when when > 4
set no = $x when a + 1 = -9223372036854775807 - 1
drop a
show $end
fail
end
txn
reads
writes
end
";

/// Statements whose keys aren't declared.
const UNDECLARED: &[u8] = b"\
log 1
txn
reads
writes
let $x = 7 - a
set a = 4294967296 when $x > x
need has a
need no b
set b = 2
drop b
end
";

/// Texts of documents. The first three have an empty log, an unordered set and a long local, and
/// repeated lines.
const DOCUMENTS: [&[u8]; 5] = [
    b"log 1\n",
    b"log 1\ntxn\nreads b a a\nwrites\nshow $aaaaaaaaaaaaaaaaaaaaaaaaaaaaaaaa\nend\n",
    b"log 1\nlog 1\nb 0\na 0\nreads 2\nwrites 3\nset 4\nlet 5\nneed 6\nno 7\ndrop 8\nshow 9\nfail 10\n",
    EVERY_FORM,
    UNDECLARED,
];

/// The printed document of a text.
fn printed(alloc: Global, text: &[u8]) -> Option<Vec<u8>> {
    let doc = parse(alloc, text).ok()?;
    print_doc(alloc, &doc).ok()
}

#[test]
fn documents_are_printed_again(rt: HostRuntime) {
    for text in DOCUMENTS {
        let again = printed(rt.alloc(), text).expect(&rt, "a document");
        assert_eq!(rt; again.as_slice(), text);
    }
}

#[test]
fn no_memory_has_a_text(rt: HostRuntime) {
    let text = format!(in rt.alloc(); "{NoMemory}").expect(&rt, "memory");
    assert_eq!(rt; text.as_str(), "out of memory");
}
