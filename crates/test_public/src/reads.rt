//! What is wrong with texts that are none. What texts are read as is in `texts`.

use std::process::Abort;
use table_text::fault::LoadFault;
use table_text::read::read_text;

/// What is wrong with a text that begins as one.
fn expect_fault(rt: &(impl AllocGlobal + Abort), text: &[u8], fault: LoadFault) {
    assert!(rt; read_text(rt.alloc(), text).err() == Some(fault));
}

/// The text of the first state, where the bound is another one.
const CHANGED: &[u8] = b"pidtab table 1 pid-max 33768 stamp 1
task 1@0 parent - group 1@0 session 1@0 control 0 children 0 live
space 0 parent - cursor 2
control 0 parent - limit max
end sha256 11fb73109d1e64dd45c8bed09ef3e19114bc4df6ab4b0fbc8668f547950fb0d8
";

/// A line more behind the last one.
const LONGER: &[u8] = b"pidtab table 1 pid-max 32768 stamp 1
task 1@0 parent - group 1@0 session 1@0 control 0 children 0 live
space 0 parent - cursor 2
control 0 parent - limit max
end sha256 11fb73109d1e64dd45c8bed09ef3e19114bc4df6ab4b0fbc8668f547950fb0d8

";

/// Each text, and its fault: bad lines, a digest of another text, and a line behind the last one.
static BAD_TEXTS: [(&[u8], LoadFault); 9] = [
    (b"", LoadFault::BadLine(1)),
    (
        b"pidtab table 2 pid-max 301 stamp 1\n",
        LoadFault::BadLine(1),
    ),
    (b"pidtab table 1 pid-max 301 stamp 1", LoadFault::BadLine(1)),
    (
        b"pidtab table 1 pid-max 301 stamp 1\n",
        LoadFault::BadLine(2),
    ),
    (
        b"pidtab table 1 pid-max 301 stamp 1\ntask 1@0 parent 0\n",
        LoadFault::BadLine(2),
    ),
    (
        b"pidtab table 1 pid-max 301 stamp 1\nspace 0 parent - cursor 2\nspace 01 parent - cursor 2\n",
        LoadFault::BadLine(3),
    ),
    (
        b"pidtab table 1 pid-max 301 stamp 1\ncontrol 0 parent - limit max\nspace 0 parent - cursor 2\n",
        LoadFault::BadLine(3),
    ),
    (CHANGED, LoadFault::WrongDigest(5)),
    (LONGER, LoadFault::BadLine(5)),
];

#[test]
fn names_the_first_bad_line(rt: HostRuntime) {
    for (text, fault) in &BAD_TEXTS {
        expect_fault(&rt, text, *fault);
    }
}
