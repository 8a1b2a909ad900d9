//! A script and its replies, from the bytes to the status, and one of as many lines as there may be. Scripts and replies
//! by hand are cases of the built program.
use super::{assert_bytes, assert_is, executed, lines, text};
use std::panic::Expect;

#[test]
fn a_put_answers_the_value_before(rt: HostRuntime) {
    let script = b"0 open 1\n0 put 1 a 5\n0 put 1 a 7\n0 get 1 a\n";
    let (status, out, err) = executed(&rt, script);
    assert_bytes(&rt, &out, "1 ok\n2 none\n3 some 5\n4 some 7\n");
    assert_bytes(&rt, &err, "");
    assert_is(&rt, status, 0);
}

#[test]
fn a_script_of_65_536_command_lines_is_run(rt: HostRuntime) {
    let script = lines(rt.alloc(), b"9 open 1\n", b"9 put 1 a -1\n", 65_536);
    let (status, out, err) = executed(&rt, &script.expect(&rt, "no script"));
    assert_is(&rt, (status, err.len()), (0, 0));
    let replies = text(&rt, &out);
    assert!(rt; replies.starts_with("1 ok\n2 none\n3 some -1\n"));
    assert!(rt; replies.ends_with("\n65536 some -1\n"));
}
