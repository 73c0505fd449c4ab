//! The lines that no session comes to easily.
use crate::stop::Stop;
use crate::texts::{digest_line, line_of_stop};

#[test]
fn prints_want_of_memory_and_wear(rt: HostRuntime) {
    let memory = line_of_stop(Stop::Memory);
    assert_eq!(rt; memory.as_slice(), b"error 2 memory\n".as_slice());
    let worn = line_of_stop(Stop::Worn);
    assert_eq!(rt; worn.as_slice(), b"error 7 worn 8192\n".as_slice());
}

#[test]
fn prints_the_lines_of_a_replay(rt: HostRuntime) {
    let input = line_of_stop(Stop::Input);
    assert_eq!(rt; input.as_slice(), b"error 9 input\n".as_slice());
    let script = line_of_stop(Stop::Script(100_001));
    assert_eq!(rt; script.as_slice(), b"error 11 line 100001\n".as_slice());
    let digest = digest_line([0xA5; 32]);
    let expected = b"bytes a5a5a5a5a5a5a5a5a5a5a5a5a5a5a5a5a5a5a5a5a5a5a5a5a5a5a5a5a5a5a5a5\n";
    assert_eq!(rt; digest.as_slice(), expected.as_slice());
}
