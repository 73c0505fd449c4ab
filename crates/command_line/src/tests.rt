//! Lists of words, as a user gives them.
use crate::{Command, command_of};
use std::alloc::Global;

static NO_COMMAND_LINES: [&[&str]; 20] = [
    &[],
    &["print", "a"],
    &["replay"],
    &["replay", "a", "--turns", "1"],
    &["dump"],
    &["dump", "a", "b"],
    &["report", "a", "--port", "1"],
    &["serve", "-a"],
    &["serve", "a", "b"],
    &["serve", "a", "--help"],
    &["serve", "a", "--turns", "0"],
    &["serve", "a", "--turns", "02147483648"],
    &["serve", "a", "--turns", "2", "--turns", "2"],
    &["serve", "a", "--port", "65536"],
    &["serve", "a", "--sector", "16384"],
    &["format", "x", "--sector=16385"],
    &["gen"],
    &["gen", "0"],
    &["gen", "1001"],
    &["gen", "1", "--turns", "1"],
];

fn is_serve(alloc: Global, words: &[&str], image: &str, port: u16, turns: u32) -> bool {
    command_of(alloc, words) == Ok(Some(Command::Serve { image, port, turns }))
}

fn is_format(alloc: Global, words: &[&str], image: &str, sector: u32) -> bool {
    command_of(alloc, words) == Ok(Some(Command::Format { image, sector }))
}

#[test]
fn reads_the_words_of_a_user(rt: HostRuntime) {
    let alloc = rt.alloc();
    let all = u32::MAX;
    assert!(rt; is_serve(alloc, &["serve", "--turns=2", "--", "-a"], "-a", 14550, 2));
    assert!(rt; is_serve(alloc, &["serve", "a", "--"], "a", 14550, all));
    assert!(rt; is_serve(alloc, &["serve", ""], "", 14550, all));
    assert!(rt;
        is_serve(
            alloc,
            &["serve", "--port", "1", "-", "--turns", "0000000007"],
            "-",
            1,
            7
        )
    );
    assert!(rt; is_format(alloc, &["format", "--sector", "16384", "x"], "x", 16384));
    assert!(rt; is_format(alloc, &["format", "x"], "x", 131072));
    assert!(rt; command_of(alloc, &["replay", "a"]) == Ok(Some(Command::Replay { image: "a" })));
    assert!(rt; command_of(alloc, &["dump", "a"]) == Ok(Some(Command::Dump { image: "a" })));
    assert!(rt;
        command_of(alloc, &["report", "--", "-a"]) == Ok(Some(Command::Report { image: "-a" }))
    );
    assert!(rt;
        command_of(alloc, &["gen", "0000001000"]) == Ok(Some(Command::Gen { rounds: 1000 }))
    );
    assert!(rt; command_of(alloc, &["gen", "--", "1"]) == Ok(Some(Command::Gen { rounds: 1 })));
    for words in NO_COMMAND_LINES {
        assert!(rt; command_of(alloc, words) == Ok(None), "{words:?}");
    }
}
