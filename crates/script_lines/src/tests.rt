//! Lines of each kind and of every wrong form, and texts that come in pieces.
use crate::*;
use arrayvec::ArrayVec;
use flash_traits::{DATAGRAM_BYTES, Failed, Source};

fn datagram(station: u8, content: &[u8]) -> ScriptLine {
    let mut bytes = ArrayVec::new();
    let _ = bytes.try_extend_from_slice(content);
    ScriptLine::Datagram { station, bytes }
}

#[test]
fn reads_lines_of_each_kind(rt: HostRuntime) {
    let datagrams: [(&[u8], u8, &[u8]); 4] = [
        (b"d 0 FE0A3f", 0, &[0xFE, 0x0A, 0x3F]),
        (b"d 7 00", 7, &[0]),
        (
            b"d 3 abcdefABCDEF",
            3,
            &[0xAB, 0xCD, 0xEF, 0xAB, 0xCD, 0xEF],
        ),
        (b"d 0 ", 0, &[]),
    ];
    for (text, station, bytes) in datagrams {
        assert_eq!(rt; parse(text), Some(datagram(station, bytes)));
    }
    let losses: [(&[u8], u32, u8); 4] = [
        (b"l 20 0", 20, 0),
        (b"l 1 1", 1, 1),
        (b"l 1000000 2", 1_000_000, 2),
        (b"l 0000000020 0", 20, 0),
    ];
    for (text, call, how) in losses {
        assert_eq!(rt;
            parse(text),
            Some(ScriptLine::LossLater(Waiting { call, how }))
        );
    }
    assert_eq!(rt; parse(b"i"), Some(ScriptLine::Idle));
    assert_eq!(rt; parse(b"x"), Some(ScriptLine::LossNow));
    assert_eq!(rt; parse(b"e"), Some(ScriptLine::End));
}

#[test]
fn reads_no_line_of_a_wrong_form(rt: HostRuntime) {
    let texts: [&[u8]; 30] = [
        b"",
        b"z",
        b"I",
        b" i",
        b"i ",
        b"e\r",
        b"xx",
        b"d",
        b"d 0",
        b"d 8 00",
        b"d 00 00",
        b"d  00",
        b"d 0  00",
        b"d 0 00 ",
        b"d 0 0",
        b"d 0 0g",
        b"d0 00",
        b"D 0 00",
        b"d 0\t00",
        b"l 0 0",
        b"l 1000001 0",
        b"l 00000000001 0",
        b"l 1 3",
        b"l 1 00",
        b"l  0",
        b"l 1  0",
        b"l +1 0",
        b"l 1 0 ",
        b"l 1",
        b"l 4294967297 0",
    ];
    for text in texts {
        assert_eq!(rt; parse(text), None);
    }
}

#[test]
fn reads_a_datagram_of_2048_bytes_and_no_longer_one(rt: HostRuntime) {
    let mut text = [b'4'; 4_102];
    text[..4].copy_from_slice(b"d 5 ");
    assert_eq!(rt;
        parse(&text[..4_100]),
        Some(datagram(5, &[0x44; DATAGRAM_BYTES]))
    );
    assert_eq!(rt; parse(&text), None);
}

/// A source that gives a few bytes at a time, and fails at one of its reads.
#[derive(Drop)]
struct Pieces<'a> {
    bytes: &'a [u8],
    at_once: usize,
    reads: u64,
    fails: u64,
    faults: u64,
}

impl<'a> Source for Pieces<'a> {
    ghost use Rattle.std.specs.Prelude.{[]};

    ghost tells_given = { λ _. ⊥ };

    ghost given = { λ _. [] };

    ghost tells_rest = { λ _. ⊥ };

    ghost rest = { λ _. [] };

    ghost faults = { λ s. s.faults };

    fn read(&mut self, into: &mut [u8]) -> Result<usize, Failed> {
        self.reads = self.reads.saturating_add(1);
        if self.reads == self.fails {
            self.faults = self.faults.saturating_add(1);
            return Err(Failed);
        }
        let count = self.at_once.min(into.len()).min(self.bytes.len());
        into[..count].copy_from_slice(&self.bytes[..count]);
        self.bytes = &self.bytes[count..];
        Ok(count)
    }
}

/// What comes next, and the start of its text, which is taken.
fn take_text(
    input: &mut Pieces,
    buffer: &mut ArrayVec<u8, READ_BYTES>,
    ahead: &mut u32,
) -> (Result<Next, Failed>, ArrayVec<u8, 8>) {
    let mut text = ArrayVec::new();
    if *ahead as usize > buffer.len() {
        return (Err(Failed), text);
    }
    let next = next_text(input, buffer, ahead);
    let start = buffer.len().saturating_sub(*ahead as usize);
    let (bytes, taken) = match next {
        Ok(Next::Line(bytes)) => (bytes, bytes.saturating_add(1)),
        Ok(Next::Last(bytes)) => (bytes, bytes),
        _ => (0, 0),
    };
    for byte in buffer.as_slice().iter().skip(start).take(bytes as usize) {
        let _ = text.try_push(*byte);
    }
    *ahead = ahead.saturating_sub(taken);
    (next, text)
}

#[test]
fn gives_the_texts_of_a_script_that_comes_in_pieces(rt: HostRuntime) {
    let mut input = Pieces {
        bytes: b"i\n\nd 0 4e\nx",
        at_once: 2,
        reads: 0,
        fails: 3,
        faults: 0,
    };
    let mut buffer = ArrayVec::new();
    let mut ahead = 0;
    let expected: [(Result<Next, Failed>, &[u8]); 6] = [
        (Ok(Next::Line(1)), b"i"),
        (Ok(Next::Line(0)), b""),
        (Err(Failed), b""),
        (Ok(Next::Line(6)), b"d 0 4e"),
        (Ok(Next::Last(1)), b"x"),
        (Ok(Next::Nothing), b""),
    ];
    for (next, text) in expected {
        let (found, bytes) = take_text(&mut input, &mut buffer, &mut ahead);
        assert_eq!(rt; found, next);
        assert_eq!(rt; bytes.as_slice(), text);
    }
}

#[test]
fn gives_a_line_of_4200_bytes_and_no_longer_one(rt: HostRuntime) {
    let mut bytes = [b'4'; 8_402];
    bytes[4_200] = b'\n';
    let mut input = Pieces {
        bytes: &bytes,
        at_once: 1_000,
        reads: 0,
        fails: 0,
        faults: 0,
    };
    let mut buffer = ArrayVec::new();
    let mut ahead = 0;
    let (found, _) = take_text(&mut input, &mut buffer, &mut ahead);
    assert_eq!(rt; found, Ok(Next::Line(4_200)));
    let (found, _) = take_text(&mut input, &mut buffer, &mut ahead);
    assert_eq!(rt; found, Ok(Next::TooLong));
}
