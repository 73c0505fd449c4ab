//! Sector logs where calls fail: cut appends, torn entries, and the places that are named.
ghost use Rattle.std.specs.Prelude.{◌≡◌, IfOk};

use byteorder::{ByteOrder, LittleEndian};
use flash_board::{Board, LINES, LogError, Mark, MemBoard, Region};
use sector_log::{
    Log, Marks, Torn, append, begin_sector, finish_torn, read_head, scan, set_mark, torn_fits,
};
use std::alloc::Global;
use std::test::Fail;

// The bytes of the storage, eight a line.
const STORAGE_BYTES: usize = 8 * LINES as usize;

// The log of a sector in use without entries.
const EMPTY: Log = Log {
    region: Region::S0,
    mark: Mark::InUse,
    end: 2,
    torn: None,
    valid: 0,
    gaps: 0,
};

const BYTES: [u8; 8] = [1, 2, 3, 4, 5, 6, 7, 8];

// A board whose sector 0 is in use and without entries, which three calls have made. The calls with
// these numbers fail.
fn in_use(alloc: Global, fails: &[u32]) -> Result<MemBoard, Fail>
    ensures { IfOk result (λ board. ⟦<MemBoard as Board>⟧.sector_bytes board ≡ 16384) }
{
    let mut board = MemBoard::new(alloc, &[], &[], fails)?;
    match board.attach("image", 0, Some(16_384)) {
        Ok(geometry) if geometry.sector_bytes == 16_384 => {}
        _ => return Err(Fail::from("attach")),
    }
    match begin_sector(&mut board, Region::S0, Mark::InUse) {
        Ok(()) => Ok(board),
        Err(_) => Err(Fail::from("program")),
    }
}

// A board whose sector 0 begins with these halfwords, and has only FFFF behind them.
fn with_sector(alloc: Global, words: &[u16]) -> Result<MemBoard, Fail>
    ensures { IfOk result (λ board. ⟦<MemBoard as Board>⟧.sector_bytes board ≡ 16384) }
{
    if words.len() > 8192 {
        return Err(Fail::from("words"));
    }
    let mut image = vec![in alloc; 0xFF; 49_152]?;
    LittleEndian::write_u16_into(words, &mut image[..2 * words.len()]);
    let mut board = MemBoard::new(alloc, &image, &[], &[])?;
    match board.attach("image", 0, None) {
        Ok(geometry) if geometry.sector_bytes == 16_384 => Ok(board),
        _ => Err(Fail::from("attach")),
    }
}

#[test]
fn a_loss_in_an_append_shows_the_old_line_until_the_last_program(
    rt: HostRuntime,
) -> Result<(), Fail> {
    let alloc = rt.alloc();
    // which of the six programs fails, and at last none
    let headers = [0xFFFF, 0x000D, 0x000D, 0x000D, 0x000D, 0x000D, 0x000C];
    for (failing, header) in [3, 4, 5, 6, 7, 8, u32::MAX].into_iter().zip(headers) {
        let mut board = in_use(alloc, &[failing])?;
        let whole = header == 0x000C;
        assert_eq!(rt; append(&mut board, EMPTY, 3, &BYTES).is_ok(), whole);
        assert_eq!(rt; board.read(Region::S0, 2), Ok(header));
        let mut into = vec![in alloc; 0; STORAGE_BYTES]?;
        assert!(rt; scan(&mut board, Region::S0, &mut into).is_ok());
        let shown = if whole { BYTES } else { [0; 8] };
        assert_eq!(rt; &into[24..32], shown.as_slice(), "call {failing} fails");
    }
    Ok(())
}

#[test]
fn three_lines_are_fourteen_programs(rt: HostRuntime) -> Result<(), Fail> {
    let alloc = rt.alloc();
    let bytes: [u8; 24] = [
        0, 1, 2, 3, 4, 5, 6, 7, 8, 9, 10, 11, 12, 13, 14, 15, 16, 17, 18, 19, 20, 21, 22, 23,
    ];
    // the fourteenth program fails, or a read behind it
    for (failing, header) in [(16, 0x4015), (18, 0x4014)] {
        let mut board = in_use(alloc, &[failing])?;
        assert_eq!(rt;
            append(&mut board, EMPTY, 5, &bytes).is_ok(),
            header == 0x4014
        );
        assert_eq!(rt; board.read(Region::S0, 2), Ok(header));
        assert_eq!(rt; board.read(Region::S0, 14).is_ok(), header == 0x4015);
        assert_eq!(rt; board.read(Region::S0, 14), Ok(0x1716));
        assert_eq!(rt; board.read(Region::S0, 15), Ok(0xFFFF));
    }
    Ok(())
}

#[test]
fn a_torn_entry_is_completed_where_its_halfwords_fit(rt: HostRuntime) -> Result<(), Fail> {
    let alloc = rt.alloc();
    // the header and two halfwords are programmed
    let mut board = with_sector(alloc, &[0x5BFE, 0x5168, 0x000D, 0x0201, 0x0403])?;
    let mut into = vec![in alloc; 0; STORAGE_BYTES]?;
    let Ok(log) = scan(&mut board, Region::S0, &mut into) else {
        return Err(Fail::from("scan"));
    };
    let Some(
        Torn {
            at: 2,
            line: 3,
            lines: 1,
        },
    ) = log.torn
    else {
        return Err(Fail::from("torn"));
    };
    assert_eq!(rt; (log.end, log.valid, log.gaps), (7, 0, 1));
    let other = [2, 2, 3, 4, 5, 6, 7, 8];
    assert_eq!(rt; torn_fits(&mut board, log, &other), Ok(false));
    assert_eq!(rt; torn_fits(&mut board, log, &BYTES), Ok(true));
    let Ok(whole) = finish_torn(&mut board, log, &BYTES) else {
        return Err(Fail::from("finish_torn"));
    };
    assert_eq!(rt;
        (whole.end, whole.torn, whole.valid, whole.gaps),
        (7, None, 1, 0)
    );
    assert_eq!(rt; scan(&mut board, Region::S0, &mut into), Ok(whole));
    assert_eq!(rt; &into[24..32], BYTES.as_slice());
    Ok(())
}

// The first failing place of sector 0.
fn failing_place(alloc: Global, words: &[u16]) -> Result<(u32, u16), Fail> {
    let mut board = with_sector(alloc, words)?;
    let mut into = vec![in alloc; 0; STORAGE_BYTES]?;
    match scan(&mut board, Region::S0, &mut into) {
        Err(LogError::Word { offset, word }) => Ok((offset, word)),
        _ => Err(Fail::from("scan")),
    }
}

#[test]
fn the_first_failing_place_is_named(rt: HostRuntime) -> Result<(), Fail> {
    let alloc = rt.alloc();
    // no mark, no 5168, an entry behind an available mark
    assert_eq!(rt; failing_place(alloc, &[0x5BFD, 0x5168])?, (0, 0x5BFD));
    assert_eq!(rt; failing_place(alloc, &[0x5BFE, 0x5169])?, (1, 0x5169));
    assert_eq!(rt;
        failing_place(alloc, &[0x5BFF, 0x5168, 0x000C])?,
        (2, 0x000C)
    );
    // the states 2 and 3, and lines 1919 and 1920
    assert_eq!(rt;
        failing_place(alloc, &[0x5BFE, 0x5168, 0x000E])?,
        (2, 0x000E)
    );
    assert_eq!(rt;
        failing_place(alloc, &[0x5BFC, 0x5168, 0x000F])?,
        (2, 0x000F)
    );
    assert_eq!(rt;
        failing_place(alloc, &[0x5BFE, 0x5168, 0x3DFC])?,
        (2, 0x3DFC)
    );
    // a halfword behind the end
    let behind = [0x5BFE, 0x5168, 0x000C, 0, 0, 0, 0, 0xFFFF, 0x000C];
    assert_eq!(rt; failing_place(alloc, &behind)?, (8, 0x000C));
    Ok(())
}

#[test]
fn an_entry_ends_inside_its_sector(rt: HostRuntime) -> Result<(), Fail> {
    let alloc = rt.alloc();
    // 1,637 entries of line 1919 with zeros, and a header with room for one line
    let mut words = vec![in alloc; 0; 8192]?;
    words[0] = 0x5BFE;
    words[1] = 0x5168;
    for i in 0..1638 {
        words[2 + 5 * i] = 0x1DFC;
    }
    let mut board = with_sector(alloc, &words)?;
    let mut into = vec![in alloc; 0; STORAGE_BYTES]?;
    let Ok(log) = scan(&mut board, Region::S0, &mut into) else {
        return Err(Fail::from("scan"));
    };
    assert_eq!(rt; (log.end, log.valid, log.gaps), (8192, 1638, 0));
    words[8187] = 0x3DF8;
    assert_eq!(rt; failing_place(alloc, &words)?, (8187, 0x3DF8));
    Ok(())
}

#[test]
fn the_last_valid_entry_of_a_line_counts(rt: HostRuntime) -> Result<(), Fail> {
    let alloc = rt.alloc();
    // state, first line, number of lines, and what each byte of the content is
    let entries: [(u16, u16, u16, u8); 5] = [
        (0, 5, 3, 0x11),
        (0, 6, 1, 0x22),
        (1, 4, 2, 0x33),
        (0, 1912, 8, 0x44),
        (1, 6, 1, 0x55),
    ];
    let mut words = vec![in alloc; 0x5BFE, 0x5168]?;
    for (state, line, lines, byte) in entries {
        words.push(state + 4 * line + 8192 * (lines - 1))?;
        for _ in 0..4 * lines {
            words.push(257 * u16::from(byte))?;
        }
    }
    let mut board = with_sector(alloc, &words)?;
    let mut into = vec![in alloc; 0; STORAGE_BYTES]?;
    let Ok(log) = scan(&mut board, Region::S0, &mut into) else {
        return Err(Fail::from("scan"));
    };
    assert_eq!(rt;
        (log.end as usize, log.valid, log.gaps),
        (words.len(), 3, 2)
    );
    for (line, bytes) in into.chunks_exact(8).enumerate() {
        let mut last = 0;
        for (state, first, lines, byte) in entries {
            if state == 0 && line >= first as usize && line < first as usize + lines as usize {
                last = byte;
            }
        }
        assert_eq!(rt; bytes, [last; 8].as_slice(), "line {line}");
    }
    Ok(())
}

#[test]
fn a_head_is_programmed_and_read(rt: HostRuntime) -> Result<(), Fail> {
    let mut board = with_sector(rt.alloc(), &[])?;
    let any = Marks {
        available: true,
        in_use: true,
        full: true,
    };
    assert_eq!(rt;
        begin_sector(&mut board, Region::S0, Mark::Available),
        Ok(())
    );
    assert_eq!(rt; read_head(&mut board, Region::S0, any), Ok(Mark::Available));
    let in_use = Marks {
        available: false,
        in_use: true,
        full: false,
    };
    // the mark that may not stand here, before it is programmed
    assert_eq!(rt;
        read_head(&mut board, Region::S0, in_use),
        Err(LogError::Word {
            offset: 0,
            word: 0x5BFF
        })
    );
    assert_eq!(rt; set_mark(&mut board, Region::S0, Mark::InUse), Ok(()));
    assert_eq!(rt; read_head(&mut board, Region::S0, in_use), Ok(Mark::InUse));
    assert_eq!(rt; set_mark(&mut board, Region::S0, Mark::Full), Ok(()));
    assert_eq!(rt; board.read(Region::S0, 0), Ok(0x5BFC));
    assert_eq!(rt; board.read(Region::S0, 1), Ok(0x5168));
    Ok(())
}
