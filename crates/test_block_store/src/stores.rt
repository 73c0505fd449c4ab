//! A store over boards in memory: what an entry looks like, and which sectors a switch leaves.
ghost use Rattle.std.specs.Prelude.{◌≡◌, ◌<◌, IfOk, OnOk};
ghost use Rattle.block_store.specs.Store.{Fits};

use block_store::BlockStore;
use byteorder::{ByteOrder, LittleEndian};
use flash_board::MemBoard;
use flash_traits::{Board, LINES as FLASH_LINES, Region};
use std::alloc::Global;
use std::test::Fail;
use storage_lines::{LINES, LineWrite};

// A board with an image of 16,384-byte sectors and guard count 0: home begins with these halfwords,
// and the other sector is available.
fn board_with(alloc: Global, home: &[u16]) -> Result<MemBoard, Fail>
    ensures { IfOk result (λ board. ⟦<MemBoard as Board>⟧.sector_bytes board ≡ 16384) }
{
    if home.len() > 8192 {
        return Err(Fail::from("home"));
    }
    let mut image = vec![in alloc; 0xFF; 49_152]?;
    LittleEndian::write_u16_into(home, &mut image[..2 * home.len()]);
    LittleEndian::write_u16_into(&[0x5BFF, 0x5168], &mut image[16_384..16_388]);
    let mut board = MemBoard::new(alloc, &image, &[], &[])?;
    match board.attach("image", 0, None) {
        Ok(geometry) if geometry.sector_bytes == 16_384 => Ok(board),
        _ => Err(Fail::from("attach")),
    }
}

// A sector in use with 248 entries of the lines 0 to 7, which leave 12 bytes.
fn almost_full(alloc: Global) -> Result<Vec<u16>, Fail> {
    let mut words = Vec::new(alloc);
    words.push(0x5BFE)?;
    words.push(0x5168)?;
    for _ in 0..248 {
        words.push(0xE000)?;
        for _ in 0..32 {
            words.push(0x0101)?;
        }
    }
    Ok(words)
}

// The store on a board.
fn opened(alloc: Global, board: &mut MemBoard) -> Result<BlockStore, Fail>
    requires { ⟦<MemBoard as Board>⟧.sector_bytes board.old ≡ 16384 }
    ensures size { ⟦<MemBoard as Board>⟧.sector_bytes board.new ≡ 16384 }
    ensures fits { IfOk result (λ store. Fits ⟦<MemBoard as Board>⟧ board.new store) }
{
    match BlockStore::open(alloc, board) {
        Ok(store) => Ok(store),
        Err(_) => Err(Fail::from("open")),
    }
}

// Puts a line whose bytes are all one.
fn put_line(
    store: &mut BlockStore,
    board: &mut MemBoard,
    line: u16,
    byte: u8,
    armed: bool,
) -> Result<(), Fail>
    requires fits { Fits ⟦<MemBoard as Board>⟧ board.old store.old }
    requires line { line < LINES }
    ensures size { ⟦<MemBoard as Board>⟧.sector_bytes board.new
        ≡ ⟦<MemBoard as Board>⟧.sector_bytes board.old }
    ensures fits { OnOk result (Fits ⟦<MemBoard as Board>⟧ board.new store.new) }
{
    let lines = [LineWrite {
        line,
        bytes: [byte; 8],
    }];
    match store.put(board, &lines, armed) {
        Ok(()) => Ok(()),
        Err(_) => Err(Fail::from("put")),
    }
}

// The first halfword of each sector, and the first three of the guard row.
fn heads(alloc: Global, board: &MemBoard) -> Result<[u16; 5], Fail> {
    let image = board.image(alloc)?;
    if image.len() != 49_152 {
        return Err(Fail::from("image"));
    }
    Ok([
        LittleEndian::read_u16(&image[..2]),
        LittleEndian::read_u16(&image[16_384..16_386]),
        LittleEndian::read_u16(&image[32_768..32_770]),
        LittleEndian::read_u16(&image[32_770..32_772]),
        LittleEndian::read_u16(&image[32_772..32_774]),
    ])
}

// The board and the store once line 3 was put into an almost full sector, and line 8 had no room
// behind it.
fn overfilled(alloc: Global, armed: bool) -> Result<(MemBoard, BlockStore), Fail>
    ensures size { IfOk result (λ both. ⟦<MemBoard as Board>⟧.sector_bytes both.0 ≡ 16384) }
    ensures fits { IfOk result (λ both. Fits ⟦<MemBoard as Board>⟧ both.0 both.1) }
{
    let home = almost_full(alloc)?;
    let mut board = board_with(alloc, &home)?;
    let mut store = opened(alloc, &mut board)?;
    put_line(&mut store, &mut board, 3, 3, armed)?;
    put_line(&mut store, &mut board, 8, 8, armed)?;
    Ok((board, store))
}

// The bytes at the ends of the lines 2 and 7, and at the starts of those behind them.
fn seams(store: &BlockStore) -> [u8; 4] {
    let bytes = store.durable();
    [bytes[23], bytes[24], bytes[63], bytes[64]]
}

#[test]
fn three_lines_are_one_entry_and_read_back(rt: HostRuntime) -> Result<(), Fail> {
    let alloc = rt.alloc();
    let mut board = board_with(alloc, &[0x5BFE, 0x5168])?;
    let mut store = opened(alloc, &mut board)?;
    assert_eq!(rt; store.room(), 16_380);
    let lines = [
        LineWrite {
            line: 5,
            bytes: [0, 1, 2, 3, 4, 5, 6, 7],
        },
        LineWrite {
            line: 6,
            bytes: [8, 9, 10, 11, 12, 13, 14, 15],
        },
        LineWrite {
            line: 7,
            bytes: [16, 17, 18, 19, 20, 21, 22, 23],
        },
    ];
    assert_eq!(rt; store.put(&mut board, &lines, false), Ok(()));
    assert_eq!(rt; store.room(), 16_354);
    assert_eq!(rt; board.read(Region::S0, 2), Ok(0x4014));
    assert_eq!(rt; board.read(Region::S0, 14), Ok(0x1716));
    let again = opened(alloc, &mut board)?;
    assert_eq!(rt; again.durable(), store.durable());
    assert_eq!(rt; &again.durable()[39..43], [0, 0, 1, 2].as_slice());
    assert_eq!(rt; &again.durable()[62..66], [22, 23, 0, 0].as_slice());
    Ok(())
}

#[test]
fn a_store_that_is_not_armed_switches_where_it_has_no_room(rt: HostRuntime) -> Result<(), Fail> {
    let alloc = rt.alloc();
    let (mut board, store) = overfilled(alloc, false)?;
    assert_eq!(rt; heads(alloc, &board)?, [0x5BFF, 0x5BFE, 0, 0, 0xFFFF]);
    // the copy of a chunk, and the line
    assert_eq!(rt; store.room(), 16_384 - 4 - 66 - 10);
    assert_eq!(rt; seams(&store), [1, 3, 1, 8]);
    let again = opened(alloc, &mut board)?;
    assert_eq!(rt; again.durable(), store.durable());
    Ok(())
}

#[test]
fn an_armed_store_goes_on_in_the_other_sector(rt: HostRuntime) -> Result<(), Fail> {
    let alloc = rt.alloc();
    let (mut board, mut store) = overfilled(alloc, true)?;
    assert_eq!(rt;
        heads(alloc, &board)?,
        [0x5BFC, 0x5BFE, 0xFFFF, 0xFFFF, 0xFFFF]
    );
    // the line, a chunk that is left to copy, and one more entry
    assert_eq!(rt; store.room(), 16_384 - 4 - 10 - 66 - 66);
    assert_eq!(rt; store.compact(&mut board), Ok(()));
    assert_eq!(rt; heads(alloc, &board)?, [0x5BFF, 0x5BFE, 0, 0, 0xFFFF]);
    assert_eq!(rt; store.room(), 16_384 - 4 - 10 - 66);
    assert_eq!(rt; seams(&store), [1, 3, 1, 8]);
    Ok(())
}

#[test]
fn the_flash_has_the_lines_of_the_storage(rt: HostRuntime) -> Result<(), Fail> {
    assert_eq!(rt; LINES, FLASH_LINES as usize);
    Ok(())
}
