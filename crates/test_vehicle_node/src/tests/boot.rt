//! Boot over storage with a record of an old key, with a loss at each call: what the record says is
//! carried over once.
use super::*;

// An image of 16,384-byte sectors. Its storage is formatted, and then has the key 100, of kind i16,
// with 1520, and the sentinel: lines 0 to 2 as one entry.
fn image_with_an_old_record(alloc: Global) -> Result<Vec<u8>, Fail> {
    let mut image = vec![in alloc; 0xFF; 49_152]?;
    LittleEndian::write_u16_into(&[0x5BFE, 0x5168, 0x4000], &mut image[..6]);
    image[6..30].copy_from_slice(&[
        0x50, 0x41, 6, 0, 0x14, 0x42, 0, 0, 0, 0, 0x64, 2, 0, 0, 0xF0, 5, 0xFF, 0xFF, 0x3F, 0, 0,
        0, 0, 0,
    ]);
    LittleEndian::write_u16_into(&[0x5BFF, 0x5168], &mut image[16_384..16_388]);
    Ok(image)
}

// A node is opened and closed. How many lines did it issue?
fn open_and_close<B: Board>(alloc: Global, board: &mut B) -> Result<u64, NodeError> {
    attach(board)?;
    let node = Node::open(alloc, board)?;
    let issued = node.issued();
    node.close(board)?;
    Ok(issued)
}

// The lines that boot issued, where no call stopped it, and the image that it left, where the call
// with this number fails.
fn booted(alloc: Global, image: &[u8], lost: u32) -> Result<(Option<u64>, Vec<u8>), Fail> {
    let mut board = MemBoard::new(alloc, image, &[], &[lost])?;
    let issued = match open_and_close(alloc, &mut board) {
        Ok(issued) => Some(issued),
        Err(NodeError::Fault(_)) => None,
        Err(_) => return Err(Fail::from("boot")),
    };
    Ok((issued, board.image(alloc)?))
}

// Whether SERVO1_TRIM is served as 1520.
fn has_trim(alloc: Global, image: &[u8]) -> Result<bool, Fail> {
    let mut feed = Vec::new(alloc);
    append(&mut feed, read(66)?)?;
    let board = served(alloc, image, &feed)?;
    Ok(value_sent(&board, 0) == Some((66, 0x44BE_0000)))
}

#[test]
fn an_old_record_is_carried_over_once(rt: HostRuntime) -> Result<(), Fail> {
    let alloc = rt.alloc();
    let image = image_with_an_old_record(alloc)?;
    let (first, left) = booted(alloc, &image, u32::MAX)?;
    assert_eq!(rt; first, Some(4));
    assert!(rt; has_trim(alloc, &left)?);
    let (second, _) = booted(alloc, &left, u32::MAX)?;
    assert_eq!(rt; second, Some(0));
    Ok(())
}

#[test]
fn each_failing_call_of_boot_leaves_what_boots_again(rt: HostRuntime) -> Result<(), Fail> {
    let alloc = rt.alloc();
    let image = image_with_an_old_record(alloc)?;
    for lost in FIRST_PROGRAM..FIRST_PROGRAM + 100 {
        let (issued, left) = booted(alloc, &image, lost)?;
        assert!(rt; has_trim(alloc, &left)?, "call {lost}");
        if issued.is_some() {
            return Ok(());
        }
    }
    Err(Fail::from("no boot was whole"))
}
