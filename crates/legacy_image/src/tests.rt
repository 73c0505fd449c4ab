//! Worked inputs: lengths and heads that are refused, logs that fail, the order of two sectors, and
//! images made and read again.
ghost use Rattle.std.specs.Prelude.{◌≡◌, length};
ghost use Rattle.legacy_image.specs.Sizes.{IsLegacySectorSize};

use crate::*;
use std::alloc::{AllocError, Global};

// An image of two sectors of 16,384 bytes that begin with these halfwords.
fn image(alloc: Global, s0: &[u16], s1: &[u16]) -> Result<Vec<u8>, AllocError> {
    let mut image = Vec::new(alloc);
    for words in [s0, s1] {
        let mut sector = Vec::new(alloc);
        for word in words {
            sector.push((*word % 0x100) as u8)?;
            sector.push((*word / 0x100) as u8)?;
        }
        sector.resize(16_384, 0xFF)?;
        image.extend_from_slice(&sector)?;
    }
    Ok(image)
}

#[test]
fn lengths_are_refused(rt: HostRuntime) -> Result<(), AllocError> {
    let alloc = rt.alloc();
    let empty = import(alloc, &[]).err();
    assert_eq!(rt; empty, Some(LegacyError::Length { len: 0 }));
    for (bytes, len) in [
        (32_767, 32_767),
        (32_769, 32_769),
        (196_608, 196_608),
        (262_143, 262_143),
        (262_145, 262_145),
        (300_000, 262_145),
    ] {
        let input = vec![in alloc; 0xFF; bytes]?;
        let refused = import(alloc, &input).err();
        assert_eq!(rt; refused, Some(LegacyError::Length { len }));
    }
    Ok(())
}

#[test]
fn heads_are_refused(rt: HostRuntime) -> Result<(), AllocError> {
    let alloc = rt.alloc();
    let refused: [(&[u16], &[u16], u8, u16); 8] = [
        (&[], &[], 1, 0xFFFF),
        (&[0x5BFF, 0x5168], &[0x5BFF, 0x5168], 1, 0x5BFF),
        (&[0x5BFE, 0x5168], &[0x5BFE, 0x5168], 1, 0x5BFE),
        (&[0x5BFC, 0x5168], &[0x5BFC, 0x5168], 1, 0x5BFC),
        (&[0x1234, 0x5168], &[0x4321], 0, 0x1234),
        (&[0x5BFE, 0x5167], &[], 0, 0x5167),
        (&[0xFFFF, 0x5168], &[], 0, 0x5168),
        (&[0x5BFE, 0x5168], &[0x5BFE, 0xFFFF], 1, 0xFFFF),
    ];
    for (s0, s1, sector, word) in refused {
        let bytes = image(alloc, s0, s1)?;
        assert_eq!(rt;
            import(alloc, &bytes).err(),
            Some(LegacyError::Header { sector, word })
        );
    }
    Ok(())
}

#[test]
fn logs_are_refused(rt: HostRuntime) -> Result<(), AllocError> {
    let alloc = rt.alloc();
    let used: &[u16] = &[0x5BFE, 0x5168, 0x000E];
    let refused: [(&[u16], &[u16], u8, u32, u16); 5] = [
        // state 2
        (used, &[], 0, 2, 0x000E),
        // the full sector is read first
        (
            used,
            &[0x5BFC, 0x5168, 0x000C, 0, 0, 0, 0, 0x000F],
            1,
            7,
            0x000F,
        ),
        // the other one where the full one is right
        (used, &[0x5BFC, 0x5168, 0x000C, 0, 0, 0, 0], 0, 2, 0x000E),
        // line 1,920 with one line: behind the last line
        (&[0x5BFE, 0x5168, 0x1E00, 0, 0, 0, 0], &[], 0, 2, 0x1E00),
        // a halfword behind an erased one
        (&[0x5BFE, 0x5168, 0xFFFF, 0x000C], &[], 0, 3, 0x000C),
    ];
    for (s0, s1, sector, offset, word) in refused {
        let bytes = image(alloc, s0, s1)?;
        let wrong = LegacyError::Entry {
            sector,
            offset,
            word,
        };
        assert_eq!(rt; import(alloc, &bytes).err(), Some(wrong));
    }
    Ok(())
}

#[test]
fn the_sector_in_use_counts_last(rt: HostRuntime) -> Result<(), AllocError> {
    let alloc = rt.alloc();
    // line 3, valid: 1 in the full sector, 2 in the one in use; then line 4, torn; what stands
    // behind an available mark is not read
    let full: &[u16] = &[0x5BFC, 0x5168, 0x000C, 1, 1, 1, 1];
    let used: &[u16] = &[0x5BFE, 0x5168, 0x000C, 2, 2, 2, 2, 0x0011, 9, 9, 9, 9];
    for (s0, s1, value) in [
        (full, used, 2),
        (used, full, 2),
        (full, &[0x5BFF, 0x5168, 0x1234], 1),
        (&[], used, 2),
    ] {
        let bytes = image(alloc, s0, s1)?;
        let Ok(storage) = import(alloc, &bytes) else {
            panic!(rt; "refused");
        };
        assert_eq!(rt; storage.len(), LEGACY_BYTES);
        assert_eq!(rt; &storage[24..26], [value, 0].as_slice());
        assert_eq!(rt; &storage[32..40], [0; 8].as_slice());
    }
    Ok(())
}

#[test]
fn a_chunk_is_made_one_entry(rt: HostRuntime) -> Result<(), AllocError> {
    let alloc = rt.alloc();
    let mut storage = vec![in alloc; 0u8; LEGACY_BYTES]?;
    // the last byte of chunk 3, whose first line is 24
    storage[255] = 7;
    let made = export(alloc, &storage, 16_384)?;
    let front = made.first_chunk::<6>();
    assert_eq!(rt; front, Some(&[0xFE, 0x5B, 0x68, 0x51, 0x60, 0xE0]));
    let bytes = [
        (6, 0),
        (68, 0),
        (69, 7),
        (70, 0xFF),
        (16_383, 0xFF),
        (16_384, 0xFF),
        (16_385, 0x5B),
        (16_386, 0x68),
        (16_387, 0x51),
        (16_388, 0xFF),
        (32_767, 0xFF),
    ];
    for (at, byte) in bytes {
        assert_eq!(rt; made.get(at), Some(&byte));
    }
    assert_eq!(rt; made.len(), 32_768);
    Ok(())
}

// Whether the legacy image of these storage bytes is two sectors long and read as them again.
fn comes_back(alloc: Global, storage: &[u8], sector: u32) -> Result<bool, AllocError>
    requires storage { length storage.now ≡ LEGACY_BYTES }
    requires sector { IsLegacySectorSize sector }
{
    let made = export(alloc, storage, sector)?;
    if made.len() != 2 * sector as usize {
        return Ok(false);
    }
    match import(alloc, &made) {
        Ok(read) => Ok(read.as_slice() == storage),
        Err(_) => Ok(false),
    }
}

#[test]
fn what_is_made_is_read_again(rt: HostRuntime) -> Result<(), AllocError> {
    let alloc = rt.alloc();
    for byte in [0, 0xFF] {
        let storage = vec![in alloc; byte; LEGACY_BYTES]?;
        assert!(rt; comes_back(alloc, &storage, 16_384)?);
        assert!(rt; comes_back(alloc, &storage, 32_768)?);
        assert!(rt; comes_back(alloc, &storage, 65_536)?);
        assert!(rt; comes_back(alloc, &storage, 131_072)?);
    }
    Ok(())
}
