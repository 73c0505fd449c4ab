//! The board over a file and a socket: words in the file, eight stations, and a ninth.

use crate::file_board::FileBoard;
use crate::link::Link;
use crate::places::Places;
use flash_traits::{Board, Event, Failed, Region};
use std::fs;
use std::net::{Ipv4Addr, SocketAddr, UdpSocket};
use std::test::Fail;
use std::time::{Duration, Instant};

#[test]
fn keeps_words_in_the_file(rt: HostRuntime) -> Result<(), Fail> {
    let mut board = FileBoard::new(&rt, rt.alloc());
    assert_eq!(rt; board.attach("a.img", 0, None), Err(Failed));
    let Ok(geometry) = board.attach("a.img", 0, Some(16_384)) else {
        return Err(Fail::from("no image"));
    };
    assert_eq!(rt; geometry.sector_bytes, 16_384);
    assert_eq!(rt; board.program(Region::S1, 1, 0x5BFE), Ok(()));
    assert_eq!(rt; board.erase(Region::S1), Ok(()));
    assert_eq!(rt; board.program(Region::Guard, 3, 0x5BFF), Ok(()));
    assert_eq!(rt; board.program(Region::Guard, 3, 0x5BFE), Ok(()));
    // another board may read the image, and may not change it
    let mut other = FileBoard::new(&rt, rt.alloc());
    assert_eq!(rt; other.attach("a.img", 0, Some(16_384)), Err(Failed));
    let Ok(_) = other.attach("a.img", 0, None) else {
        return Err(Fail::from("no image again"));
    };
    assert_eq!(rt; other.read(Region::Guard, 3), Ok(0x5BFE));
    assert_eq!(rt; other.read(Region::S1, 1), Ok(0xFFFF));
    assert_eq!(rt; other.program(Region::S1, 1, 0), Err(Failed));
    let bytes = fs::read(&rt, "a.img")?;
    assert_eq!(rt; bytes.len(), 49_152);
    assert_eq!(rt; bytes.get(32_774), Some(&0xFE));
    assert_eq!(rt; bytes.get(32_775), Some(&0x5B));
    Ok(())
}

#[test]
fn hears_eight_stations(rt: HostRuntime) -> Result<(), Fail> {
    let spare = UdpSocket::bind(&rt, (Ipv4Addr::LOCALHOST, 0))?;
    let to = spare.local_addr()?;
    drop(spare);
    let mut link = Link::bind(&rt, to.port())?;
    let mut room = [0u8; 2048];
    let mut stations = Vec::new(rt.alloc());
    for peer in 0..8 {
        let station = UdpSocket::bind(&rt, (Ipv4Addr::LOCALHOST, 0))?;
        station.send_to(b"hello".as_slice(), to)?;
        stations.push(station)?;
        assert_eq!(rt;
            link.receive(&rt, &mut room)?,
            Event::Datagram { peer, len: 5 }
        );
    }
    link.send(7, b"back".as_slice())?;
    let mut answer = [0u8; 16];
    let Some(last) = stations.get(7) else {
        return Err(Fail::from("no station"));
    };
    let (count, from) = last.recv_from(&mut answer)?;
    assert_eq!(rt; &answer[..count], b"back".as_slice());
    assert_eq!(rt; from, to);
    // a ninth is not heard, but for the end
    let ninth = UdpSocket::bind(&rt, (Ipv4Addr::LOCALHOST, 0))?;
    ninth.send_to(b"hello".as_slice(), to)?;
    last.send_to(b"again".as_slice(), to)?;
    assert_eq!(rt;
        link.receive(&rt, &mut room)?,
        Event::Datagram { peer: 7, len: 5 }
    );
    // after eight frames to one station its list may go on
    for _ in 0..8 {
        link.send(7, b"row".as_slice())?;
    }
    assert_eq!(rt;
        link.receive(&rt, &mut room)?,
        Event::Datagram { peer: 7, len: 0 }
    );
    ninth.send_to(b"hello".as_slice(), to)?;
    assert_eq!(rt; link.receive(&rt, &mut room)?, Event::Idle);
    ninth.send_to(b"END\n".as_slice(), to)?;
    assert_eq!(rt; link.receive(&rt, &mut room)?, Event::End);
    Ok(())
}

fn station(port: u16) -> SocketAddr {
    SocketAddr::from((Ipv4Addr::LOCALHOST, port))
}

fn after(start: Instant, seconds: u64) -> Result<Instant, Fail> {
    match start.checked_add(Duration::from_secs(seconds)) {
        Some(time) => Ok(time),
        None => Err(Fail::from("no such time")),
    }
}

#[test]
fn gives_the_place_of_a_silent_station_to_a_new_one(rt: HostRuntime) -> Result<(), Fail> {
    let mut places = Places::new();
    let start = Instant::now(&rt)?;
    for port in 100..108 {
        assert!(rt; places.number_of(station(port), start).is_some());
    }
    let second = after(start, 1)?;
    assert_eq!(rt; places.number_of(station(105), second), Some(5));
    let minute = after(start, 60)?;
    for port in [100, 101, 102, 104, 106, 107] {
        assert!(rt; places.number_of(station(port), minute).is_some());
    }
    // 103 is silent for a minute, 105 for a second less
    assert_eq!(rt; places.number_of(station(200), minute), Some(3));
    assert_eq!(rt; places.number_of(station(201), minute), None);
    let later = after(start, 61)?;
    assert_eq!(rt; places.number_of(station(201), later), Some(5));
    assert_eq!(rt; places.address(5), Some(station(201)));
    assert_eq!(rt; places.number_of(station(103), later), None);
    // of the two that are silent for a minute the one that was silent longer gives up its place
    let end = after(start, 121)?;
    for port in [100, 101, 102, 200, 104, 106] {
        assert!(rt; places.number_of(station(port), end).is_some());
    }
    assert_eq!(rt; places.number_of(station(103), end), Some(7));
    Ok(())
}
