//! MAVLink frames of both versions: cut from a stream of bytes, read and written.
#![tactic(auto)]

mod cutting;
mod frames;
mod laws;
mod reading;
mod writing;

pub use cutting::{Cutter, front_length, whole_frame};
pub use frames::{Frame, FrameBytes, Heading};
pub use laws::{
    a_cut, a_message_or_none, empty_stream, goes_on, one_by_one, one_byte_more, one_cut,
    one_message, one_piece,
};
pub use reading::{heading_of, message, message_in, read_back};
pub use writing::{write_frame, write_frame_into};

#[cfg(test)]
mod tests {
    use super::*;
    use mav_messages::Message;
    use std::test::Fail;

    // PARAM_REQUEST_READ of index 0, as version 1, and the same with another CRC.
    const REQUEST: &[u8] = &[
        0xFE, 0x14, 0, 0xFF, 0xBE, 0x14, 0, 0, 1, 1, 0, 0, 0, 0, 0, 0, 0, 0, 0, 0, 0, 0, 0, 0, 0,
        0, 0xE7, 0xF2,
    ];

    const BAD: &[u8] = &[
        0xFE, 0x14, 0, 0xFF, 0xBE, 0x14, 0, 0, 1, 1, 0, 0, 0, 0, 0, 0, 0, 0, 0, 0, 0, 0, 0, 0, 0,
        0, 0xE7, 0xF3,
    ];
    // MISSION_COUNT 1 of mission type 0, as version 2 without its trailing zero; with incompat flag
    // 02; signed.
    const COUNT: &[u8] = &[
        0xFD, 4, 0, 0, 0, 0xFF, 0xBE, 0x2C, 0, 0, 1, 0, 1, 1, 0x8F, 0x5A,
    ];

    const UNKNOWN: &[u8] = &[
        0xFD, 4, 2, 0, 0, 0xFF, 0xBE, 0x2C, 0, 0, 1, 0, 1, 1, 0xD5, 0x51,
    ];

    const SIGNED: &[u8] = &[
        0xFD, 4, 1, 0, 0, 0xFF, 0xBE, 0x2C, 0, 0, 1, 0, 1, 1, 0x22, 0x5F, 0xFE, 0xFE, 0xFE, 0xFE,
        0xFE, 0xFE, 0xFE, 0xFE, 0xFE, 0xFE, 0xFE, 0xFE, 0xFE,
    ];

    // How many frames are cut from the bytes, how many of them have a message, and the last
    // message.
    fn cut(parts: &[&[u8]]) -> (u32, u32, Option<Message>) {
        let mut cutter = Cutter::new();
        let mut frames: u32 = 0;
        let mut messages: u32 = 0;
        let mut last = None;
        for part in parts {
            for byte in *part {
                if let Some(frame) = cutter.push(*byte) {
                    frames = frames.saturating_add(1);
                    if let Some(read) = message(&frame) {
                        messages = messages.saturating_add(1);
                        last = Some(read);
                    }
                }
            }
        }
        (frames, messages, last)
    }

    #[test]
    fn cuts_frames_anywhere_and_reads_the_right_ones(rt: HostRuntime) {
        let streams: [(&[&[u8]], u32, u32); 4] = [
            (&[BAD, COUNT], 2, 1),
            (&[UNKNOWN], 1, 0),
            (&[SIGNED, REQUEST], 2, 2),
            (&[&[1, 2], REQUEST, &[0xFD, 4, 0]], 1, 1),
        ];
        for (parts, frames, messages) in streams {
            let (cut_frames, cut_messages, _) = cut(parts);
            assert_eq!(rt; cut_frames, frames);
            assert_eq!(rt; cut_messages, messages);
        }
    }

    #[test]
    fn reads_a_frame_whose_trailing_zeros_were_dropped(rt: HostRuntime) -> Result<(), Fail> {
        let (_, _, last) = cut(&[COUNT]);
        match last.ok_or("no message")? {
            Message::MissionCount {
                count,
                target_system,
                target_component,
                mission_type,
            } => {
                assert_eq!(rt; count, 1);
                assert_eq!(rt; target_system, 1);
                assert_eq!(rt; target_component, 1);
                assert_eq!(rt; mission_type, 0);
            }
            _ => assert!(rt; false),
        }
        Ok(())
    }

    #[test]
    fn takes_exactly_one_whole_frame(rt: HostRuntime) -> Result<(), Fail> {
        let frame = whole_frame(REQUEST).ok_or("no frame")?;
        assert_eq!(rt; frame.id, 20);
        assert_eq!(rt; frame.system, 0xFF);
        assert!(rt; whole_frame(&REQUEST[1..]).is_none());
        Ok(())
    }

    #[test]
    fn takes_the_front_of_a_datagram(rt: HostRuntime) -> Result<(), Fail> {
        let datagram = &[COUNT, REQUEST].concat(rt.alloc())?;
        let length = front_length(datagram).ok_or("no front")?;
        assert_eq!(rt; length, COUNT.len());
        let front = &datagram[..length];
        assert_eq!(rt; heading_of(front).system, 0xFF);
        assert_eq!(rt; message_in(front).ok_or("no message")?.id(), 44);
        Ok(())
    }

    #[test]
    fn writes_both_versions(rt: HostRuntime) {
        let ack = Message::CommandAck {
            command: 400,
            result: 0,
            progress: 0,
            result_param2: 0,
            target_system: 255,
            target_component: 190,
        };
        assert_eq!(rt;
            write_frame(&ack, true, 1, 1, 1).as_slice(),
            [
                0xFD, 10, 0, 0, 1, 1, 1, 0x4D, 0, 0, 0x90, 1, 0, 0, 0, 0, 0, 0, 0xFF, 0xBE, 0x65,
                0x43
            ]
            .as_slice()
        );
        assert_eq!(rt;
            write_frame(&ack, false, 1, 1, 1).as_slice(),
            [0xFE, 3, 1, 1, 1, 0x4D, 0x90, 1, 0, 0xE4, 0xF7].as_slice()
        );
    }
}
