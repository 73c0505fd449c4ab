//! The messages of the parameter, mission and command protocols of MAVLink: their layouts, and
//! their payloads in frames.
#![tactic(auto)]

mod decoding;
mod encoding;
mod ids;
mod laws;
pub mod layouts;
mod messages;

pub use decoding::{decode, extra};
pub use encoding::{append, encode, encode_into};
pub use laws::{a_message_or_none, layouts_follow, one_arrival, one_message};
pub use layouts::{FieldKind, Layout, Row};
pub use messages::{Message, Replies, Reply, Sender, To};

#[cfg(test)]
mod tests {
    use super::*;
    use std::test::Fail;

    // Of each message its id, its CRC_EXTRA and the length of its payload without extensions.
    const LISTED: [(u32, u8, usize); 14] = [
        (0, 50, 9),
        (20, 214, 20),
        (21, 159, 2),
        (22, 220, 25),
        (23, 168, 23),
        (40, 230, 4),
        (43, 132, 2),
        (44, 221, 4),
        (45, 232, 2),
        (47, 153, 3),
        (51, 196, 4),
        (73, 38, 37),
        (76, 152, 33),
        (77, 143, 3),
    ];

    #[test]
    fn lists_each_message_with_its_extra_and_length(rt: HostRuntime) -> Result<(), Fail> {
        for (id, extra_byte, length) in LISTED {
            assert_eq!(rt; extra(id).ok_or("no extra")?, extra_byte);
            let message = decode(id, &[]).ok_or("no message")?;
            assert_eq!(rt; message.id(), id);
            assert_eq!(rt; encode(&message, false).len(), length);
        }
        Ok(())
    }
}
