//! What holds of the layouts, and of every payload.

ghost use Rattle.std.specs.Prelude.{◌≡◌, ◌⊎◌, ℕ, Bool, List};
ghost use Rattle.mav_messages.specs.declared.messages.Message.{Message};
ghost use Rattle.mav_messages.specs.Fields.{IsLayout};
ghost use Rattle.mav_messages.specs.Descriptions.{heartbeat, param_request_read, param_request_list, param_value, param_set, mission_request, mission_request_list, mission_count, mission_clear_all, mission_ack, mission_request_int, mission_item_int, command_long, command_ack};
ghost use Rattle.mav_messages.specs.Messages.{FitsTypes, SaysMessage, ArrivesAs};

use crate::layouts::*;

/// A payload says one message under an id.
pub fn one_message()
    ensures { (id : ℕ) (payload : List ℕ) (m n : Message) → FitsTypes m → FitsTypes n
        → SaysMessage id payload m → SaysMessage id payload n → m ≡ n }
{}

/// A payload says a message under an id, or none. Its bytes are any numbers.
pub fn a_message_or_none()
    ensures { (id : ℕ) (payload : List ℕ)
        → ((message : Message) × FitsTypes message × SaysMessage id payload message)
        ⊎ ((message : Message) → FitsTypes message → SaysMessage id payload message → ⊥) }
{}

/// Of a message that is sent one message arrives.
pub fn one_arrival()
    ensures { (v2 : Bool) (message a b : Message)
        → ArrivesAs v2 message a → ArrivesAs v2 message b → a ≡ b }
{}

/// The fields of each layout stand where its message's description has them, one after another.
pub fn layouts_follow()
    ensures for_heartbeat { IsLayout heartbeat HEARTBEAT.id HEARTBEAT.extra HEARTBEAT.rows }
    ensures for_param_request_read { IsLayout param_request_read PARAM_REQUEST_READ.id
        PARAM_REQUEST_READ.extra PARAM_REQUEST_READ.rows }
    ensures for_param_request_list { IsLayout param_request_list PARAM_REQUEST_LIST.id
        PARAM_REQUEST_LIST.extra PARAM_REQUEST_LIST.rows }
    ensures for_param_value { IsLayout param_value PARAM_VALUE.id
        PARAM_VALUE.extra PARAM_VALUE.rows }
    ensures for_param_set { IsLayout param_set PARAM_SET.id PARAM_SET.extra PARAM_SET.rows }
    ensures for_mission_request { IsLayout mission_request MISSION_REQUEST.id
        MISSION_REQUEST.extra MISSION_REQUEST.rows }
    ensures for_mission_request_list { IsLayout mission_request_list MISSION_REQUEST_LIST.id
        MISSION_REQUEST_LIST.extra MISSION_REQUEST_LIST.rows }
    ensures for_mission_count { IsLayout mission_count MISSION_COUNT.id
        MISSION_COUNT.extra MISSION_COUNT.rows }
    ensures for_mission_clear_all { IsLayout mission_clear_all MISSION_CLEAR_ALL.id
        MISSION_CLEAR_ALL.extra MISSION_CLEAR_ALL.rows }
    ensures for_mission_ack { IsLayout mission_ack MISSION_ACK.id
        MISSION_ACK.extra MISSION_ACK.rows }
    ensures for_mission_request_int { IsLayout mission_request_int MISSION_REQUEST_INT.id
        MISSION_REQUEST_INT.extra MISSION_REQUEST_INT.rows }
    ensures for_mission_item_int { IsLayout mission_item_int MISSION_ITEM_INT.id
        MISSION_ITEM_INT.extra MISSION_ITEM_INT.rows }
    ensures for_command_long { IsLayout command_long COMMAND_LONG.id
        COMMAND_LONG.extra COMMAND_LONG.rows }
    ensures for_command_ack { IsLayout command_ack COMMAND_ACK.id
        COMMAND_ACK.extra COMMAND_ACK.rows }
{}
