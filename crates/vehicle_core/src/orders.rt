//! COMMAND_LONG: what it orders, and how it is answered. The numbers are those of MAVLink's common
//! message set.
ghost use Rattle.std.specs.Prelude.{◌≡◌, None, IsSome};
ghost use Rattle.param_service.specs.Requests as parameters;
ghost use Rattle.mission_service.specs.Requests as missions;
ghost use Rattle.mission_service.specs.Replies.{target_of};
ghost use Rattle.vehicle_core.specs.Vehicle.{Acknowledged};
ghost use Rattle.vehicle_core.specs.Orders.{order_of, vehicle_command_of, result_of, need_of};
ghost use Rattle.vehicle_core.specs.Replies.{Tells};

use mav_messages::{Message, Sender};
use param_service::is_vehicle;

/// MAV_CMD_PREFLIGHT_STORAGE.
const PREFLIGHT_STORAGE: u16 = 245;

/// MAV_CMD_COMPONENT_ARM_DISARM.
const ARM_DISARM: u16 = 400;

/// The binary32 pattern of 1.
const ONE: u32 = 0x3F80_0000;

/// The binary32 pattern of minus 0.
const MINUS_ZERO: u32 = 0x8000_0000;

/// The command was accepted.
const MAV_RESULT_ACCEPTED: u8 = 0;

/// The first parameter isn't one that is known.
const MAV_RESULT_DENIED: u8 = 2;

/// The command isn't one that is known.
const MAV_RESULT_UNSUPPORTED: u8 = 3;

/// What has to be done after the lines of a message were issued, before its replies are sent.
#[derive(Clone, Copy, Debug, PartialEq, Eq, Drop)]
pub enum Need {
    Nothing,
    FlushAll,
}

/// What a command orders: to flush all lines, to arm or to disarm. A parameter that isn't known is
/// denied, and a command that isn't known is refused.
#[derive(Clone, Copy, Drop)]
pub enum Order {
    Flush,
    Arm,
    Disarm,
    Deny,
    Refuse,
}

/// A command that was sent: its MAV_CMD, and what it orders.
#[derive(Clone, Copy, Drop)]
pub struct VehicleCommand {
    pub number: u16,
    pub order: Order,
}

/// What a command with this first parameter orders.
fn order_of(number: u16, param1: u32) -> Order
    ensures { result ≡ order_of number param1 }
{
    match (number, param1) {
        (PREFLIGHT_STORAGE, ONE) => Order::Flush,
        (ARM_DISARM, ONE) => Order::Arm,
        (ARM_DISARM, 0 | MINUS_ZERO) => Order::Disarm,
        (PREFLIGHT_STORAGE | ARM_DISARM, _) => Order::Deny,
        _ => Order::Refuse,
    }
}

/// The command of a message for the vehicle.
pub fn command_of(message: &Message) -> Option<VehicleCommand>
    ensures command { result ≡ vehicle_command_of message.now }
    ensures parameters { IsSome result → parameters.Asks message.now None }
    ensures missions { IsSome result → missions.Asks message.now None }
{
    match message {
        Message::CommandLong {
            param1,
            command,
            target_system,
            target_component,
            ..
        } if is_vehicle(*target_system, *target_component) => Some(VehicleCommand {
            number: *command,
            order: order_of(*command, *param1),
        }),
        _ => None,
    }
}

/// How an order is answered.
fn result_of(order: Order) -> u8
    ensures { result ≡ result_of order }
{
    match order {
        Order::Flush | Order::Arm | Order::Disarm => MAV_RESULT_ACCEPTED,
        Order::Deny => MAV_RESULT_DENIED,
        Order::Refuse => MAV_RESULT_UNSUPPORTED,
    }
}

/// What has to be done before an order is answered.
pub fn need_of(order: Order) -> Need
    ensures { result ≡ need_of order }
{
    match order {
        Order::Flush | Order::Arm | Order::Disarm => Need::FlushAll,
        Order::Deny | Order::Refuse => Need::Nothing,
    }
}

/// COMMAND_ACK of a command, to its sender.
pub fn acknowledgement(from: Sender, command: VehicleCommand) -> Message
    ensures { Tells
        (Acknowledged (target_of from) command.number (result_of command.order)) result }
{
    Message::CommandAck {
        command: command.number,
        result: result_of(command.order),
        progress: 0,
        result_param2: 0,
        target_system: from.system,
        target_component: from.component,
    }
}
