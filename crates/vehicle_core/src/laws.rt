//! What holds of every message and of every act, on functions that do nothing.
#![tactic(auto)]

ghost use Rattle.std.specs.Prelude.{◌≡◌, Option};
ghost use Rattle.mav_messages.specs.declared.messages.Message.{Message};
ghost use Rattle.mission_service.specs.declared.uploads.Target.{Target};
ghost use Rattle.vehicle_core.specs.Vehicle.{Asked, Asks};
ghost use Rattle.vehicle_core.specs.Laws.{FlushesStandAlone, AcknowledgesAfterFlush, CountsLines};

/// A message of a sender asks for one thing, or nothing.
pub fn asks_one_thing()
    ensures asks { (sender : Target) (message : Message) →
        (asked : Option Asked) × Asks sender message asked }
    ensures one { (sender : Target) (message : Message) (a b : Option Asked) →
        Asks sender message a → Asks sender message b → a ≡ b }
{
    param_service::asks_one_thing();
    mission_service::asks_one_thing();
}

/// An order to flush all lines comes with no line and with one answer, and nothing else is answered
/// as it is.
pub fn acknowledges()
    ensures alone { FlushesStandAlone }
    ensures after { AcknowledgesAfterFlush }
{}

/// The lines of an act are counted while the vehicle is armed.
pub fn counts_lines()
    ensures { CountsLines }
{}
