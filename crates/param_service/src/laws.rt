//! What holds of every message and every pattern, on functions that do nothing.

ghost use Rattle.std.specs.Prelude.{◌≡◌, ◌⊎◌, ℕ, Option};
ghost use Rattle.param_tree.specs.declared.Kind.{Kind};
ghost use Rattle.param_records.specs.Patterns.{IsNumberOf};
ghost use Rattle.mav_messages.specs.declared.messages.Message.{Message};
ghost use Rattle.param_service.specs.Requests.{Request, Asks};

/// A pattern is a number of a kind, or none. It may be any number, with more than 32 bits too.
pub fn a_number_or_none()
    ensures { (kind : Kind) (bits : ℕ) → ((number : ℕ) × IsNumberOf kind bits number)
        ⊎ ((number : ℕ) → IsNumberOf kind bits number → ⊥) }
{}

/// A pattern is one number of a kind, at most.
pub fn one_number()
    ensures { (kind : Kind) (bits m n : ℕ)
        → IsNumberOf kind bits m → IsNumberOf kind bits n → m ≡ n }
{}

/// A message asks for one thing, or nothing.
pub fn asks_one_thing()
    ensures asks { (message : Message) → (asked : Option Request) × Asks message asked }
    ensures one { (message : Message) (a b : Option Request)
        → Asks message a → Asks message b → a ≡ b }
{
    a_number_or_none();
    one_number();
}
