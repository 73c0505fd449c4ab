//! Laws of the grammar: what a list of bytes says as lines, it says in one way.
ghost use Rattle.std.specs.Prelude.{◌≡◌, List, ℕ};
ghost use Rattle.script_lines.specs.Script.{ScriptLine, AreLines, IsScript};

/// Bytes are the lines of one list at most.
pub fn one_reading()
    ensures { (lines others : List ScriptLine) (bytes : List ℕ)
        → AreLines lines bytes → AreLines others bytes → lines ≡ others }
{}

/// An input begins with one script at most, and what follows it is one list of bytes.
pub fn one_script()
    ensures lines { (lines others : List ScriptLine) (rest remains input : List ℕ)
        → IsScript lines rest input → IsScript others remains input → lines ≡ others }
    ensures rest { (lines others : List ScriptLine) (rest remains input : List ℕ)
        → IsScript lines rest input → IsScript others remains input → rest ≡ remains }
{}
