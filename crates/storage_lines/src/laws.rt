//! What the definitions of areas, pieces and line writes say together, on functions that do
//! nothing.
ghost use Rattle.storage_lines.specs.Laws.{AreasApart, ChangesInLines, PiecesInSteps, PiecesAreLines};

/// No two areas share a byte.
pub fn areas_are_apart()
    ensures { AreasApart }
{}

/// The writes that turn bytes into others do so, line by line.
pub fn changes_in_lines()
    ensures { ChangesInLines }
{}

/// The writes of a piece put it line by line, and change no other area.
pub fn pieces_in_steps()
    ensures { PiecesInSteps }
{}

/// The writes of a piece are few, each of a line of the storage, and of bytes.
pub fn pieces_are_lines()
    ensures { PiecesAreLines }
{}
