//! A replay: a node runs a script to its end, and is opened again after each loss of power.
//!
//! What a loss leaves begins the next run. The whole is a history of runs, of which each leaves a
//! prefix of its lines that has every flushed one.
#![tactic(auto)]

ghost use Rattle.std.specs.Prelude.{◌≡◌, ◌≢◌, ◌≤◌, ◌+◌, ◌++◌, [], List, ℕ, IfOk, IfErr, OnOk};
ghost use Rattle.std.specs.Prelude.{Err};
ghost use Rattle.flash_traits.specs.Words.{Words};
ghost use Rattle.flash_traits.specs.Losses.{SentFrame};
ghost use Rattle.flash_traits.specs.Causes.{HasOneCause};
ghost use Rattle.flash_traits.specs.declared.numbers.TheConstants.{GUARD_HALFWORDS};
ghost use Rattle.sector_image.specs.FirstBad.{FirstBad};
ghost use Rattle.sector_image.specs.Stands.{Stands};
ghost use Rattle.vehicle_node.specs.Standing as standing;
ghost use Rattle.script_lines.specs.Script.{ScriptLine};
ghost use Rattle.script_board.specs.Taking.{events_of};
ghost use Rattle.script_board.specs.Printing.{loss_line};
ghost use Rattle.script_board.specs.Hearing.{FewWait};
ghost use Rattle.replay.specs.Breaks.{OnLost, OnStopped, OnRefused, OnForeign, OnWorn};
ghost use Rattle.replay.specs.Breaks.{after_break, after_stop, input_counted, output_counted};
ghost use Rattle.replay.specs.Histories.{AreNext, Replayed, CutShort};
ghost use Rattle.replay.specs.Playing.{AddsLines, OpenEnds, EventEnds, CloseEnds, RunEnds, TurnUses};
ghost use Rattle.replay.specs.Playing.{PlayUses, QuietUses};

mod laws;

use flash_traits::{Failed, Region};
pub use laws::{history_keeps, lines_stay};
use std::alloc::Global;
use vehicle_node::{Node, Turn};

/// Why a replay stopped before the end of its script.
#[derive(Clone, Copy, Debug, PartialEq, Eq)]
pub enum Stop {
    /// There is no memory for an opening.
    Memory,
    /// The words of an opening are no image: this is the first foreign word, with its offset in
    /// halfwords.
    Foreign {
        region: Region,
        offset: u32,
        word: u16,
    },
    /// A sector is to be voided and the guard row is used up.
    Worn {
        count: u16,
    },
    /// The line of this number, from 1, isn't of the grammar, `e` is missing there, or one loss
    /// more than sixteen would wait.
    Refused {
        line: u32,
    },
    /// The source failed.
    Input,
    /// The sink failed.
    Output,
}

/// How a call of a run ended before its time.
#[derive(Clone, Copy, Debug, PartialEq, Eq)]
pub enum Break {
    /// Power was lost. The next run begins with the words that are left.
    Lost,
    Stopped(Stop),
}

/// What the calls of a node give over a board that runs a script and holds a source and a sink.
pub trait Player {
    /// It holds its board, as its calls leave it.
    ghost holds: { Self → Type 0 };

    /// The source and the sink tell their bytes, and none of the printed lines failed.
    ghost told: { Self → Type 0 };

    /// None of the printed lines failed.
    ghost unfailed: { Self → Type 0 };

    ghost told_unfailed: { (p : Self) → told p → unfailed p };

    ghost words: { Self → Words };

    /// These are the lines of the script taken so far.
    ghost took: { Self → List ScriptLine → Type 0 };

    /// The bytes printed so far.
    ghost printed: { Self → List ℕ };

    /// The node belongs to this board.
    ghost fits: { Self → standing.Node → Type 0 };

    /// How many losses wait.
    ghost waiting: { Self → ℕ };

    /// The next line of the script has this number and is refused.
    ghost refuses: { Self → ℕ → Type 0 };

    /// How often the source and the sink have failed.
    ghost input_faults: { Self → ℕ };

    ghost output_faults: { Self → ℕ };

    /// The arming budget of the board's sectors.
    ghost arming: { ℕ };

    /// How much of the script and of the waiting losses is left at most.
    ghost remaining: { Self → ℕ };

    /// Opens a node. No line is taken and nothing is printed.
    fn open(&mut self, alloc: Global) -> Result<Node, Break>
        requires { holds self.old }
        ensures holds { holds self.new }
        ensures fits { IfOk result (λ node. fits self.new node) }
        ensures told { told self.new → told self.old }
        ensures ends { told self.new → OpenEnds arming result (words self.old) (words self.new) }
        ensures adds { told self.new
            → AddsLines (took self.old) (took self.new) (printed self.old) (printed self.new)
            [] [] }
        ensures uses { QuietUses result (waiting self.old) (waiting self.new) }
        ensures remaining { remaining self.new ≤ remaining self.old }
        ensures lost { IfErr result
            (OnLost (remaining self.new + 1 ≤ remaining self.old)) }
        ensures foreign { IfErr result
            (OnStopped (OnForeign (λ place. told self.new → FirstBad (words self.old) place))) }
        ensures worn { IfErr result
            (OnStopped (OnWorn (λ count. count ≡ GUARD_HALFWORDS))) }
        ensures refused { IfErr result (OnStopped (OnRefused (λ line. ⊥))) }
        ensures unfailed { unfailed self.old → result ≢ Err (Break.Stopped Stop.Output)
            → unfailed self.new }
        ensures input_counts { input_faults self.new
            ≡ after_break input_counted result (input_faults self.old) }
        ensures output_counts { output_faults self.new
            ≡ after_break output_counted result (output_faults self.old) };

    /// Takes lines up to an event, and finishes it.
    fn event(&mut self, node: &mut Node) -> Result<Turn, Break>
        requires holds { holds self.old }
        requires fits { fits self.old node.old }
        ensures holds { holds self.new }
        ensures fits { OnOk result (fits self.new node.new) }
        ensures told { told self.new → told self.old }
        ensures plays { told self.new
            → (lines : List ScriptLine) × (frames : List SentFrame) × (finished : ℕ)
            × AddsLines (took self.old) (took self.new) (printed self.old) (printed self.new)
            lines frames
            × EventEnds arming result node.old node.new (events_of lines) frames finished
            (words self.new)
            × TurnUses result lines finished (waiting self.old) (waiting self.new)
            × FewWait (waiting self.old) lines }
        ensures remaining { remaining self.new ≤ remaining self.old }
        ensures finished { OnOk result (remaining self.new + 1 ≤ remaining self.old) }
        ensures lost { IfErr result
            (OnLost (remaining self.new + 1 ≤ remaining self.old)) }
        ensures foreign { IfErr result (OnStopped (OnForeign (λ place. ⊥))) }
        ensures worn { IfErr result
            (OnStopped (OnWorn (λ count. count ≡ GUARD_HALFWORDS))) }
        ensures refused { IfErr result (OnStopped (OnRefused (refuses self.new))) }
        ensures unfailed { unfailed self.old → result ≢ Err (Break.Stopped Stop.Output)
            → unfailed self.new }
        ensures input_counts { input_faults self.new
            ≡ after_break input_counted result (input_faults self.old) }
        ensures output_counts { output_faults self.new
            ≡ after_break output_counted result (output_faults self.old) };

    /// Closes the node. No line is taken and nothing is printed.
    fn close(&mut self, node: Node) -> Result<(), Break>
        requires holds { holds self.old }
        requires fits { fits self.old node }
        ensures holds { holds self.new }
        ensures told { told self.new → told self.old }
        ensures ends { told self.new → CloseEnds arming result node (words self.new) }
        ensures adds { told self.new
            → AddsLines (took self.old) (took self.new) (printed self.old) (printed self.new)
            [] [] }
        ensures uses { QuietUses result (waiting self.old) (waiting self.new) }
        ensures remaining { remaining self.new ≤ remaining self.old }
        ensures lost { IfErr result
            (OnLost (remaining self.new + 1 ≤ remaining self.old)) }
        ensures foreign { IfErr result (OnStopped (OnForeign (λ place. ⊥))) }
        ensures worn { IfErr result
            (OnStopped (OnWorn (λ count. count ≡ GUARD_HALFWORDS))) }
        ensures refused { IfErr result (OnStopped (OnRefused (λ line. ⊥))) }
        ensures unfailed { unfailed self.old → result ≢ Err (Break.Stopped Stop.Output)
            → unfailed self.new }
        ensures input_counts { input_faults self.new
            ≡ after_break input_counted result (input_faults self.old) }
        ensures output_counts { output_faults self.new
            ≡ after_break output_counted result (output_faults self.old) };

    /// Prints `loss`.
    fn print_loss(&mut self) -> Result<(), Failed>
        requires { holds self.old }
        ensures holds { holds self.new }
        ensures told { told self.new → told self.old }
        ensures words { words self.new ≡ words self.old }
        ensures waiting { waiting self.new ≡ waiting self.old }
        ensures took { told self.new → AreNext (took self.old) (took self.new) [] }
        ensures printed { OnOk result
            (told self.new → printed self.new ≡ printed self.old ++ loss_line) }
        ensures remaining { remaining self.new ≤ remaining self.old }
        ensures unfailed { OnOk result (unfailed self.old → unfailed self.new) }
        ensures input_counts { input_faults self.new ≡ input_faults self.old }
        ensures output { HasOneCause (output_faults self.old) (output_faults self.new) result };
}

// Events until the end.
fn play<P: Player>(player: &mut P, node: &mut Node) -> Result<(), Break>
    requires holds { P.holds player.old }
    requires fits { P.fits player.old node.old }
    ensures holds { P.holds player.new }
    ensures fits { OnOk result (P.fits player.new node.new) }
    ensures told { P.told player.new → P.told player.old }
    ensures plays { P.told player.new
        → (lines : List ScriptLine) × (frames : List SentFrame) × (finished : ℕ)
        × AddsLines (P.took player.old) (P.took player.new)
        (P.printed player.old) (P.printed player.new) lines frames
        × EventEnds P.arming result node.old node.new (events_of lines) frames finished
        (P.words player.new)
        × PlayUses result lines finished (P.waiting player.old) (P.waiting player.new)
        × FewWait (P.waiting player.old) lines }
    ensures remaining { P.remaining player.new ≤ P.remaining player.old }
    ensures lost { IfErr result
        (OnLost (P.remaining player.new + 1 ≤ P.remaining player.old)) }
    ensures foreign { IfErr result (OnStopped (OnForeign (λ place. ⊥))) }
    ensures worn { IfErr result
        (OnStopped (OnWorn (λ count. count ≡ GUARD_HALFWORDS))) }
    ensures refused { IfErr result (OnStopped (OnRefused (P.refuses player.new))) }
    ensures unfailed { P.unfailed player.old → result ≢ Err (Break.Stopped Stop.Output)
        → P.unfailed player.new }
    ensures input_counts { P.input_faults player.new
        ≡ after_break input_counted result (P.input_faults player.old) }
    ensures output_counts { P.output_faults player.new
        ≡ after_break output_counted result (P.output_faults player.old) }
{
    'events: loop {
        match player.event(node)? {
            Turn::End => return Ok(()),
            Turn::More => {}
        }
    }
}

// One run: the opening, the events until the end, and the close.
fn run_once<P: Player>(alloc: Global, player: &mut P) -> Result<(), Break>
    requires { P.holds player.old }
    ensures holds { P.holds player.new }
    ensures told { P.told player.new → P.told player.old }
    ensures ends { P.told player.new
        → (lines : List ScriptLine) × (frames : List SentFrame) × (finished : ℕ)
        × AddsLines (P.took player.old) (P.took player.new)
        (P.printed player.old) (P.printed player.new) lines frames
        × RunEnds P.arming result (P.words player.old) (events_of lines) frames finished
        (P.words player.new)
        × PlayUses result lines finished (P.waiting player.old) (P.waiting player.new)
        × FewWait (P.waiting player.old) lines }
    ensures remaining { P.remaining player.new ≤ P.remaining player.old }
    ensures lost { IfErr result
        (OnLost (P.remaining player.new + 1 ≤ P.remaining player.old)) }
    ensures foreign { IfErr result
        (OnStopped (OnForeign (λ place. P.told player.new → FirstBad (P.words player.old) place))) }
    ensures worn { IfErr result
        (OnStopped (OnWorn (λ count. count ≡ GUARD_HALFWORDS))) }
    ensures refused { IfErr result (OnStopped (OnRefused (P.refuses player.new))) }
    ensures unfailed { P.unfailed player.old → result ≢ Err (Break.Stopped Stop.Output)
        → P.unfailed player.new }
    ensures input_counts { P.input_faults player.new
        ≡ after_break input_counted result (P.input_faults player.old) }
    ensures output_counts { P.output_faults player.new
        ≡ after_break output_counted result (P.output_faults player.old) }
{
    let mut node = player.open(alloc)?;
    play(player, &mut node)?;
    player.close(node)
}

/// Replays the script: after each loss the node is opened again on the words that are left.
pub fn replay<P: Player>(alloc: Global, player: &mut P) -> Result<(), Stop>
    requires holds { P.holds player.old }
    requires none_waits { P.waiting player.old ≡ 0 }

    ensures holds { P.holds player.new }
    ensures told { P.told player.new → P.told player.old }
    // What is printed is a history, and the last run is whole.
    ensures replayed { OnOk result (P.told player.new
        → (b : List ℕ) → Stands (P.words player.old) b →
        (lines : List ScriptLine) × (text : List ℕ)
        × AreNext (P.took player.old) (P.took player.new) lines
        × (P.printed player.new ≡ P.printed player.old ++ text)
        × Replayed P.arming (P.words player.old) lines text (P.words player.new)) }
    // Where it stopped, but for a fault of the sink, it is a history that is cut short.
    ensures cut_short { IfErr result (λ stop. (stop ≢ Stop.Output) → P.told player.new
        → (b : List ℕ) → Stands (P.words player.old) b →
        (lines : List ScriptLine) × (text : List ℕ)
        × AreNext (P.took player.old) (P.took player.new) lines
        × (P.printed player.new ≡ P.printed player.old ++ text)
        × CutShort P.arming (P.words player.old) lines text stop (P.waiting player.new)
        (P.words player.new)) }
    ensures foreign { IfErr result (OnForeign
        (λ place. P.told player.new → (b : List ℕ) → Stands (P.words player.old) b → ⊥)) }
    ensures worn { IfErr result (OnWorn (λ count. count ≡ GUARD_HALFWORDS)) }
    ensures refused { IfErr result (OnRefused (P.refuses player.new)) }
    // None of the printed lines failed, unless it says so.
    ensures unfailed { P.unfailed player.old → result ≢ Err Stop.Output → P.unfailed player.new }
    // The source and the sink failed once where it says so, and else not at all.
    ensures input_counts { P.input_faults player.new
        ≡ after_stop input_counted result (P.input_faults player.old) }
    ensures output_counts { P.output_faults player.new
        ≡ after_stop output_counted result (P.output_faults player.old) }
{
    'runs: loop {
        match run_once(alloc, player) {
            Ok(()) => return Ok(()),
            Err(Break::Stopped(stop)) => return Err(stop),
            Err(Break::Lost) => match player.print_loss() {
                Ok(()) => {}
                Err(_) => return Err(Stop::Output),
            },
        }
    }
}
