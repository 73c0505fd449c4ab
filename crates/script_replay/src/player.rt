//! The calls of a node over a script's board, for a replay.
ghost use Rattle.std.specs.Prelude.{◌≡◌, ◌≢◌, ◌++◌, [], true, false, None, Some};
ghost use Rattle.std.specs.Prelude.{Err, IfOk, IfErr, OnOk};
ghost use Rattle.flash_traits.specs.Causes.{HasOneCause};
ghost use Rattle.flash_traits.specs.Losses.{Outcome};
ghost use Rattle.flash_traits.specs.declared.numbers.TheConstants.{GUARD_HALFWORDS};
ghost use Rattle.flash_traits.specs.Budget.{budget_of};
ghost use Rattle.sector_image.specs.FirstBad.{FirstBad};
ghost use Rattle.vehicle_node.specs.Refusals.{OnFault};
ghost use Rattle.vehicle_node.specs.Standing as standing;
ghost use Rattle.script_lines.specs.Script as script;
ghost use Rattle.script_board.specs.Printing.{loss_line};
ghost use Rattle.replay.specs.Breaks.{OnStopped, OnRefused, OnForeign, OnWorn};
ghost use Rattle.replay.specs.Breaks.{after_break, input_counted, output_counted};
ghost use Rattle.replay.specs.Playing.{OpenEnds, CloseEnds, QuietUses};
ghost use Rattle.replay.specs.declared.Break.TheVariants as breaks;
ghost use Rattle.replay.specs.declared.Stop.TheVariants as stops;
ghost use Rattle.script_replay.specs.Held.{StandsFor, HasLeft};
ghost use Rattle.script_replay.specs.Steps.Answers.{ended};
ghost use Rattle.script_replay.specs.Steps.Places.{Starts, Returns, Added, Printed, Plays, FitsAt};
ghost use Rattle.script_replay.specs.Steps.Places.{RefusesAt, TellsWritten, written_at, words_at};
ghost use Rattle.script_replay.specs.Steps.Places.{line_at, waiting_at, remaining_at};
ghost use Rattle.script_replay.specs.Steps.Places.{input_faults_at, output_faults_at};

use crate::held::Held;
use crate::start::{Beginning, Start};
use flash_traits::{Board, DATAGRAM_BYTES, Failed, Sink, Source};
use replay::{Break, Player, Stop};
use script_board::{ScriptBoard, ScriptMark};
use std::alloc::Global;
use std::marker::{Brand, PhantomData};
use vehicle_node::{Node, NodeError, Turn};

/// How a call ended: by the mark of its board, and where there is none as the node answered.
fn ended<T: Drop>(mark: Option<ScriptMark>, answer: Result<T, NodeError>) -> Result<T, Break>
    requires no_fault { mark ≡ None → IfErr answer (λ e. OnFault e (λ kind. ⊥)) }
    ensures { result ≡ ended mark answer }
{
    match mark {
        Some(ScriptMark::Lost) => Err(Break::Lost),
        Some(ScriptMark::Refused { line }) => Err(Break::Stopped(Stop::Refused { line })),
        Some(ScriptMark::Input) => Err(Break::Stopped(Stop::Input)),
        Some(ScriptMark::Output) => Err(Break::Stopped(Stop::Output)),
        None => match answer {
            Ok(value) => Ok(value),
            Err(NodeError::Memory) => Err(Break::Stopped(Stop::Memory)),
            Err(
                NodeError::Foreign {
                    region,
                    offset,
                    word,
                },
            ) => Err(Break::Stopped(Stop::Foreign {
                region,
                offset,
                word,
            })),
            Err(NodeError::Worn { count }) => Err(Break::Stopped(Stop::Worn { count })),
            Err(NodeError::Fault(_)) => unreachable!(),
        },
    }
}

/// A buffer for one datagram.
fn empty_buffer() -> [u8; DATAGRAM_BYTES] {
    [0; DATAGRAM_BYTES]
}

/// Takes the board out of the place for one call of a node, which makes a reception at most where
/// it has room for one. No failure of the call before is left.
fn hold<'a, S: Source, K: Sink, N: Start>(
    place: &mut Option<ScriptBoard<'a, S, K>>,
    room: bool,
) -> Held<'a, S, K, N>
    requires starts { Starts N.Start place.old }
    requires room { room ≡ N.room }
    ensures lists { StandsFor N.Start result.room result.over result.board result.heard
        result.buffer [] [] }
    ensures anew { (o : Outcome)
        → HasLeft N.Start result.over result.board result.heard result.buffer o
        → (o.events ≡ []) × (o.frames ≡ []) }
    ensures words { words_at (Some result.board) ≡ words_at place.old }
    ensures fits { (node : standing.Node) → FitsAt ⟦<ScriptBoard<'a, S, K> as Board>⟧ place.old node
        → FitsAt ⟦<ScriptBoard<'a, S, K> as Board>⟧ (Some result.board) node }
{
    let Some(mut board) = place.take() else {
        unreachable!();
    };
    board.mark = None;
    board.faults[3] = 0;
    Held {
        board,
        room,
        over: false,
        heard: None,
        buffer: empty_buffer(),
        attaches: 0,
        reads: 0,
        writes: 0,
        receptions: 0,
        sendings: 0,
        names: PhantomData::<N>,
    }
}

/// Puts the board back into the place, and tells the mark of the call.
fn put_back<'a, S: Source, K: Sink, N: Start>(
    held: Held<'a, S, K, N>,
    place: &mut Option<ScriptBoard<'a, S, K>>,
) -> Option<ScriptMark>
    ensures back { place.new ≡ Some held.entry.board }
    ensures mark { result ≡ held.entry.board.mark }
{
    let Held {
        board,
        room: _,
        over: _,
        heard: _,
        buffer: _,
        attaches: _,
        reads: _,
        writes: _,
        receptions: _,
        sendings: _,
        names: _,
    } = held;
    let mark = board.mark;
    let _ = place.replace(board);
    mark
}

/// Opens a node over the board in the place.
fn open_on<'a, S: Source, K: Sink, N: Start>(
    alloc: Global,
    place: &mut Option<ScriptBoard<'a, S, K>>,
) -> Result<Node, Break>
    requires starts { Starts N.Start place.old }
    requires no_room { N.room ≡ false }
    ensures back { Returns N.Start place.new }
    ensures added { Added N.Start place.new [] }
    ensures fits { IfOk result
        (λ node. FitsAt ⟦<ScriptBoard<'a, S, K> as Board>⟧ place.new node) }
    ensures printed { result ≢ Err (breaks.Stopped stops.Output)
        → Printed N.Start place.new [] }
    ensures ends { result ≢ Err (breaks.Stopped stops.Output) → TellsWritten place.new
        → OpenEnds (budget_of N.sector_bytes) result (words_at place.old) (words_at place.new) }
    ensures uses { QuietUses result N.waiting (waiting_at place.new) }
    ensures foreign { IfErr result
        (OnStopped (OnForeign (λ word. FirstBad (words_at place.old) word))) }
    ensures worn { IfErr result (OnStopped (OnWorn (λ count. count ≡ GUARD_HALFWORDS))) }
    ensures refused { IfErr result (OnStopped (OnRefused (λ line. ⊥))) }
    ensures input_counts { input_faults_at place.new
        ≡ after_break input_counted result N.input_faults }
    ensures output_counts { output_faults_at place.new
        ≡ after_break output_counted result N.output_faults }
{
    let mut held = hold::<S, K, N>(place, false);
    let answer = Node::open(alloc, &mut held);
    ended(put_back(held, place), answer)
}

/// Plays one event over the board in the place.
fn event_on<'a, S: Source, K: Sink, N: Start>(
    node: &mut Node,
    place: &mut Option<ScriptBoard<'a, S, K>>,
) -> Result<Turn, Break>
    requires starts { Starts N.Start place.old }
    requires room { N.room ≡ true }
    requires fits { FitsAt ⟦<ScriptBoard<'a, S, K> as Board>⟧ place.old node.old }
    ensures back { Returns N.Start place.new }
    ensures plays { Plays N.Start (budget_of N.sector_bytes) place.new node.old node.new result }
    ensures fits { OnOk result (FitsAt ⟦<ScriptBoard<'a, S, K> as Board>⟧ place.new node.new) }
    ensures foreign { IfErr result (OnStopped (OnForeign (λ word. ⊥))) }
    ensures worn { IfErr result (OnStopped (OnWorn (λ count. count ≡ GUARD_HALFWORDS))) }
    ensures refused { IfErr result (OnStopped (OnRefused (RefusesAt place.new))) }
    ensures input_counts { input_faults_at place.new
        ≡ after_break input_counted result N.input_faults }
    ensures output_counts { output_faults_at place.new
        ≡ after_break output_counted result N.output_faults }
{
    let mut held = hold::<S, K, N>(place, true);
    let mut buffer = empty_buffer();
    let answer = node.event(&mut held, &mut buffer);
    ended(put_back(held, place), answer)
}

/// Closes a node over the board in the place.
fn close_on<'a, S: Source, K: Sink, N: Start>(
    node: Node,
    place: &mut Option<ScriptBoard<'a, S, K>>,
) -> Result<(), Break>
    requires starts { Starts N.Start place.old }
    requires no_room { N.room ≡ false }
    requires fits { FitsAt ⟦<ScriptBoard<'a, S, K> as Board>⟧ place.old node }
    ensures back { Returns N.Start place.new }
    ensures added { Added N.Start place.new [] }
    ensures printed { result ≢ Err (breaks.Stopped stops.Output)
        → Printed N.Start place.new [] }
    ensures ends { result ≢ Err (breaks.Stopped stops.Output) → TellsWritten place.new
        → CloseEnds (budget_of N.sector_bytes) result node (words_at place.new) }
    ensures uses { QuietUses result N.waiting (waiting_at place.new) }
    ensures foreign { IfErr result (OnStopped (OnForeign (λ word. ⊥))) }
    ensures worn { IfErr result (OnStopped (OnWorn (λ count. count ≡ GUARD_HALFWORDS))) }
    ensures refused { IfErr result (OnStopped (OnRefused (λ line. ⊥))) }
    ensures input_counts { input_faults_at place.new
        ≡ after_break input_counted result N.input_faults }
    ensures output_counts { output_faults_at place.new
        ≡ after_break output_counted result N.output_faults }
{
    let mut held = hold::<S, K, N>(place, false);
    let answer = node.close(&mut held);
    ended(put_back(held, place), answer)
}

/// Prints `loss`.
fn print_on<'a, S: Source, K: Sink, N: Start>(
    place: &mut Option<ScriptBoard<'a, S, K>>,
) -> Result<(), Failed>
    requires starts { Starts N.Start place.old }
    ensures back { Returns N.Start place.new }
    ensures added { Added N.Start place.new [] }
    ensures printed { OnOk result
        (TellsWritten place.new → written_at place.new ≡ N.written ++ loss_line) }
    ensures words { words_at place.new ≡ words_at place.old }
    ensures waiting { waiting_at place.new ≡ N.waiting }
    ensures input_counts { input_faults_at place.new ≡ N.input_faults }
    ensures output { HasOneCause N.output_faults (output_faults_at place.new) result }
{
    let Some(mut board) = place.take() else {
        unreachable!();
    };
    let printed = board.print_loss();
    let _ = place.replace(board);
    printed
}

/// Whether none of the printed lines failed, after a call that ended so.
fn still_printed<T>(printed: bool, answer: &Result<T, Break>) -> bool
    ensures before { result ≡ true → printed ≡ true }
    ensures unfailed { result ≡ true → answer.now ≢ Err (breaks.Stopped stops.Output) }
    ensures kept { printed ≡ true → answer.now ≢ Err (breaks.Stopped stops.Output)
        → result ≡ true }
{
    match answer {
        Err(Break::Stopped(Stop::Output)) => false,
        _ => printed,
    }
}

/// The board of a replay, between the calls of its nodes.
#[derive(Drop)]
pub(crate) struct ScriptPlayer<'a, S: Source, K: Sink, M: Beginning> {
    pub(crate) place: Option<ScriptBoard<'a, S, K>>,
    /// None of the printed lines failed.
    pub(crate) printed: bool,
    pub(crate) start: PhantomData<M>,
}

impl<'a, S: Source, K: Sink, M: Beginning> Player for ScriptPlayer<'a, S, K, M> {
    ghost use Rattle.script_replay.specs.Steps.Places.{HoldsAt, ToldAt, TookAt};

    ghost holds = { λ p. HoldsAt M.Beginning p.place };

    ghost told = { λ p. ToldAt p.printed p.place };

    ghost unfailed = { λ p. p.printed ≡ true };

    ghost told_unfailed = { λ p told. told.unfailed };

    ghost words = { λ p. words_at p.place };

    ghost took = { λ p. TookAt M.rest p.place };

    ghost printed = { λ p. written_at p.place };

    ghost fits = { λ p. FitsAt ⟦<ScriptBoard<'a, S, K> as Board>⟧ p.place };

    ghost waiting = { λ p. waiting_at p.place };

    ghost refuses = { λ p. RefusesAt p.place };

    ghost input_faults = { λ p. input_faults_at p.place };

    ghost output_faults = { λ p. output_faults_at p.place };

    ghost arming = { budget_of M.sector_bytes };

    ghost remaining = { λ p. remaining_at p.place };

    fn open(&mut self, alloc: Global) -> Result<Node, Break> {
        let opened = open_on::<S, K, Brand>(alloc, &mut self.place);
        self.printed = still_printed(self.printed, &opened);
        opened
    }

    fn event(&mut self, node: &mut Node) -> Result<Turn, Break> {
        let played = event_on::<S, K, Brand>(node, &mut self.place);
        self.printed = still_printed(self.printed, &played);
        played
    }

    fn close(&mut self, node: Node) -> Result<(), Break> {
        let closed = close_on::<S, K, Brand>(node, &mut self.place);
        self.printed = still_printed(self.printed, &closed);
        closed
    }

    fn print_loss(&mut self) -> Result<(), Failed> {
        match print_on::<S, K, Brand>(&mut self.place) {
            Ok(()) => Ok(()),
            Err(failed) => {
                self.printed = false;
                Err(failed)
            }
        }
    }
}
