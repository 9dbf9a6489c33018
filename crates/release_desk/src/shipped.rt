ghost use Rattle.std.specs.Prelude.{map, string_bytes};
ghost use Rattle.alerts.specs.Ringing.{dropped_seen};
ghost use Rattle.commands.specs.Seen.{lent, service};
ghost use Rattle.commands.specs.Shipped.{Runs};
ghost use Rattle.desk_io.specs.Over.{over};
ghost use Rattle.words.specs.Words.{command_of};

use crate::busy_gate::BusyGate;
use crate::stderr_bell::StderrBell;
use crate::stderr_progress::StderrProgress;
use alerts::Bell;
use chosen_keeper::EitherKeeper;
use commands::{Ending, desk_main};
use desk_io::{FileShelf, Shelf, Sink, StdoutSink};
use desk_net::{Clock, Door, Link, SystemClock, TcpDoor};
use keeper::Keeper;
use std::alloc::Global;
use std::sync::Wait;
use std::thread::Threads;
use timeouts::TimedNet;

/// The bell of the shipped program.
pub(crate) type DeskBell = StderrBell<HostRuntime, HostRuntime>;

/// How the shipped program ends.
pub(crate) type Shipped<'a> = Ending<
    EitherKeeper,
    SystemClock<HostRuntime>,
    TcpDoor<TimedNet<'a, HostRuntime>>,
    DeskBell,
>;

/// Runs the command in the arguments over files, standard output, the system's clock, the chosen keeper, TCP and standard
/// error.
///
/// The contract is about what the calls of files, standard output, the clock, the keeper and TCP returned and accepted, as
/// each of them records it: the tables and the scripts are those that the files returned, and the requests and responses
/// are those that crossed each connection. It doesn't say what the bells and the progress printed. Apart from starting
/// threads, nothing reaches the machine except through these objects.
#[tactic(auto, using(crate::proofs::KeeperCrossing::EitherKeeper_send, crate::proofs::BellCrossing::StderrBell_send))]
pub(crate) fn run_shipped<'a, R: Threads + Wait + Sync>(
    threads: &R,
    alloc: Global,
    words: &[String],
    shelf: &mut FileShelf<HostRuntime>,
    out: &mut StdoutSink<HostRuntime>,
    clock: SystemClock<HostRuntime>,
    keeper: EitherKeeper,
    door: TcpDoor<TimedNet<'a, HostRuntime>>,
    gate: &BusyGate<'a, StderrProgress<HostRuntime>>,
    bells: Vec<DeskBell>,
) -> Shipped<'a>
    ensures { Runs (command_of (map string_bytes words.now))
        (over ⟦<FileShelf<HostRuntime> as Shelf>⟧.seen shelf.old shelf.new)
        (over ⟦<StdoutSink<HostRuntime> as Sink>⟧.seen out.old out.new)
        (service ⟦<SystemClock<HostRuntime> as Clock>⟧.seen ⟦<TcpDoor<TimedNet<'a, HostRuntime>> as Door>⟧.seen
        ⟦<<TcpDoor<TimedNet<'a, HostRuntime>> as Door>::Link as Link>⟧.seen clock result.clock door.entry result.door)
        (lent ⟦<EitherKeeper as Keeper>⟧.seen keeper result.keeper)
        (map ⟦<DeskBell as Bell>⟧.seen bells.items) (map ⟦<DeskBell as Bell>⟧.seen result.bells.items)
        (map (dropped_seen ⟦<DeskBell as Bell>⟧.seen) result.dropped.items)
        result.board result.status }
{
    desk_main(
        threads, alloc, words, shelf, out, clock, keeper, door, gate, bells,
    )
}
