use desk_io::{Change, Row};
use keeper::{KeepFault, Keeper};
use pg_keeper::{PgKeeper, TcpDial};
use sqlite_keeper::SqliteKeeper;
use std::alloc::Global;

/// A keeper of rows at a server over TCP.
pub type ServerKeeper = PgKeeper<TcpDial<HostRuntime>>;

/// A keeper of rows in a file, or at a server. The same one makes every call.
#[derive(Drop)]
pub enum EitherKeeper {
    File(SqliteKeeper),
    Server(ServerKeeper),
}

impl Keeper for EitherKeeper {
    ghost use Rattle.chosen_keeper.specs.declared.either.EitherKeeper.TheVariants.{File, Server};

    ghost seen = { λ k. elim k [ File file ↦ ⟦<SqliteKeeper as Keeper>⟧.seen file | Server server ↦ ⟦<ServerKeeper as Keeper>⟧.seen server ] };

    fn load(&mut self, alloc: Global) -> Result<Vec<Row>, KeepFault> {
        match self {
            EitherKeeper::File(keeper) => keeper.load(alloc),
            EitherKeeper::Server(keeper) => keeper.load(alloc),
        }
    }

    fn commit(&mut self, alloc: Global, changes: &[Change]) -> Result<(), KeepFault> {
        match self {
            EitherKeeper::File(keeper) => keeper.commit(alloc, changes),
            EitherKeeper::Server(keeper) => keeper.commit(alloc, changes),
        }
    }

    fn faults(&self) -> u64 {
        match self {
            EitherKeeper::File(keeper) => keeper.faults(),
            EitherKeeper::Server(keeper) => keeper.faults(),
        }
    }
}
