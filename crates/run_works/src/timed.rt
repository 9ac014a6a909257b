//! The database of a run.

ghost use Rattle.std.specs.Prelude.{◌≡◌};

use crate::watched::Start;
use database_interface::Database;
use database_protocol::{Answer, Op};
use db_machine::Db;
use row_store::RowStore;
use std::marker::PhantomData;

/// A database whose stops are known from the beginning of a run on. What runs clients says of the
/// database that it hands back that it was opened with the same contents, and this type that it was
/// opened at the same moment.
#[derive(Drop)]
pub struct Timed<S: RowStore + Drop, K: Start> {
    pub database: Db<S>,
    pub of: PhantomData<K>,
    ghost since: { (S.times database.rows).since ≡ K.moment },
}

impl<S: RowStore + Drop, K: Start> Database for Timed<S, K> {
    ghost use Rattle.db_machine.specs.Database.{blocked_as, legal, one_of};

    ghost has_setting = { λ timed f. ⟦<Db<S> as Database>⟧.has_setting timed.database f };

    ghost opened = { λ timed f contents. ⟦<Db<S> as Database>⟧.opened timed.database f contents };

    ghost trace = { λ timed. ⟦<Db<S> as Database>⟧.trace timed.database };

    ghost serves = { λ timed client op. ⟦<Db<S> as Database>⟧.serves timed.database client op };

    ghost active = { λ timed client. ⟦<Db<S> as Database>⟧.active timed.database client };

    ghost blocked = { λ timed client. ⟦<Db<S> as Database>⟧.blocked timed.database client };

    fn events(&self) -> u64 {
        self.database.events()
    }

    fn frees(&self) -> u64 {
        self.database.frees()
    }

    fn waits(&self, client: u16) -> bool {
        self.database.waits(client)
    }

    fn step(&mut self, client: u16, op: Op) -> Option<Answer> {
        self.database.execute(client, op)
    }

    ghost legal = { λ timed f contents opened. legal (S.state timed.database.rows) (S.left timed.database.rows) (S.times timed.database.rows) timed.database f contents opened };

    ghost opened_of = { λ timed f contents opened. opened.setting };

    ghost known = { λ timed f client has active. one_of timed.database f client has active };

    ghost blocked_as = { λ timed f contents client opened. blocked_as (S.state timed.database.rows) (S.left timed.database.rows) (S.times timed.database.rows) timed.database f contents client opened };
}
