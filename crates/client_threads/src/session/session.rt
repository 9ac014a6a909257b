//! The session of a client that runs block code.

ghost use Rattle.std.specs.Prelude.{[], refl};
ghost use Rattle.client_core.specs.Refines.{Refines, HasNotBegun};
ghost use Rattle.client_core.specs.Work.{ShowsNextStep};
ghost use Rattle.client_threads.specs.session.Along.{Goes, IsCareful, IsOnLevels};

use client_core::Client;
use client_runner::Session;
use client_runner::laws::open_levels_are_of_own_events;
use database_protocol::{Answer, NextStep};

/// A client that runs block code. It is certain of its operations on levels.
#[derive(Drop)]
pub struct ClientSession {
    pub client: Client,
}

impl Session for ClientSession {
    ghost begins = { λ c m. HasNotBegun c.client × Refines c.client m.names m.run [] };

    ghost along = { λ c m own next. Goes c.client m own next };

    ghost shows = { λ c next. ShowsNextStep c.client next };

    ghost may_request = { λ op. Unit {0} };

    ghost suits = { λ c setting. Unit {0} };

    ghost careful = { IsCareful };

    ghost certain = { IsOnLevels };

    fn resume(&mut self, answer: Option<Answer>) -> NextStep {
        open_levels_are_of_own_events();
        self.client.resume(answer)
    }

    ghost sure = { λ c setting m n own op suits careful goes on_levels fits unrefused. goes.sure setting n op refl on_levels careful fits unrefused };
}
