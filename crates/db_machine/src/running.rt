//! Which clients have not ended.

ghost use Rattle.std.specs.Prelude.{◌≡◌, ◌≢◌, ◌+◌, ◌↔◌, IfOk, IsTrue, length, replicate, true, false, slice_set};
ghost use Rattle.database_protocol.specs.declared.operation.Op.{Op as Asked};
ghost use Rattle.db_machine.specs.Running.{EndsAtEnd, IsRunning, running_in};

use crate::trace_size::is_end;
use database_protocol::Op;
use std::alloc::{AllocError, Global};
use std::marker::Model;

/// For each client whether it has not ended, and how many have not.
#[derive(Drop)]
pub struct Running {
    clients: Vec<bool>,
    count: usize,
}

impl Model for Running {
    ghost use Rattle.std.specs.Prelude.{◌≡◌, Bool, List};
    ghost use Rattle.db_machine.specs.Running.{running_in};

    ghost Value = { List Bool };

    ghost view = { λ r. r.clients.items };

    ghost invariant = { λ r. r.count ≡ running_in r.clients.items };
}

impl Running {
    /// This number of clients, none of which has ended. An error means out of memory.
    pub fn new(alloc: Global, clients: u16) -> Result<Running, AllocError>
        ensures { IfOk result (λ running. running ≡ replicate clients true) }
    {
        Ok(Running {
            clients: vec![in alloc; true; clients as usize]?,
            count: clients as usize,
        })
    }

    /// The number of clients that have not ended.
    pub fn count(&self) -> usize
        ensures { result ≡ running_in self.now }
    {
        self.count
    }

    /// Whether this is a client that has not ended.
    pub fn has(&self, client: u16) -> bool
        ensures { IsTrue result ↔ IsRunning self.now client }
    {
        let client = client as usize;
        client < self.clients.len() && self.clients[client]
    }

    /// The client has ended.
    fn end(&mut self, client: u16)
        requires { IsRunning self.old client }
        ensures { self.new ≡ slice_set self.old client false }
    {
        self.clients[client as usize] = false;
        self.count -= 1;
    }

    /// Notes the operation of a client, which ends at its End.
    pub fn note(&mut self, client: u16, op: &Op)
        requires { IsRunning self.old client }
        ensures { EndsAtEnd self.old client op.now self.new }
    {
        if is_end(op) {
            self.end(client);
        }
    }
}
