//! The clients of a run, before it and after it.

ghost use Rattle.std.specs.Prelude.{◌≡◌, ◌++◌, ◌+◌, ◌≤◌, IfOk, OnOk, length, map, vec_capacity, vec_len};
ghost use Rattle.client_threads.specs.served.Served.{client_in, ended_in};

use crate::clients::ClientTask;
use crate::session::ClientSession;
use client_core::Client;
use client_runner::Task;
use database_interface::Database;
use database_protocol::ClientEnd;
use std::alloc::{AllocError, Global};

/// A client after a run.
#[derive(Drop)]
pub struct EndedClient {
    pub client: Client,
    /// How it has ended; None where it has not begun.
    pub end: Option<ClientEnd>,
}

/// The clients, ready for threads. Out of memory is the only error.
pub(crate) fn tasks_of<B: Database + Drop>(
    alloc: Global,
    clients: Vec<Client>,
) -> Result<Vec<ClientTask<B>>, AllocError>
    ensures { IfOk result (λ tasks. map client_in tasks.items ≡ clients.items) }
{
    let tasks = Vec::with_capacity(alloc, clients.len())?;
    Ok(add_tasks(clients, tasks))
}

/// Adds the clients, for which there is room.
fn add_tasks<B: Database + Drop>(
    clients: Vec<Client>,
    tasks: Vec<ClientTask<B>>,
) -> Vec<ClientTask<B>>
    requires room { vec_len tasks + length clients.items ≤ vec_capacity tasks }
    ensures { map client_in result.items ≡ map client_in tasks.items ++ clients.items }
{
    let mut clients = clients;
    let mut tasks = tasks;
    if clients.is_empty() {
        return tasks;
    }
    let client = clients.remove(0);
    tasks.push_reserved(Task::new(ClientSession { client }));
    add_tasks(clients, tasks)
}

/// Adds the clients after their run, for which there is room.
pub(crate) fn ended_clients<B: Database + Drop>(
    tasks: Vec<ClientTask<B>>,
    ended: Vec<EndedClient>,
) -> Vec<EndedClient>
    requires room { vec_len ended + length tasks.items ≤ vec_capacity ended }
    ensures { result.items ≡ ended.items ++ map ended_in tasks.items }
{
    let mut tasks = tasks;
    let mut ended = ended;
    if tasks.is_empty() {
        return ended;
    }
    let task = tasks.remove(0);
    ended.push_reserved(ended_client(task));
    ended_clients(tasks, ended)
}

/// The client after its run.
fn ended_client<B: Database + Drop>(task: ClientTask<B>) -> EndedClient
    ensures { result ≡ ended_in task }
{
    let Task {
        client,
        number: _,
        pass,
        end,
    } = task;
    drop(pass);
    let ClientSession { client } = client;
    EndedClient { client, end }
}
