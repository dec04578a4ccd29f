//! A program over a store of its own.
ghost use Rattle.std.specs.Prelude.{◌≡◌, ◌+◌, ◌*◌, ◌<◌, All, IfOk, IfErr, length, vec_len};
ghost use Rattle.tx_cells.specs.Contents.{nothing_held};
ghost use Rattle.tx_kv.specs.Maps.{held_in};
ghost use Rattle.tx_kv.specs.Programs.{IsUnopened, numbers_below};

use crate::client::Client;
use crate::live::Live;
use crate::maps::{Maps, StoreCells};
use crate::shared::Shared;
use crate::stats::Tally;
use crate::store::{journal, store};
use crate::unopened::Unopened;
use std::alloc::Global;
use std::marker::{Brand, Model};
use std::sync::Wait;
use std::thread::{Threads, map_vec};
use tx_journal::{JournalId, Opened};
use tx_store::Store;
use tx_types::Fault;
use tx_update::Seats;

/// What a program does with the clients of a store. The store's journal has its name, `J`, in the
/// type of each client, so that none is taken for another's.
///
/// ```
/// impl<R: Wait> Program<R> for Greet {
///     type Out = bool;
///     type Answer = usize;
///
///     fn run<J: JournalId>(&self, client: &mut Client<'_, J, R>) -> bool {
///         client.update(&mut Hello).is_ok()
///     }
///
///     fn end<J: JournalId>(self, _: &mut Client<'_, J, R>, first: Vec<bool>) -> usize {
///         first.into_iter().filter(|is| *is).count()
///     }
/// }
/// ```
pub trait Program<R: Wait>: Drop + Sync {
    /// What a client answers.
    type Out: Drop + Send;

    /// What all comes to.
    type Answer;

    /// In which maps the store's regions keep their keys: nested ones, where it is left out.
    fn maps(&self) -> Maps {
        Maps::Nested
    }

    /// Done first, by a client of its own.
    fn begin<J: JournalId>(&mut self, client: &mut Client<'_, J, R>) {
        let _ = client;
    }

    /// What each client does, on a thread of its own.
    fn run<J: JournalId>(&self, client: &mut Client<'_, J, R>) -> Self::Out;

    /// Done last, by the client that began, with what the others answered, in their order: as many
    /// as there are.
    fn end<J: JournalId>(self, client: &mut Client<'_, J, R>, outs: Vec<Self::Out>) -> Self::Answer;
}

// A client to be run.
#[derive(Drop)]
struct Job<J: JournalId> {
    number: usize,
    seats: Seats<J>,
}

impl<J: JournalId> Model for Job<J> {
    ghost use Rattle.std.specs.Prelude.{ℕ};

    ghost Value = { ℕ };

    ghost view = { λ job. job.number };
}

// The clients to be run, in order.
fn jobs<J: JournalId>(alloc: Global, mut pairs: Vec<Seats<J>>) -> Result<Vec<Job<J>>, Fault>
    ensures numbers { IfOk result (λ jobs. jobs.items ≡ numbers_below (vec_len pairs)) }
    ensures below { IfOk result (λ jobs. All (λ number. number < vec_len pairs) jobs.items) }
    ensures err { IfErr result (λ e. e ≡ Fault.OutOfMemory) }
{
    let mut jobs = Vec::new(alloc);
    for number in 0..pairs.len() {
        let Some(seats) = pairs.pop() else {
            unreachable!()
        };
        jobs.push(Job { number, seats })?;
    }
    Ok(jobs)
}

// Runs a client.
fn run_one<J: JournalId, R: Wait, P: Program<R>>(
    rt: &R,
    alloc: Global,
    store: &Store<J, StoreCells>,
    shared: Shared<'_>,
    program: &P,
    job: Job<J>,
) -> P::Out
    requires few { shared.clients < 1024 }
    requires one { job < shared.clients }
{
    let Job { number, seats } = job;
    let mut client = Client::new(rt, alloc, store, shared, number, seats);
    program.run(&mut client)
}

// Runs each client on a thread of its own.
fn run_each<J: JournalId + Send + Sync, R: Threads + Wait + Sync, P: Program<R>>(
    rt: &R,
    alloc: Global,
    store: &Store<J, StoreCells>,
    shared: Shared<'_>,
    program: &P,
    jobs: Vec<Job<J>>,
) -> Result<Vec<P::Out>, Fault>
    requires few { shared.clients < 1024 }
    requires numbers { jobs.items ≡ numbers_below shared.clients }
    requires below { All (λ number. number < shared.clients) jobs.items }
    ensures count { IfOk result (λ outs. vec_len outs ≡ shared.entry.clients) }
    ensures err { IfErr result (λ e. e ≡ Fault.OutOfMemory) }
{
    let run = |job: Job<J>| -> P::Out
        requires { (job < shared.clients) × (shared.clients < 1024) }
    { run_one(rt, alloc, store, shared, program, job) };
    let outs = map_vec(rt, jobs, &run)?;
    Ok(outs)
}

// Runs a program over a journal that was opened, with so many clients and one that begins and ends.
fn run_over<J: JournalId + Send + Sync, R: Threads + Wait + Sync, P: Program<R>>(
    rt: &R,
    alloc: Global,
    opened: Opened,
    families: Vec<StoreCells>,
    clients: usize,
    mut program: P,
) -> Result<P::Answer, Fault>
    requires name { (opened.table ≡ J.table) × (opened.bounds ≡ J.bounds) × (opened.seats ≡ J.seats) }
    requires seats { opened.seats ≡ length opened.bounds + 1 + (clients * 2 + 2) }
    requires few { clients < 1024 }
    requires count { vec_len families ≡ length J.bounds + 1 }
    requires empty { All (λ f. held_in f ≡ (λ k. nothing_held)) families.items }
    ensures err { IfErr result (λ e. e ≡ Fault.OutOfMemory) }
{
    let (store, mut pairs) = store::<J>(alloc, opened, families)?;
    let Some(first) = pairs.pop() else {
        unreachable!()
    };
    let jobs = jobs(alloc, pairs)?;
    let live = Live::new(alloc, clients + 1)?;
    let tally = Tally::new();
    let shared = Shared {
        live: &live,
        tally: &tally,
        clients,
    };
    let mut client = Client::new(rt, alloc, &store, shared, clients, first);
    program.begin(&mut client);
    let outs = run_each(rt, alloc, &store, shared, &program, jobs)?;
    let answer = program.end(&mut client, outs);
    drop(client);
    Ok(answer)
}

/// Opens a store in memory over regions with these keys between them, which rise, and runs a
/// program over it: what the program answers. It has so many clients on threads of their own, and
/// one more that begins and ends. `NotRising`, `TooMany` and `Refused(KeyLength)` are by what it is
/// given alone, before anything is done; `Refused(OutOfMemory)` may also come after `begin`, where
/// a thread's memory was refused.
///
/// ```
/// let first = with_store(&rt, rt.alloc(), &[b"m"], 2, Greet)?;
/// ```
pub fn with_store<R: Threads + Wait + Sync, P: Program<R>>(
    rt: &R,
    alloc: Global,
    bounds: &[&[u8]],
    clients: usize,
    program: P,
) -> Result<P::Answer, Unopened>
    ensures unopened { IfErr result (IsUnopened (length bounds.now) clients) }
{
    let (opened, families) = journal(alloc, bounds, clients, program.maps())?;
    Ok(run_over::<Brand, R, P>(rt, alloc, opened, families, clients, program)?)
}
