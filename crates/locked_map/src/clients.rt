//! Clients of one map, each on a thread of its own.
ghost use Rattle.std.specs.Prelude.{◌≡◌, ℕ, ◌<◌, ◌≤◌, All, IfOk, map, slice_index_or, vec_len};
ghost use Rattle.std.specs.Thread.{IsSync};
ghost use Rattle.handles.specs.Views.{machine};
ghost use Rattle.journal.specs.Journals.{IsLegal};
ghost use Rattle.locked_map.specs.Closings.{BearsOut};
ghost use Rattle.locked_map.specs.Seats.{AllFresh, Seated, fresh};

use crate::closed::Closed;
use crate::lending::{MOST_SEATS, closed_under};
use crate::seat::Seat;
use crate::shared_map::SharedMap;
use bulk_work::Asks;
use handles::{Limits, MOST_ENTRIES};
use hash_path::PathKey;
use journal::{Entries, JournalName};
use sized_threads::{Work, map_vec};
use std::alloc::{AllocError, Global};
use std::marker::{Brand, PhantomData};
use std::sync::Wait;
use std::thread::Threads;
use versions::{MOST_PAIRS, NoMemory};

/// The stack of a client's thread, in bytes. The first client is run by the caller's thread, and has the caller's.
///
/// The deepest calls that were found, about maps of up to 20,000 pairs by a script's client, work with 64 KiB and not
/// with 48; no map's are much deeper, since a trie has at most 13 levels. This is eight times that, for what else a
/// client does.
pub const CLIENT_STACK: usize = 512 * 1024;

/// What one client does with a map, whichever map it is. Clients of several kinds are the variants of one enum.
///
/// <!-- quoted from crates/example_index/src/indexer.rt -->
/// ```rust
/// match self {
///     Indexer::Writes { document, words } => write(rt, alloc, map, seat, document, words),
///     Indexer::Counts => count(rt, map, seat),
/// }
/// ```
pub trait Client<K: PathKey, V: Eq, Q: Asks<K, V>> {
    ghost use Rattle.bulk_work.specs.Answers as plain;

    /// What it returns.
    type Out;

    /// What it asks of its caller.
    ghost needs: { Self → Type 0 };

    /// What it guarantees of the seat that it leaves, with its entries, floors and marks, and of what it returns.
    ghost gives: { Self → Seated K V Q (plain.Summary K V Q.Item) → Self.Out → Type 0 };

    /// Makes its calls on its seat, which has filed nothing yet.
    fn run<J: JournalName, R: Threads + Wait + Sync>(
        self,
        rt: &R,
        alloc: Global,
        map: &SharedMap<K, V, Q, J>,
        seat: &mut Seat<K, V, Q, J>,
    ) -> Self::Out
        requires sync { IsSync R.row }
        requires needs { needs self }
        requires fresh { seat.old ≡ fresh seat.old.number }
        ensures gives { gives self seat.new result };
}

/// Why there is no journal of the clients' calls.
///
/// <!-- quoted from crates/example_index/src/fault.rt -->
/// ```rust
/// impl From<NoJournal> for Fault {
///     fn from(reason: NoJournal) -> Fault {
///         Fault::NoJournal(reason)
///     }
/// }
/// ```
#[derive(Clone, Copy, Debug, PartialEq, Eq)]
pub enum NoJournal {
    /// A request for memory, or the clone of an `Arc`, was refused.
    NoMemory,
    /// A client's seat is not what the journal has of it, or the table has other limits.
    Torn,
}

impl From<NoMemory> for NoJournal {
    fn from(_: NoMemory) -> NoJournal
        ensures { result ≡ NoJournal.NoMemory }
    {
        NoJournal::NoMemory
    }
}

impl From<AllocError> for NoJournal {
    fn from(_: AllocError) -> NoJournal
        ensures { result ≡ NoJournal.NoMemory }
    {
        NoJournal::NoMemory
    }
}

/// Runs the clients over a new map, each on a thread of its own and with the seat of its number, and closes the map
/// once all have ended. It returns what each returned, in their order, and the journal with the table that it leads to.
/// What a client guarantees of the seat that it leaves holds, and the journal and the table bear that seat out.
///
/// A client whose thread cannot be started is run by the caller's thread when those before it have ended.
///
/// A client's thread has a stack of `CLIENT_STACK` bytes. It is not started where there is not the address space for
/// the stack and for 128 MiB, by which the C library places a thread's heap.
///
/// Cost: O(s e) for s clients and e entries of the journal, beside the clients' own calls; no lock but those of these
/// calls. Refused: `NoJournal::NoMemory`, if memory runs out; `NoJournal::Torn`, as `SharedMap::close`, or where the
/// table has other limits.
pub fn with_clients<K, V, Q, C, R>(
    rt: &R,
    alloc: Global,
    limits: Limits,
    clients: Vec<C>,
) -> Result<(Vec<C::Out>, Closed<K, V, Q>), NoJournal>
where
    K: PathKey + Drop + Send + Sync,
    V: Eq + Drop + Send + Sync,
    Q: Asks<K, V> + Drop + Send + Sync,
    Q::Item: Drop + Send + Sync,
    Q::Part: Drop + Send + Sync,
    C: Client<K, V, Q> + Drop + Send + Sync,
    C::Out: Drop + Send,
    R: Threads + Wait + Sync,
    requires least_pairs { 1 ≤ limits.pairs }
    requires most_pairs { limits.pairs ≤ MOST_PAIRS }
    requires least_entries { 2 ≤ limits.entries }
    requires most_entries { limits.entries ≤ MOST_ENTRIES }
    requires seats { vec_len clients ≤ MOST_SEATS }
    requires needs { All C.needs clients.items }
    ensures legal { IfOk result (λ r. IsLegal (machine K.cmp V.eq Q.target_of Q.answered) limits r.1.journal r.1.table) }
    ensures len { IfOk result (λ r. vec_len r.0 ≡ vec_len clients) }
    ensures seats { IfOk result (λ r. All (λ e. e.seat < vec_len clients) r.1.journal) }
    ensures each { IfOk result (λ r. (k : ℕ) (c : C) (o : C.Out) → k < vec_len clients → (seat : _) × C.gives (slice_index_or clients.items k c) seat (slice_index_or r.0.items k o) × BearsOut k seat r.1.journal r.1.table) }
{
    let entries = Entries::new(alloc)?;
    run_in::<K, V, Q, Brand, C, R>(rt, alloc, entries, limits, clients)
}

// A client that has not begun, with its seat.
#[derive(Drop)]
struct Begun<K: PathKey, V, Q: Asks<K, V>, C, J: JournalName> {
    client: C,
    seat: Seat<K, V, Q, J>,
}

// What a client came to, with its seat.
#[derive(Drop)]
struct Ended<K: PathKey, V, Q: Asks<K, V>, O, J: JournalName> {
    out: O,
    seat: Seat<K, V, Q, J>,
}

// Runs the clients over the vector of this name.
fn run_in<K, V, Q, J, C, R>(
    rt: &R,
    alloc: Global,
    entries: Entries<K, V, Q, Q::Item>,
    limits: Limits,
    clients: Vec<C>,
) -> Result<(Vec<C::Out>, Closed<K, V, Q>), NoJournal>
where
    K: PathKey + Drop + Send + Sync,
    V: Eq + Drop + Send + Sync,
    Q: Asks<K, V> + Drop + Send + Sync,
    Q::Item: Drop + Send + Sync,
    Q::Part: Drop + Send + Sync,
    J: JournalName + Send + Sync,
    C: Client<K, V, Q> + Drop + Send + Sync,
    C::Out: Drop + Send,
    R: Threads + Wait + Sync,
    requires table { entries ≡ J.table }
    requires least_pairs { 1 ≤ limits.pairs }
    requires most_pairs { limits.pairs ≤ MOST_PAIRS }
    requires least_entries { 2 ≤ limits.entries }
    requires most_entries { limits.entries ≤ MOST_ENTRIES }
    requires seats { vec_len clients ≤ MOST_SEATS }
    requires needs { All C.needs clients.items }
    ensures legal { IfOk result (λ r. IsLegal (machine K.cmp V.eq Q.target_of Q.answered) limits r.1.journal r.1.table) }
    ensures len { IfOk result (λ r. vec_len r.0 ≡ vec_len clients) }
    ensures seats { IfOk result (λ r. All (λ e. e.seat < vec_len clients) r.1.journal) }
    ensures each { IfOk result (λ r. (k : ℕ) (c : C) (o : C.Out) → k < vec_len clients → (seat : _) × C.gives (slice_index_or clients.items k c) seat (slice_index_or r.0.items k o) × BearsOut k seat r.1.journal r.1.table) }
{
    let Ok(map) = SharedMap::<K, V, Q, J>::new(alloc, entries, limits) else {
        drop(clients);
        return Err(NoJournal::NoMemory);
    };
    let Ok((outs, seats)) = run_seated(rt, &map, clients) else {
        drop(map);
        return Err(NoJournal::NoMemory);
    };
    let Ok(closed) = closed_under(map, limits, seats) else {
        drop(outs);
        return Err(NoJournal::Torn);
    };
    Ok((outs, closed))
}

// Each client by a thread of its own, with the seat of its number.
fn run_seated<K, V, Q, J, C, R>(
    rt: &R,
    map: &SharedMap<K, V, Q, J>,
    clients: Vec<C>,
) -> Result<(Vec<C::Out>, Vec<Seat<K, V, Q, J>>), NoMemory>
where
    K: PathKey + Drop + Send + Sync,
    V: Eq + Drop + Send + Sync,
    Q: Asks<K, V> + Drop + Send + Sync,
    Q::Item: Drop + Send + Sync,
    Q::Part: Drop + Send + Sync,
    J: JournalName + Send + Sync,
    C: Client<K, V, Q> + Drop + Send + Sync,
    C::Out: Drop + Send,
    R: Threads + Wait + Sync,
    requires seats { vec_len clients ≤ MOST_SEATS }
    requires needs { All C.needs clients.items }
    ensures outs { IfOk result (λ r. vec_len r.0 ≡ vec_len clients) }
    ensures seats { IfOk result (λ r. vec_len r.1 ≡ vec_len clients) }
    ensures each { IfOk result (λ r. (k : ℕ) (c : C) (o : C.Out) (s : _) → k < vec_len clients → C.gives (slice_index_or clients.items k c) (slice_index_or r.1.items k s) (slice_index_or r.0.items k o)) }
{
    let jobs = seated::<K, V, Q, J, C>(map.alloc, clients)?;
    let ended = run_all(rt, map, jobs)?;
    let (outs, seats) = parted(map.alloc, ended)?;
    Ok((outs, seats))
}

// Each client with the seat of its number.
fn seated<K, V, Q, J, C>(
    alloc: Global,
    clients: Vec<C>,
) -> Result<Vec<Begun<K, V, Q, C, J>>, NoMemory>
where
    K: PathKey + Drop,
    V: Drop,
    Q: Asks<K, V> + Drop,
    J: JournalName,
    C: Drop,
    requires { vec_len clients ≤ MOST_SEATS }
    ensures clients { IfOk result (λ v. map (λ b. b.client) v.items ≡ clients.items) }
    ensures seats { IfOk result (λ v. AllFresh (map (λ b. b.seat) v.items)) }
{
    let mut jobs = Vec::new(alloc);
    let mut number = 0;
    for client in clients {
        let Ok(()) = jobs.push(with_seat(alloc, client, number)) else {
            drop(jobs);
            return Err(NoMemory);
        };
        number += 1;
    }
    Ok(jobs)
}

fn with_seat<K, V, Q, J, C>(alloc: Global, client: C, number: u32) -> Begun<K, V, Q, C, J>
where
    K: PathKey + Drop,
    V: Drop,
    Q: Asks<K, V> + Drop,
    J: JournalName,
    C: Drop,
    ensures client { result.client ≡ client }
    ensures seat { result.seat ≡ fresh number }
{
    Begun {
        client,
        seat: Seat::new(alloc, number),
    }
}

// Each client by a thread of its own.
fn run_all<K, V, Q, J, C, R>(
    rt: &R,
    map: &SharedMap<K, V, Q, J>,
    jobs: Vec<Begun<K, V, Q, C, J>>,
) -> Result<Vec<Ended<K, V, Q, C::Out, J>>, AllocError>
where
    K: PathKey + Drop + Send + Sync,
    V: Eq + Drop + Send + Sync,
    Q: Asks<K, V> + Drop + Send + Sync,
    Q::Item: Drop + Send + Sync,
    Q::Part: Drop + Send + Sync,
    J: JournalName + Send + Sync,
    C: Client<K, V, Q> + Drop + Send + Sync,
    C::Out: Drop + Send,
    R: Threads + Wait + Sync,
    requires { All (λ b. C.needs b.client × (b.seat ≡ fresh b.seat.number)) jobs.items }
    ensures len { IfOk result (λ v. vec_len v ≡ vec_len jobs) }
    ensures each { IfOk result (λ v. (k : ℕ) (b : _) (e : _) → k < vec_len jobs → C.gives (slice_index_or jobs.items k b).client (slice_index_or v.items k e).seat (slice_index_or v.items k e).out) }
{
    let running = Running {
        rt,
        map,
        client: PhantomData,
    };
    map_vec(rt, map.alloc, CLIENT_STACK, jobs, &running)
}

// The run of a client on its seat.
#[derive(Drop)]
struct Running<'a, K: PathKey, V: Eq, Q: Asks<K, V>, C, J: JournalName, R> {
    rt: &'a R,
    map: &'a SharedMap<K, V, Q, J>,
    client: PhantomData<C>,
}

impl<K, V, Q, J, C, R> Work for Running<'_, K, V, Q, C, J, R>
where
    K: PathKey + Drop,
    V: Eq + Drop,
    Q: Asks<K, V> + Drop,
    J: JournalName,
    C: Client<K, V, Q>,
    R: Threads + Wait + Sync,
{
    type Job = Begun<K, V, Q, C, J>;

    type Out = Ended<K, V, Q, C::Out, J>;

    ghost needs = { λ _ job. IsSync R.row × C.needs job.client × (job.seat ≡ fresh job.seat.number) };

    ghost gives = { λ _ job result. C.gives job.client result.seat result.out };

    fn run(&self, job: Begun<K, V, Q, C, J>) -> Ended<K, V, Q, C::Out, J> {
        run_one(self.rt, self.map, job)
    }
}

fn run_one<K, V, Q, J, C, R>(
    rt: &R,
    map: &SharedMap<K, V, Q, J>,
    job: Begun<K, V, Q, C, J>,
) -> Ended<K, V, Q, C::Out, J>
where
    K: PathKey + Drop,
    V: Eq + Drop,
    Q: Asks<K, V> + Drop,
    J: JournalName,
    C: Client<K, V, Q>,
    R: Threads + Wait + Sync,
    requires sync { IsSync R.row }
    requires needs { C.needs job.client × (job.seat ≡ fresh job.seat.number) }
    ensures { C.gives job.client result.seat result.out }
{
    let Begun { client, mut seat } = job;
    let out = client.run(rt, map.alloc, map, &mut seat);
    Ended { out, seat }
}

// The results and the seats.
fn parted<K, V, Q, J, O>(
    alloc: Global,
    ended: Vec<Ended<K, V, Q, O, J>>,
) -> Result<(Vec<O>, Vec<Seat<K, V, Q, J>>), NoMemory>
where
    K: PathKey + Drop,
    V: Drop,
    Q: Asks<K, V> + Drop,
    J: JournalName,
    O: Drop,
    ensures outs { IfOk result (λ r. r.0.items ≡ map (λ e. e.out) ended.items) }
    ensures seats { IfOk result (λ r. r.1.items ≡ map (λ e. e.seat) ended.items) }
{
    let mut outs = Vec::new(alloc);
    let mut seats = Vec::new(alloc);
    for one in ended {
        let Ended { out, seat } = one;
        let (put, seated) = (outs.push(out), seats.push(seat));
        let (Ok(()), Ok(())) = (put, seated) else {
            drop((outs, seats));
            return Err(NoMemory);
        };
    }
    Ok((outs, seats))
}
