//! A thread for each job.
ghost use Rattle.std.specs.Prelude.{◌≡◌, IfErr};
ghost use Rattle.work_server.specs.Serving.{EndsServer};

use crate::acceptor::Acceptor;
use crate::serving::serve_work;
use crate::spawner::{Spawner, Work, WorkMaker};
use counts::Count;
use std::alloc::Global;
use std::collections::VecDeque;
use std::sync::{Condvar, Mutex, Wait};
use std::thread;
use std::thread::{Scope, Threads};
use tao_io::Status;

/// How many jobs run or wait for their threads, at most.
const ROOM: u64 = 1_024;

/// The jobs that wait for their threads, and how many run.
#[derive(Drop)]
struct Shelved<J> {
    waiting: VecDeque<J>,
    running: u64,
    is_open: bool,
}

impl<J> Shelved<J> {
    fn is_full(&self) -> bool {
        self.running.saturating_add(self.waiting.len() as u64) >= ROOM
    }

    /// No job is there to be taken, and one may come.
    fn is_idle(&self) -> bool {
        self.is_open && self.waiting.is_empty()
    }

    /// Puts a job last, where jobs are taken and there is memory for it.
    fn put(&mut self, job: J) -> Result<(), J>
        ensures { IfErr result (λ back. back ≡ job) }
    {
        if !self.is_open {
            return Err(job);
        }
        match self.waiting.push_back(job) {
            Ok(()) => Ok(()),
            Err(full) => Err(full.value),
        }
    }

    /// Takes the first job, which then runs.
    fn take(&mut self) -> Option<J> {
        let job = self.waiting.pop_front()?;
        self.running = self.running.saturating_add(1);
        Some(job)
    }
}

/// Where jobs wait for their threads.
#[derive(Drop)]
struct Shelf<J> {
    jobs: Mutex<Shelved<J>>,
    changed: Condvar,
}

impl<J: Drop> Shelf<J> {
    /// No job waits, and one may come.
    fn empty(alloc: Global) -> Shelf<J> {
        Shelf {
            jobs: Mutex::new(Shelved {
                waiting: VecDeque::new(alloc),
                running: 0,
                is_open: true,
            }),
            changed: Condvar::new(),
        }
    }

    /// Puts a job once there is room for it.
    fn put<R: Wait>(&self, rt: &R, job: J) -> Result<(), J>
        ensures { IfErr result (λ back. back ≡ job) }
    {
        let done = {
            let mut jobs = self
                .changed
                .wait_while(rt, self.jobs.lock(rt), |jobs| jobs.is_full());
            jobs.put(job)
        };
        self.changed.notify_all();
        done
    }

    /// Takes a job once there is one. None where none is to come.
    fn take<R: Wait>(&self, rt: &R) -> Option<J> {
        let mut jobs = self
            .changed
            .wait_while(rt, self.jobs.lock(rt), |jobs| jobs.is_idle());
        jobs.take()
    }

    /// A job that was taken has run.
    fn leave<R: Wait>(&self, rt: &R) {
        {
            let mut jobs = self.jobs.lock(rt);
            jobs.running = jobs.running.saturating_sub(1);
        }
        self.changed.notify_all();
    }

    /// No job is to come.
    fn close<R: Wait>(&self, rt: &R) {
        {
            let mut jobs = self.jobs.lock(rt);
            jobs.is_open = false;
        }
        self.changed.notify_all();
    }
}

/// Hands jobs to the thread that starts a thread for each.
#[derive(Drop)]
struct ShelfSpawner<'q, R, J> {
    rt: &'q R,
    shelf: &'q Shelf<J>,
    started: Count,
    faults: Count,
}

impl<'q, R: Wait, J: Work + Drop> Spawner<J> for ShelfSpawner<'q, R, J> {
    ghost started = { λ s. s.started };

    ghost faults = { λ s. s.faults };

    fn start(&mut self, job: J) -> Result<(), J> {
        match self.shelf.put(self.rt, job) {
            Ok(()) => {
                self.started.rise();
                Ok(())
            }
            Err(back) => {
                self.faults.rise();
                Err(back)
            }
        }
    }
}

/// Runs a job in a thread, or here where none can be made.
fn start_one<'s, E, R: Wait + Sync, J: Work + Send + Drop + 's>(
    rt: &'s R,
    scope: &'s Scope<'s, E>,
    shelf: &'s Shelf<J>,
    job: J,
) {
    let running = move || {
        let _ = job.run();
        shelf.leave(rt);
    };
    if let Err(unmade) = scope.spawn(running) {
        (unmade.value)();
    }
}

/// Starts each job that comes.
fn start_each<'s, E, R: Wait + Sync, J: Work + Send + Drop + 's>(
    rt: &'s R,
    scope: &'s Scope<'s, E>,
    shelf: &'s Shelf<J>,
) {
    for _ in rt.forever() {
        let Some(job) = shelf.take(rt) else {
            return;
        };
        start_one(rt, scope, shelf, job);
    }
}

/// Hands the job of each connection to the thread that starts them.
fn accept_all<R: Wait, A: Acceptor, M: WorkMaker<A::In, A::Out>>(
    rt: &R,
    mut acceptor: A,
    shelf: &Shelf<M::Job>,
    maker: &M,
) -> (Status, A)
    ensures { EndsServer (A.ends acceptor) (A.ends result.1) (A.faults acceptor) (A.faults result.1) result.0 }
{
    let mut spawner = ShelfSpawner {
        rt,
        shelf,
        started: Count::new(),
        faults: Count::new(),
    };
    let status = serve_work(rt, &mut acceptor, &mut spawner, maker);
    (status, acceptor)
}

/// What the threads of a server share, which are borrowed of as one: a closure that holds the runtime may not be made while that is lent.
#[derive(Drop)]
struct ServerParts<'h, R, J, M> {
    rt: &'h R,
    shelf: &'h Shelf<J>,
    maker: &'h M,
}

/// Starts jobs in threads of a scope, while this one accepts. Where no thread can be made for the first of these, each job is handed back.
fn run_in<'s, E, R: Wait + Sync, A: Acceptor, M: WorkMaker<A::In, A::Out>>(
    parts: &'s ServerParts<'s, R, M::Job, M>,
    scope: &'s Scope<'s, E>,
    acceptor: A,
) -> (Status, A)
where
    M::Job: Send + 's,
    ensures { EndsServer (A.ends acceptor) (A.ends result.1) (A.faults acceptor) (A.faults result.1) result.0 }
{
    let (rt, shelf, there) = (parts.rt, parts.shelf, scope);
    let starting = move || start_each(rt, there, shelf);
    if scope.spawn(starting).is_err() {
        shelf.close(rt);
    }
    let came = accept_all(rt, acceptor, shelf, parts.maker);
    shelf.close(rt);
    came
}

/// Starts a job for each connection of the acceptor in a thread of its own, until there are no more, and then waits for all of these. A connection that comes
/// while 1,024 others are served waits until one of them ends, and those after it with it; where no thread can be made, its job runs without one. The acceptor
/// comes back. May wait. The status is that of `serve_work`.
pub fn serve_threads<'e, R: Threads + Wait + Sync, A: Acceptor + Drop, M: WorkMaker<A::In, A::Out>>(
    rt: &'e R,
    alloc: Global,
    acceptor: A,
    maker: &'e M,
) -> (Status, A)
where
    M::Job: Send + 'e,
    ensures { EndsServer (A.ends acceptor) (A.ends result.1) (A.faults acceptor) (A.faults result.1) result.0 }
{
    let shelf = Shelf::empty(alloc);
    let parts = ServerParts {
        rt,
        shelf: &shelf,
        maker,
    };
    let shared = &parts;
    thread::scope(
        thread::scope_env(),
        rt,
        |scope| -> (Status, A)
            ensures { EndsServer (A.ends acceptor) (A.ends result.1) (A.faults acceptor) (A.faults result.1) result.0 }
        { run_in(shared, scope, acceptor) },
    )
}
