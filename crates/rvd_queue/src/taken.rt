ghost use Rattle.std.specs.Prelude.{◌≡◌, false, [], ◌∷◌, ◌++◌, length, IfOk, OnOk, OnErr};
ghost use Rattle.std.specs.Option.{option_map};
ghost use Rattle.rvd_queue.specs.Jobs.{found, has_ticket, shown_at, without_ticket};

use indexmap::IndexMap;
use rvd_ask::Items;
use std::alloc::{AllocError, Global};
use std::marker::Model;

/// Jobs that are taken, in order of taking. Contracts see them as the list of tickets, items and programs. No two have one
/// ticket.
#[derive(Drop)]
pub struct Taken<P: Drop> {
    jobs: IndexMap<u64, (Items, P)>,
}

impl<P: Drop> Model for Taken<P> {
    ghost use Rattle.std.specs.Prelude.{List, nat_eq};
    ghost use Rattle.indexmap.specs.IndexMap.{IsUnique};
    ghost use Rattle.rvd_queue.specs.Jobs.{Job, jobs_in};

    ghost Value = { List (Job P) };

    ghost view = { λ t. jobs_in t.jobs.entries };

    ghost invariant = { λ t. IsUnique nat_eq t.jobs };
}

impl<P: Drop> Taken<P> {
    /// No job. Only want of memory refuses it.
    pub fn new(alloc: Global) -> Result<Taken<P>, AllocError>
        ensures { IfOk result (λ taken. taken ≡ []) }
    {
        Ok(Taken {
            jobs: IndexMap::new(alloc),
        })
    }

    /// The number of jobs. It takes no memory.
    pub fn len(&self) -> u64
        ensures { result ≡ length self.now }
    {
        self.jobs.len() as u64
    }

    /// Puts a job at the end. Only want of memory refuses it, and then the jobs are as before.
    pub fn put(&mut self, ticket: u64, items: Items, program: P) -> Result<(), AllocError>
        requires { has_ticket ticket self.old ≡ false }
        ensures ok { OnOk result (self.new ≡ self.old ++ record { ticket = ticket; items = items; program = program } ∷ []) }
        ensures err { OnErr result (self.new ≡ self.old) }
    {
        self.jobs.insert(ticket, (items, program))?;
        Ok(())
    }

    /// The items and the program of a ticket, or None where no job has it. It takes no memory.
    pub fn find(&self, ticket: u64) -> Option<(&Items, &P)>
        ensures { option_map (λ job. (job.0.now, job.1.now)) result ≡ found ticket self.now }
    {
        let (items, program) = self.jobs.get(&ticket)?;
        Some((items, program))
    }

    /// The ticket, the items and the program at a place, from 0 on, or None from the number of jobs on. It takes no memory.
    pub fn at(&self, place: u64) -> Option<(u64, &Items, &P)>
        ensures { option_map (λ job. (job.0, job.1.now, job.2.now)) result ≡ shown_at place self.now }
    {
        let (ticket, (items, program)) = self.jobs.get_index(place as usize)?;
        Some((*ticket, items, program))
    }

    /// Takes the job of a ticket out, where there is one. The others keep their order.
    pub fn drop_ticket(&mut self, ticket: u64)
        ensures { self.new ≡ without_ticket ticket self.old }
    {
        self.jobs.shift_remove(&ticket);
    }

    /// No job is left.
    pub fn clear(&mut self)
        ensures { self.new ≡ [] }
    {
        self.jobs.clear();
    }
}
