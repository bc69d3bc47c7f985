//! How each work stands, the ready list, and the story of queueings.

ghost use Rattle.std.specs.Prelude.{◌≡◌, ◌≢◌, ◌<◌, ◌≤◌, IfOk, OnOk, OnErr, length};
ghost use Rattle.std.specs.Prelude.{slice_set};
ghost use Rattle.tm_base.specs.declared.limits.TheConstants.{MOST_TIMERS};
ghost use Rattle.key_lists.specs.Tables.{first_key};
ghost use Rattle.delayed_work.specs.Ledger.{IsLedgerSound, accepted_ready, accepted_waiting};
ghost use Rattle.delayed_work.specs.Ledger.{come_ready};
ghost use Rattle.delayed_work.specs.Ledger.{new_ledger, standing_of, work_ended};

use crate::standing::{End, Standing};
use crate::stories::Stories;
use key_lists::KeyLists;
use std::alloc::Global;
use std::marker::Model;
use tm_base::{MOST_TIMERS, NoMemory};

/// How each work stands, the works that are ready in the order in which they became so (of the
/// kernel's `worklist`), and what became of each queueing. No call but `new` and `reserve` takes
/// memory, and none looks at a work that it doesn't change.
#[derive(Drop)]
pub struct Ledger {
    standings: Vec<Standing>,
    ready: KeyLists,
    ready_len: usize,
    story: Stories,
}

impl Model for Ledger {
    ghost use Rattle.delayed_work.specs.Ledger.{RoomyLedger};
    ghost use Rattle.delayed_work.specs.Kept.{IsKept, ledger_of};

    ghost Value = { RoomyLedger };

    ghost view = { (λ l. record {
      plain = ledger_of l.standings.items l.ready l.story.entries;
      capacity = l.story.capacity;
    }) };

    ghost invariant = { λ l. IsKept l.standings.items l.ready l.ready_len l.story.entries };
}

/// Makes a work free and writes the end of its queueing down.
fn close(standings: &mut Vec<Standing>, story: &mut Stories, work: u16, number: u64, end: End)
    requires work { work < length standings.old.items }
    requires number { number < length story.old.entries }
    ensures standings { standings.new.items ≡ slice_set standings.old.items work Standing.Free }
    ensures story { story.new.entries
        ≡ slice_set story.old.entries number (number, work, end) }
    ensures capacity { story.new.capacity ≡ story.old.capacity }
{
    standings[usize::from(work)] = Standing::Free;
    story.replace(number as usize, (number, work, end));
}

impl Ledger {
    /// So many works, at most 4,096, all free, with room for no queueing.
    pub fn new(alloc: Global, count: u16) -> Result<Ledger, NoMemory>
        requires { count ≤ MOST_TIMERS }
        ensures { IfOk result (λ ledger. ledger.plain ≡ new_ledger count) }
    {
        let mut ready = KeyLists::new(alloc, 1)?;
        ready.grow(usize::from(count))?;
        let mut standings = Vec::new(alloc);
        standings.resize(usize::from(count), Standing::Free)?;
        Ok(Ledger {
            standings,
            ready,
            ready_len: 0,
            story: Stories::new(alloc),
        })
    }

    /// Takes memory for one more queueing. Want of memory leaves all as before.
    pub fn reserve(&mut self) -> Result<(), NoMemory>
        ensures plain { self.new.plain ≡ self.old.plain }
        ensures ok { OnOk result (length self.new.plain.story < self.new.capacity) }
        ensures err { OnErr result (self.new ≡ self.old) }
    {
        self.story.reserve()?;
        Ok(())
    }

    /// How many works there are.
    pub fn len(&self) -> usize
        ensures len { result ≡ length self.now.plain.standings }
        ensures sound { IsLedgerSound self.now.plain }
        ensures few { result ≤ MOST_TIMERS }
    {
        self.standings.len()
    }

    /// How a work stands.
    pub fn standing(&self, work: u16) -> Standing
        requires { work < length self.now.plain.standings }
        ensures { result ≡ standing_of work self.now.plain }
    {
        self.standings[usize::from(work)]
    }

    /// How many works are ready.
    pub fn ready_len(&self) -> usize
        ensures { result ≡ length self.now.plain.ready }
    {
        self.ready_len
    }

    /// The first ready work; None exactly where none is ready.
    pub fn first_ready(&self) -> Option<u16>
        ensures { result ≡ first_key self.now.plain.ready }
    {
        let Some(work) = self.ready.oldest(0) else {
            return None;
        };
        Some(work as u16)
    }

    /// Accepts a queueing of a free work, which waits from now on.
    pub fn accept_waiting(&mut self, work: u16)
        requires work { work < length self.old.plain.standings }
        requires free { standing_of work self.old.plain ≡ Standing.Free }
        requires room { length self.old.plain.story < self.old.capacity }
        ensures plain { self.new.plain ≡ accepted_waiting work self.old.plain }
    {
        let number = self.story.len() as u64;
        self.story.write((number, work, End::Pending));
        self.standings[usize::from(work)] = Standing::Waiting { number };
    }

    /// Accepts a queueing of a free work, which is ready from now on.
    pub fn accept_ready(&mut self, work: u16, job: u8, arg: u32)
        requires work { work < length self.old.plain.standings }
        requires free { standing_of work self.old.plain ≡ Standing.Free }
        requires room { length self.old.plain.story < self.old.capacity }
        ensures plain { self.new.plain ≡ accepted_ready work job arg self.old.plain }
    {
        let number = self.story.len() as u64;
        self.story.write((number, work, End::Pending));
        self.standings[usize::from(work)] = Standing::Ready { number, job, arg };
        self.ready.push(0, usize::from(work));
        self.ready_len += 1;
    }

    /// Puts a waiting work at the end of the ready list; any other stays as it is.
    pub fn come_ready(&mut self, work: u16, job: u8, arg: u32)
        requires { work < length self.old.plain.standings }
        ensures plain { self.new.plain ≡ come_ready work job arg self.old.plain }
        ensures capacity { self.new.capacity ≡ self.old.capacity }
    {
        let standing = self.standings[usize::from(work)];
        let Standing::Waiting { number } = standing else {
            return;
        };
        self.standings[usize::from(work)] = Standing::Ready { number, job, arg };
        self.ready.push(0, usize::from(work));
        self.ready_len += 1;
    }

    /// Makes a pending work free, and writes down this end, which isn't `Pending`; a free one stays
    /// as it is.
    pub fn end(&mut self, work: u16, end: End)
        requires work { work < length self.old.plain.standings }
        requires ended { end ≢ End.Pending }
        ensures plain { self.new.plain ≡ work_ended work end self.old.plain }
        ensures capacity { self.new.capacity ≡ self.old.capacity }
    {
        let standing = self.standings[usize::from(work)];
        match standing {
            Standing::Free => {}
            Standing::Waiting { number } => {
                close(&mut self.standings, &mut self.story, work, number, end);
            }
            Standing::Ready { number, .. } => {
                self.ready.unlink(usize::from(work));
                self.ready_len -= 1;
                close(&mut self.standings, &mut self.story, work, number, end);
            }
        }
    }

    /// The story.
    pub fn story(&self) -> &Stories
        ensures { result.now.entries ≡ self.now.plain.story }
    {
        &self.story
    }
}
