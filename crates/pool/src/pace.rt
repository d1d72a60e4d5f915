//! How a worker shares out the work with others, by what it remembers of the bodies that it ran. No clause knows of it.
ghost use Rattle.std.specs.Prelude.{◌≤◌};
ghost use Rattle.pool.specs.declared.worker.TheConstants.{MOST_KEPT};

use crate::worker::{FEW, MOST_KEPT};
use disk::Disk;
use hub::Hub;
use passes::Naming;

// A body takes long if it makes this number of statements and turns of loops: some 60 microseconds, about as long as one of a commit's two syncs on a disk.
const LONG: u32 = 10_000;

// What a body takes beside its statements, counted in statements.
const VISIT: u32 = 100;

// What a put takes where it is committed, counted in statements.
const PUT: u32 = 16;

// A body is light if it makes fewer than this number of statements, after `PUT` for each of its puts is taken away: then its commit takes longer than the body, and one worker alone takes about as long for such bodies as several.
const LIGHT: u32 = 64;

// Of how many bodies the statements beyond their puts are remembered: each body takes this part of the sum away, and adds its own.
const SPAN: u32 = 64;

// The sum from which on bodies are not light of late.
const HEAVY_WORK: u32 = SPAN * LIGHT;

// The greatest sum: after it some 180 empty bodies make a worker's bodies light.
const MOST_WORK: u32 = 16 * HEAVY_WORK;

// The sum from which on bodies of late took so long, some five microseconds or more, that a visit of the lock for each of them is small beside them.
const SHARED_WORK: u32 = MOST_WORK - MOST_WORK / 8;

// A body looks for items among the results that are kept if these have at most this number of puts, since it goes through all of them.
const FEW_PUTS: usize = 256;

// How many results a worker keeps, and how many instances it claims at once, while some body waited of late: others may wait for what is kept.
const SOME_KEPT: usize = 64;

// After how many bodies that ended, one after another, none has waited of late.
const CALM: u32 = 256;

// How often in a row a worker that left the work to another sees that nothing was committed meanwhile although instances are ready, before it takes the lead.
const QUIET: u32 = 4;

/// What a worker remembers of the bodies that it ran, and of what others did.
#[derive(Clone, Copy)]
pub(crate) struct Pace {
    // Whether the last body took long, to its end or up to an item that was not there.
    slow: bool,
    // The statements of the bodies that ran since the first of the results that are kept, with `VISIT` more for each body.
    spent: u32,
    // The puts of the results that are kept.
    puts: usize,
    // Whether so far `FEW` instances or more were ready at once.
    many: bool,
    // The statements of its bodies of late beyond their puts, to their ends or up to items that were not there: of some `SPAN` of them.
    work: u32,
    // How many bodies have ended since one waited, up to `CALM` of them.
    calm: u32,
    // Whether it is to take the lead from the worker that has it.
    takes: bool,
    // How often in a row it has seen no commit while it left the work to another.
    quiet: u32,
    // Whether it has given back what it had claimed since the last body that ended.
    left: bool,
    // After it has waited for others in vain it lets instances wait: how many it let wait the last time since a body ended, and how many of them are left.
    let_wait: u32,
    still_to_wait: u32,
    /// Whether it waits for others to commit before it claims again.
    pub(crate) waits: bool,
    /// Whether it sleeps while it does.
    pub(crate) rests: bool,
    /// How often in a row it has found nothing to do.
    pub(crate) vain: u32,
}

impl Pace {
    /// That of a worker that has run no body. Until then it is not known whether bodies take long; so that instances run in their order, one worker begins, and the others wait until it has met bodies
    /// that do.
    pub(crate) fn new() -> Pace {
        Pace {
            slow: true,
            spent: 0,
            puts: 0,
            many: false,
            work: 0,
            calm: 0,
            takes: false,
            quiet: 0,
            left: false,
            let_wait: 0,
            still_to_wait: 0,
            waits: false,
            rests: false,
            vain: 0,
        }
    }

    /// Notes that a body has ended, after this number of statements and puts.
    pub(crate) fn note_end(&mut self, statements: u32, puts: usize) {
        self.note_work(beyond_puts(statements, puts));
        self.calm = self.calm.saturating_add(1).min(CALM);
        self.left = false;
        self.let_wait = 0;
        self.still_to_wait = 0;
        self.quiet = 0;
    }

    /// Notes that a body has made this number of statements, to its end or up to an item that was not there.
    pub(crate) fn note_work(&mut self, statements: u32) {
        let others = self.work - self.work / SPAN;
        self.work = others.saturating_add(statements).min(MOST_WORK);
    }

    /// Notes how many statements and puts a body has made, to its end or up to an item that was not there, and whether results are kept beside it.
    pub(crate) fn note(&mut self, statements: u32, puts: usize, keeps: bool) {
        self.vain = 0;
        if !keeps {
            self.spent = 0;
            self.puts = 0;
        }
        self.slow = statements >= LONG;
        self.puts = self.puts.saturating_add(puts);
        self.spent = self.spent.saturating_add(statements).saturating_add(VISIT);
    }

    /// Whether the worker with this number leaves its work to another: if its bodies of late are light, and another worker leads. If none leads, this one does from now on, until its bodies
    /// are not light any more, or another worker takes the lead.
    pub(crate) fn gives_way<J: Naming, D: Disk>(&mut self, hub: &Hub<J, D>, number: usize) -> bool {
        if self.work >= HEAVY_WORK {
            hub.end_lead(number);
            return false;
        }
        if self.takes {
            self.takes = false;
            hub.take_lead(number);
        }
        !hub.lead(number)
    }

    /// Notes whether anything was committed while it left the work to another, `ready` being the number of instances that are ready now. After `QUIET` times in a row in which nothing was although
    /// some are ready, it takes the lead: the other runs a body that takes long, or waits for a device that does.
    pub(crate) fn note_nap(&mut self, committed: bool, ready: usize) {
        self.waits = false;
        self.quiet = if committed || ready == 0 {
            0
        } else {
            self.quiet.saturating_add(1)
        };
        if self.quiet >= QUIET {
            self.quiet = 0;
            self.takes = true;
        }
    }

    /// Whether the worker, whose body waits, gives back what it has claimed: if its bodies of late do not take long, others run something, and it is not to let this instance wait, since it has waited for others in vain. `own` is the number of instances that
    /// it has claimed and not committed, and `running` that of all instances that run. Then it goes on once others have committed. If it went on now, one instance after another might wait, and each would be woken and run anew. Meanwhile it sleeps, unless its bodies
    /// are light: then one worker leads.
    pub(crate) fn leaves(&mut self, own: usize, running: usize) -> bool {
        if self.work >= SHARED_WORK || running <= own {
            return false;
        }
        if self.still_to_wait > 0 {
            self.still_to_wait -= 1;
            return false;
        }
        self.waits = true;
        self.rests = self.work >= HEAVY_WORK;
        self.left = true;
        true
    }

    /// Notes whether others have committed while it waited for that. If not, it lets the next instance wait, or the next ones: twice as many each time.
    pub(crate) fn note_waited(&mut self, committed: bool) {
        self.waits = false;
        if !committed {
            self.let_wait = self.let_wait.saturating_mul(2).max(1);
            self.still_to_wait = self.let_wait;
        }
    }

    /// Whether a body may look for items among the results that are kept: if these have few puts, and `FEW` instances or more were ready at once so far, `ready` being those that are now. In a
    /// run that never has eight, a record has no more ends than it would have if each body read what is committed alone.
    pub(crate) fn looks_ahead(&mut self, ready: usize) -> bool {
        self.many = self.many || ready >= FEW;
        self.many && !self.has_many_puts()
    }

    /// Whether the last body took long.
    pub(crate) fn is_slow(&self) -> bool {
        self.slow
    }

    /// Whether it claims one instance after another, by tickets that others may steal: since its bodies take long, or none has run yet.
    pub(crate) fn shares(&self) -> bool {
        self.slow || self.work >= SHARED_WORK
    }

    /// Whether what is kept has more than `FEW_PUTS` puts: then bodies do not look for items there.
    pub(crate) fn has_many_puts(&self) -> bool {
        self.puts > FEW_PUTS
    }

    /// Notes that a body misses an item.
    pub(crate) fn note_missing(&mut self) {
        self.calm = 0;
    }

    /// How many results it keeps, at most, and how many instances it claims at once.
    pub(crate) fn most_kept(&self) -> usize
        ensures { result ≤ MOST_KEPT }
    {
        if self.calm < CALM {
            SOME_KEPT
        } else {
            MOST_KEPT
        }
    }

    /// Whether results that are kept are to be committed now, since others may have waited for them for long. Where bodies are light and none misses an item, nobody waits: the others leave the
    /// work to this worker.
    pub(crate) fn is_due(&self) -> bool {
        let long = if self.calm >= CALM && self.work < HEAVY_WORK {
            4 * LONG
        } else {
            LONG
        };
        self.spent >= long
    }

    /// How many instances it claims at once, if it keeps this number of results. A worker that gave back what it had claimed claims one, to see whether it can go on.
    pub(crate) fn most(&self, kept: usize) -> usize {
        if self.left {
            1
        } else {
            self.most_kept().saturating_sub(kept)
        }
    }
}

// How many statements a body made beyond what its puts take.
fn beyond_puts(statements: u32, puts: usize) -> u32 {
    match u32::try_from(puts) {
        Ok(puts) => statements.saturating_sub(PUT.saturating_mul(puts)),
        Err(_) => 0,
    }
}
