//! How far the lines of a script are.
ghost use Rattle.std.specs.Prelude.{◌≡◌, ◌<◌, ◌≤◌, [], None, false, true, length, take, IfSome};
ghost use Rattle.std.specs.List.{AllByRecursion};
ghost use Rattle.commit.specs.Runs.{NoneRuns};
ghost use Rattle.session.specs.declared.rows.TheConstants.{MOST_LINES};
ghost use Rattle.session.specs.Went.{Puts};

use crate::answers::{answer, ran};
use crate::reply::{NamedReply, Reply};
use crate::rows::{MOST_LINES, put_some, puts_in_front};
use crate::{Ending, SessionError};
use commit::{Core, RunError, Verdict};
use disk::Disk;
use graph::Graph;
use report::Sink;
use script::Command;
use std::alloc::Global;
use terms::facts_are_told_apart;
use vault::stores_go_on;

/// How far the lines of a script are. It does what each line asks for, one after another, and writes the replies; but at
/// a `run` it stops. Its caller then runs the steps, and passes on the verdict. Where more puts stand in a row than may be committed
/// together, it commits them in groups.
#[derive(Drop)]
pub(crate) struct Progress<'a> {
    /// The lines that are left.
    pub(crate) left: &'a [Command],
    /// How the session ends, by the replies so far.
    pub(crate) ending: Ending,
    /// Whether the sink has failed.
    pub(crate) failed: bool,
}

impl<'a> Progress<'a> {
    ghost use Rattle.session.specs.Lines.{went_of};
    ghost use Rattle.session.specs.Progress.{AnswersRun, IsBehind, KeepsStanding, ReachesRun, TakesLine, TellsDone, TellsLine};
    ghost use Rattle.session.specs.Session.{no_ending};

    /// No line of a script is answered.
    pub(crate) fn new(commands: &'a [Command]) -> Self
        ensures left { result.left.now ≡ commands.now }
        ensures ending { result.ending ≡ no_ending }
        ensures failed { result.failed ≡ false }
    {
        Progress {
            left: commands,
            ending: Ending::new(),
            failed: false,
        }
    }

    /// Answers the lines up to the next `run`, and returns whether there is one. If there is none, the lines have ended:
    /// all are answered, or a reply ended the session, or the sink failed.
    pub(crate) fn reach_run<D: Disk, O: Sink>(
        &mut self,
        alloc: Global,
        core: &mut Core<D>,
        out: &mut O,
    ) -> bool
        requires idle { NoneRuns core.old }
        ensures idle { NoneRuns core.new }
        ensures reaches { ReachesRun D.Disk O.target O.has_failed O.contents self.old self.new out.old out.new core.old core.new result }
        ensures fewer { result ≡ true → length self.new.left.now < length self.old.left.now }
    {
        facts_are_told_apart();
        stores_go_on::<D>();
        'lines: loop {
            self.put_row(alloc, core, out);
            let Some(command) = self.next() else {
                return false;
            };
            match answer(core, *command) {
                Some(reply) => self.reply(core.graph(), *command, &reply, out),
                None => return true,
            }
        }
    }

    /// Answers the `run` that was reached, which returned this verdict and left this core.
    pub(crate) fn answer_run<D: Disk, O: Sink>(
        &mut self,
        alloc: Global,
        core: &Core<D>,
        verdict: Result<Verdict, RunError>,
        out: &mut O,
    )
        ensures left { self.new.left.now ≡ self.old.left.now }
        ensures answers { AnswersRun D.Disk O.target O.has_failed O.contents self.old self.new out.old out.new core.now verdict }
    {
        facts_are_told_apart();
        stores_go_on::<D>();
        let reply = ran(alloc, core, verdict);
        self.reply(core.graph(), Command::Run, &reply, out);
    }

    /// What the lines came to.
    pub(crate) fn went(&self) -> Result<Ending, SessionError>
        ensures { result ≡ went_of self.now.failed self.now.ending }
    {
        if self.failed {
            return Err(SessionError::Write);
        }
        Ok(self.ending)
    }

    // Answers the puts in front, if more than `MOST_LINES` of them stand in a row. They are committed in groups of up to that number; one
    // that does not come with others is put alone.
    fn put_row<D: Disk, O: Sink>(&mut self, alloc: Global, core: &mut Core<D>, out: &mut O)
        requires idle { NoneRuns core.old }
        ensures idle { NoneRuns core.new }
        ensures keeps { KeepsStanding D.Disk O.target O.has_failed O.contents self.old self.new out.old out.new core.old core.new }
        ensures fewer { length self.new.left.now ≤ length self.old.left.now }
    {
        let row = puts_in_front(self.left);
        if row <= MOST_LINES {
            return;
        }
        let behind = self.left.len() - row;
        'groups: while self.goes_on(behind) {
            let most = (self.left.len() - behind).min(MOST_LINES);
            self.put_group(alloc, core, most, out);
        }
    }

    // Whether the session goes on, since the sink has not failed and no reply has ended it, to a line before the last `behind` ones.
    fn goes_on(&self, behind: usize) -> bool
        ensures { result ≡ true → (self.now.failed ≡ false) × (self.now.ending.stop ≡ None) × (behind < length self.now.left.now) }
    {
        !self.failed && self.ending.stop.is_none() && behind < self.left.len()
    }

    // Answers the first of these puts in front: as many as come as one commit, or one alone.
    fn put_group<D: Disk, O: Sink>(
        &mut self,
        alloc: Global,
        core: &mut Core<D>,
        most: usize,
        out: &mut O,
    )
        requires idle { NoneRuns core.old }
        requires going { (self.old.failed ≡ false) × (self.old.ending.stop ≡ None) }
        requires size { (1 ≤ most) × (most ≤ MOST_LINES) × (most ≤ length self.old.left.now) }
        requires puts { AllByRecursion Puts (take most self.old.left.now) }
        ensures idle { NoneRuns core.new }
        ensures keeps { KeepsStanding D.Disk O.target O.has_failed O.contents self.old self.new out.old out.new core.old core.new }
        ensures rest { IsBehind most self.old.left.now self.new.left.now }
    {
        facts_are_told_apart();
        stores_go_on::<D>();
        let left = self.left;
        let group = &left[..most];
        match put_some(alloc, core, group) {
            Ok(count) => {
                self.left = &left[count..];
                self.reply_done(core.graph(), &group[..count], out);
            }
            Err(reply) => {
                self.left = &left[1..];
                self.reply(core.graph(), group[0], &reply, out);
            }
        }
    }

    // Takes the next line, unless the session has ended.
    fn next(&mut self) -> Option<&'a Command>
        ensures some { IfSome result (λ command. TakesLine command.now self.old self.new) }
        ensures none { result ≡ None → self.old.failed ≡ false → self.old.ending.stop ≡ None → self.old.left.now ≡ [] }
        ensures same { (self.new.ending ≡ self.old.ending) × (self.new.failed ≡ self.old.failed) }
    {
        if self.failed {
            return None;
        }
        match self.ending.stop {
            Some(_) => None,
            None => match self.left {
                [command, more @ ..] => {
                    self.left = more;
                    Some(command)
                }
                _ => None,
            },
        }
    }

    // Writes the reply to a command.
    fn reply<O: Sink>(&mut self, graph: &Graph, command: Command, reply: &Reply, out: &mut O)
        ensures left { self.new.left.now ≡ self.old.left.now }
        ensures tells { TellsLine O.target O.has_failed O.contents graph.now command reply.now out.old out.new self.old self.new }
    {
        let named = NamedReply { graph, reply };
        match out.send(named) {
            Ok(()) => self.ending = self.ending.with_reply(command, reply),
            Err(_) => self.failed = true,
        }
    }

    // Writes `ok` for each of these puts, up to the first that cannot be written.
    fn reply_done<O: Sink>(&mut self, graph: &Graph, commands: &[Command], out: &mut O)
        requires going { self.old.failed ≡ false }
        ensures left { self.new.left.now ≡ self.old.left.now }
        ensures tells { TellsDone O.target O.has_failed O.contents graph.now commands.now out.old out.new self.old self.new }
    {
        for command in commands {
            let done = Reply::Done;
            self.reply(graph, *command, &done, out);
            if self.failed {
                return;
            }
        }
    }
}
