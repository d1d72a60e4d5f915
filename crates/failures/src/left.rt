//! What a store has after a failure and a crash, and what the command does then. In the graphs of the cases each step puts one
//! item and no tag, or stops by a fault, so the numbers of a report say how much the environment put.
use crate::calls::Came;
use crate::counts::{Counts, fault_in, has_facts, is_line};
use crate::right::{Deed, Right, is_put};
use crate::trials::Kind;

// How many lines are committed together, at most, and how many steps.
const MOST_LINES: u64 = 64;

const MOST_STEPS: u64 = 64;

// What is broken.
const LOST: &str = "something that was answered is lost";

const CHANGED: &str = "the store has changed";

const UNMEANT: &str = "an item or a fault that the graph does not mean";

const BEYOND: &str = "more or less than one commit in doubt";

const NO_STORE: &str = "no store is there";

const NOT_A_STORE: &str = "! store refused: not a store\nstatus 4\n";

/// Which promise is broken by what a report says after the crash, if one is: `before` is what it said before the command.
pub(crate) fn broken_by_crash(
    kind: Kind,
    right: &Right<'_>,
    before: &str,
    came: &Came,
    after: &str,
) -> Option<&'static str> {
    match right.deed {
        Deed::Create if kind == Kind::Reader => same(after, NOT_A_STORE),
        Deed::Create if kind != Kind::Writer && is_refused(after) => None,
        Deed::Create | Deed::Report | Deed::Tell | Deed::Turn => same(after, right.report),
        Deed::Run if came.held.is_empty() => same(after, before),
        Deed::Run => broken_run(kind, right, before, came, after),
    }
}

// Whether the store is refused. A store whose creation failed may be one of which nothing is promised.
fn is_refused(after: &str) -> bool {
    after.starts_with("! store refused: ") && is_line(after, 1, "status 4")
}

fn same(after: &str, wanted: &str) -> Option<&'static str> {
    if after == wanted { None } else { Some(CHANGED) }
}

// The same for a script: `held` is what the store had in memory when its session ended.
fn broken_run(
    kind: Kind,
    right: &Right<'_>,
    before: &str,
    came: &Came,
    after: &str,
) -> Option<&'static str> {
    let held = came.held.as_str();
    match (Counts::of(before), Counts::of(held), Counts::of(after)) {
        (Some(first), Some(known), Some(found)) => {
            if !has_facts(right.report, after) {
                return Some(UNMEANT);
            }
            if !has_facts(after, held) {
                return Some(LOST);
            }
            let place = right.answered(came.told.as_str());
            let answered = first.put().saturating_add(oks(right.replies, place));
            if kind == Kind::Writer {
                return unwritten(right, place, answered, known, found);
            }
            refused(right, place, answered, known, found)
        }
        _ => Some(NO_STORE),
    }
}

// What a session leaves whose output failed: all that the store held. That has each line that was answered, and perhaps those that
// were committed together with the next one.
fn unwritten(
    right: &Right<'_>,
    place: usize,
    answered: u64,
    known: Counts,
    found: Counts,
) -> Option<&'static str> {
    let put = known.put();
    if put < answered {
        return Some(LOST);
    }
    let more = put - answered;
    if more > MOST_LINES || (more > 0 && !right.is_put(place)) {
        return Some(BEYOND);
    }
    if found == known { None } else { Some(CHANGED) }
}

// What a session leaves that a refusal ended: all that the store held, which is what was answered and the steps that were
// committed; and perhaps the commit in doubt, whole.
fn refused(
    right: &Right<'_>,
    place: usize,
    answered: u64,
    known: Counts,
    found: Counts,
) -> Option<&'static str> {
    if known.put() != answered {
        return Some("the store held other lines than were answered");
    }
    let put = found.put();
    if put < answered || found.done < known.done {
        return Some(LOST);
    }
    let lines = put - answered;
    let steps = found.done - known.done;
    let is_one = if right.is_put(place) {
        steps == 0 && (lines == 0 || lines == together(right.script, place))
    } else {
        lines == 0 && (steps == 0 || (right.is_run(place) && steps <= MOST_STEPS))
    };
    if is_one { None } else { Some(BEYOND) }
}

// How many of the first replies are `ok`.
fn oks(replies: &str, count: usize) -> u64 {
    replies
        .lines()
        .take(count)
        .filter(|reply| *reply == "ok")
        .count() as u64
}

// How many lines of a script are committed together, from the one at this place on: one, or as many as are left of a row of more
// than 64, up to 64.
fn together(script: &str, place: usize) -> u64 {
    let mut row = 0u64;
    let mut left = 0u64;
    for (number, line) in script.lines().enumerate() {
        if is_put(line) {
            row = row.saturating_add(1);
            if number >= place {
                left = left.saturating_add(1);
            }
        } else if number > place {
            return of_row(row, left);
        } else {
            row = 0;
            left = 0;
        }
    }
    of_row(row, left)
}

fn of_row(row: u64, left: u64) -> u64 {
    if row > MOST_LINES {
        left.min(MOST_LINES)
    } else {
        1
    }
}

/// Which promise is broken by what the command writes when it is called again, if one is; this many lines were answered before, and a report
/// said this of the store.
pub(crate) fn broken_by_more(
    right: &Right<'_>,
    answered: usize,
    found: &str,
    told: &str,
) -> Option<&'static str> {
    let is_right = match right.deed {
        Deed::Create => told == right.writes || told == "! store refused: exists\nstatus 4\n",
        Deed::Turn => told.starts_with("turned, generation "),
        Deed::Report | Deed::Tell => told == right.writes,
        Deed::Run => is_completed(right, answered, fault_in(found), told),
    };
    if is_right {
        None
    } else {
        Some("called again, it does not end as it must")
    }
}

// Whether each line is answered as it must be when the script is run again on a store that has this fault or none, and the rest is as it
// is if nothing fails.
fn is_completed(right: &Right<'_>, answered: usize, fault: Option<&str>, told: &str) -> bool {
    let mut replies = told.lines();
    let mut script = right.script.lines();
    for (place, first) in right.writes.lines().enumerate() {
        let line = script.next().unwrap_or("");
        match replies.next() {
            Some(reply) => {
                if !is_answer(line, first, reply, place < answered, fault) {
                    return false;
                }
            }
            None => return false,
        }
    }
    replies.next().is_none()
}

// Whether this is a reply to a line that has `first` as its reply if nothing fails.
fn is_answer(
    line: &str,
    first: &str,
    reply: &str,
    was_answered: bool,
    fault: Option<&str>,
) -> bool {
    if !is_put(line) {
        return reply == first;
    }
    match fault {
        Some(fault) => reply.strip_prefix("refused 5: ") == Some(fault),
        None => is_answer_to_put(line, first, reply, was_answered),
    }
}

// The same for a line that puts, in a store that no fault has stopped.
fn is_answer_to_put(line: &str, first: &str, reply: &str, was_answered: bool) -> bool {
    if first != "ok" {
        return reply == first;
    }
    if reply == "ok" {
        return !was_answered;
    }
    match reply.strip_prefix("refused 4: already put as ") {
        Some(value) => line.starts_with("put ") && is_value(line, value),
        None => reply == "refused 6: repeat" && line.starts_with("tag "),
    }
}

// Whether this is the value that a line puts.
fn is_value(line: &str, value: &str) -> bool {
    match line.rsplit_once("= ") {
        Some((_, put)) => put == value,
        None => false,
    }
}
