//! What a command writes if nothing fails, and what it may write after a failure.
use crate::calls::Came;
use crate::counts::is_line;
use crate::trials::Kind;
use crate::wrong_disk::Wrong;

/// What a command does.
#[derive(Clone, Copy, Debug, PartialEq, Eq)]
pub(crate) enum Deed {
    Create,
    Run,
    Report,
    /// It writes what its row has, and leaves the store as it is: a certificate, a log, or a report of the past.
    Tell,
    Turn,
}

impl Deed {
    /// What these words ask for; a report if it is none of the others.
    pub(crate) fn of(line: &str) -> Deed {
        match line.split(' ').nth(1).unwrap_or("") {
            "create" => Deed::Create,
            "run" => Deed::Run,
            "verify" | "log" => Deed::Tell,
            "turn" => Deed::Turn,
            _ if line.contains(" --at ") => Deed::Tell,
            _ => Deed::Report,
        }
    }
}

/// What a command writes if nothing fails.
#[derive(Clone, Copy)]
pub(crate) struct Right<'a> {
    pub(crate) deed: Deed,
    /// The lines of the script, if it runs one. Each has one line of the replies; the last one may have more.
    pub(crate) script: &'a str,
    /// What is written before the report.
    pub(crate) replies: &'a str,
    /// What a report says afterwards.
    pub(crate) report: &'a str,
    /// All that is written.
    pub(crate) writes: &'a str,
}

impl<'a> Right<'a> {
    /// How many lines were answered as they are if nothing fails, from the first one on.
    pub(crate) fn answered(&self, told: &str) -> usize {
        self.replies
            .lines()
            .zip(told.lines())
            .take_while(|(reply, line)| reply == line)
            .count()
    }

    /// Whether a put or a tag is the line of the script at this place.
    pub(crate) fn is_put(&self, place: usize) -> bool {
        match self.script.lines().nth(place) {
            Some(line) => is_put(line),
            None => false,
        }
    }

    /// Whether `run` is the line of the script at this place.
    pub(crate) fn is_run(&self, place: usize) -> bool {
        is_line(self.script, place, "run")
    }
}

/// Whether a line of a script is a put or a tag.
pub(crate) fn is_put(line: &str) -> bool {
    line.starts_with("put ") || line.starts_with("tag ")
}

// How a failure is told: where nothing was done, as the reply to a put, and as that to a run, which may be one of two.
#[derive(Clone, Copy)]
struct Refusals {
    nothing: &'static str,
    put: &'static str,
    run: &'static str,
    or_run: &'static str,
}

const DEVICE: Refusals = Refusals {
    nothing: "! device failed\nstatus 5\n",
    put: "refused 9: device",
    run: "refused 8: halted",
    or_run: "refused 8: halted",
};

const MEMORY: Refusals = Refusals {
    nothing: "! no memory\nstatus 5\n",
    put: "refused 10: no memory",
    run: "refused 8: halted",
    or_run: "refused 10: no memory",
};

// What is broken.
const OTHERWISE: &str = "nothing failed, and it wrote something else";

const IN_PLACE: &str = "an answer in place of the error";

/// Which promise a command breaks by what it wrote, if it breaks one.
pub(crate) fn broken_by_text(
    kind: Kind,
    right: &Right<'_>,
    came: &Came,
    is_met: bool,
) -> Option<&'static str> {
    let told = came.told.as_str();
    if came.went_on {
        return Some("it wrote on after the writer had failed");
    }
    if !is_met {
        return whole(right, told);
    }
    match kind {
        Kind::Program(Wrong::Forgets) => whole(right, told),
        Kind::Device | Kind::Program(_) => refused(right, told, &DEVICE),
        Kind::Memory => refused(right, told, &MEMORY),
        Kind::Reader | Kind::ReadsOn => unread(told),
        Kind::Writer | Kind::WritesOn => unwritten(right, told),
    }
}

// All that is right, and nothing else.
fn whole(right: &Right<'_>, told: &str) -> Option<&'static str> {
    if told == right.writes {
        None
    } else {
        Some(OTHERWISE)
    }
}

// The error where nothing was done; or of a run the right replies, and then the refusal.
fn refused(right: &Right<'_>, told: &str, refusals: &Refusals) -> Option<&'static str> {
    if told == refusals.nothing || (right.deed == Deed::Run && is_ended(right, told, refusals)) {
        None
    } else {
        Some(IN_PLACE)
    }
}

// Whether the right replies end in a refusal of the next line.
fn is_ended(right: &Right<'_>, told: &str, refusals: &Refusals) -> bool {
    let place = right.answered(told);
    is_refused(right, told, refusals, place)
        && is_line(told, place.saturating_add(1), "status 5")
        && told.lines().nth(place.saturating_add(2)).is_none()
}

// Whether the line at this place is refused for its cause.
fn is_refused(right: &Right<'_>, told: &str, refusals: &Refusals, place: usize) -> bool {
    if right.is_put(place) {
        return is_line(told, place, refusals.put);
    }
    right.is_run(place)
        && (is_line(told, place, refusals.run) || is_line(told, place, refusals.or_run))
}

// That the graph or the script cannot be read, and nothing else.
fn unread(told: &str) -> Option<&'static str> {
    if told.starts_with("! cannot read ")
        && is_line(told, 1, "status 2")
        && told.lines().nth(2).is_none()
    {
        None
    } else {
        Some(IN_PLACE)
    }
}

// The beginning of what is right, and not all of it.
fn unwritten(right: &Right<'_>, told: &str) -> Option<&'static str> {
    match told.strip_suffix("status 5\n") {
        Some(out) if out.len() < right.writes.len() && right.writes.starts_with(out) => None,
        _ => Some(IN_PLACE),
    }
}
