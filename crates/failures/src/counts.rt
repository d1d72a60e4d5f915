//! How much a report says that there is.

/// The numbers of a report: items, tags, and finished steps.
#[derive(Clone, Copy, Debug, PartialEq, Eq)]
pub(crate) struct Counts {
    pub(crate) items: u64,
    pub(crate) tags: u64,
    pub(crate) done: u64,
}

impl Counts {
    /// The numbers of the report, if it has them.
    pub(crate) fn of(report: &str) -> Option<Counts> {
        let line = report.lines().find(|line| line.ends_with(" steps done"))?;
        Some(Counts {
            items: number_at(line, 0),
            tags: number_at(line, 2),
            done: number_at(line, 4),
        })
    }

    /// How much the environment put, where each step puts one item and no tag.
    pub(crate) fn put(self) -> u64 {
        self.items
            .saturating_sub(self.done)
            .saturating_add(self.tags)
    }
}

// The number that is the word at this place of a line. The words of other lines are none.
fn number_at(line: &str, place: usize) -> u64 {
    match line.split(' ').nth(place) {
        Some(word) => word.parse::<u64>().unwrap_or(u64::MAX),
        None => u64::MAX,
    }
}

/// Whether each item of a report is in the other, with the same value, and its fault too, if it has one.
pub(crate) fn has_facts(report: &str, facts_of: &str) -> bool {
    facts_of.lines().all(|line| !(line.starts_with("[") || line.starts_with(STOPPED))
        || has_line(report, line))
}

/// The line of a report that has the fault, if it has one.
pub(crate) fn fault_in(report: &str) -> Option<&str> {
    report.lines().find(|line| line.starts_with(STOPPED))
}

// How the line of a fault begins.
const STOPPED: &str = "stopped by fault ";

// Whether a text has this line.
fn has_line(text: &str, wanted: &str) -> bool {
    text.lines().any(|line| line == wanted)
}

/// Whether this is the line at a place of a text.
pub(crate) fn is_line(text: &str, place: usize, wanted: &str) -> bool {
    text.lines().nth(place) == Some(wanted)
}
