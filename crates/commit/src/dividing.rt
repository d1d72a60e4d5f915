//! A batch is divided into two.
ghost use Rattle.std.specs.Prelude.{◌≡◌, ◌≤◌, IfOk, OnErr, length};
ghost use Rattle.commit.specs.Batch.{IsCut};

use crate::{Batch, Outcome};
use instances::Tasks;
use std::alloc::{AllocError, Global};

impl<'a> Batch<'a> {
    ghost use Rattle.std.specs.Prelude.{◌≡◌, ◌≤◌, ◌<◌, IfErr, IfOk, length};
    ghost use Rattle.commit.specs.Batch.{IsDivided};

    /// Divides it into the first `count` pairs, and those after them. If there is no memory, it comes back whole.
    pub fn split(self, alloc: Global, count: usize) -> Result<(Batch<'a>, Batch<'a>), Batch<'a>>
        requires some { 1 ≤ count }
        requires less { count < length self.tasks }
        ensures ok { IfOk result (λ both. IsDivided self.entry count both.0 both.1) }
        ensures back { IfErr result (λ back. back ≡ self.entry) }
    {
        let Batch {
            mut tasks,
            mut outcomes,
            ends,
        } = self;
        let room = match Vec::with_capacity(alloc, tasks.len() - count) {
            Ok(room) => room,
            Err(_) => return Err(Batch {
                tasks,
                outcomes,
                ends,
            }),
        };
        match split_both(&mut tasks, &mut outcomes, count) {
            Ok((others, more)) => Ok((
                Batch {
                    tasks,
                    outcomes,
                    ends,
                },
                Batch {
                    tasks: others,
                    outcomes: more,
                    ends: room,
                },
            )),
            Err(_) => Err(Batch {
                tasks,
                outcomes,
                ends,
            }),
        }
    }
}

// Takes out the tasks and the outcomes after the first `count`. If there is no memory, all of them stay.
fn split_both<'a>(
    tasks: &mut Tasks,
    outcomes: &mut Vec<Outcome<'a>>,
    count: usize,
) -> Result<(Tasks, Vec<Outcome<'a>>), AllocError>
    requires tasks { count ≤ length tasks.old }
    requires outcomes { count ≤ length outcomes.old.items }
    ensures tasks { IfOk result (λ others. IsCut count tasks.old tasks.new others.0) }
    ensures outcomes { IfOk result (λ others. IsCut count outcomes.old.items outcomes.new.items others.1.items) }
    ensures err { OnErr result ((tasks.new ≡ tasks.old) × (outcomes.new.items ≡ outcomes.old.items)) }
{
    let mut more = outcomes.split_off(count)?;
    match tasks.split_off(count) {
        Ok(others) => Ok((others, more)),
        Err(error) => {
            // There is room for them: they were just there.
            let _ = outcomes.append(&mut more);
            Err(error)
        }
    }
}
