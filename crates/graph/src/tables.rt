ghost use Rattle.std.specs.Prelude.{◌≡◌, OnOk, IfOk, is_none, false, replicate};
ghost use Rattle.graph.specs.declared.fault.GraphError.TheVariants.{Redeclared};
ghost use Rattle.graph.specs.Faults.{fault_if};
ghost use Rattle.graph.specs.Placed.{Reports};
ghost use Rattle.graph.specs.Relations.{read_faults, put_faults, environment_faults};
ghost use Rattle.graph.specs.Marks.{mark_at, mark_between, with_mark, with_mark_between, bits};

use crate::fault::{GraphError, PlacedFault};
use std::alloc::{AllocError, Global};
use steptree::Name;

/// Marks a place of a row; it is a fault if the place is already marked.
fn mark(row: &mut Vec<bool>, place: Option<usize>, position: usize) -> Result<(), PlacedFault>
    ensures faults { Reports (fault_if (mark_at row.old.items place) Redeclared position) result }
    ensures marked { OnOk result (row.new.items ≡ with_mark row.old.items place) }
{
    if let Some(place) = place {
        if place < row.len() {
            if row[place] {
                return Err(PlacedFault {
                    error: GraphError::Redeclared,
                    position,
                });
            }
            row[place] = true;
        }
    }
    Ok(())
}

/// Marks a place of one of the rows.
fn mark_in(
    rows: &mut Vec<Vec<bool>>,
    row: Option<usize>,
    place: Option<usize>,
    position: usize,
) -> Result<(), PlacedFault>
    ensures faults { Reports (fault_if (mark_between (bits rows.old) row place) Redeclared position) result }
    ensures marked { OnOk result (bits rows.new ≡ with_mark_between (bits rows.old) row place) }
{
    if let Some(row) = row {
        if row < rows.len() {
            return mark(&mut rows[row], place, position);
        }
    }
    Ok(())
}

/// It is a fault if the lookup of a name found nothing.
pub(crate) fn known(
    place: Option<usize>,
    error: GraphError,
    name: &Name<'_>,
) -> Result<(), PlacedFault>
    ensures { Reports (fault_if (is_none place) error name.now.place) result }
{
    match place {
        Some(_) => Ok(()),
        None => Err(PlacedFault {
            error,
            position: name.place,
        }),
    }
}

/// A read, by the numbers of its item collection and its step.
pub(crate) fn read(
    rows: &mut Vec<Vec<bool>>,
    position: usize,
    item: Option<usize>,
    item_name: &Name<'_>,
    step: Option<usize>,
    step_name: &Name<'_>,
) -> Result<(), PlacedFault>
    ensures faults { Reports (read_faults (bits rows.old) position item item_name.now step step_name.now) result }
    ensures marked { OnOk result (bits rows.new ≡ with_mark_between (bits rows.old) step item) }
{
    mark_in(rows, step, item, position)?;
    known(item, GraphError::UnknownName, item_name)?;
    known(step, GraphError::StepMissing, step_name)
}

/// A put, by the numbers of its step and of the collection that it puts.
pub(crate) fn put(
    rows: &mut Vec<Vec<bool>>,
    position: usize,
    step: Option<usize>,
    step_name: &Name<'_>,
    other: Option<usize>,
    other_name: &Name<'_>,
) -> Result<(), PlacedFault>
    ensures faults { Reports (put_faults (bits rows.old) position step step_name.now other other_name.now) result }
    ensures marked { OnOk result (bits rows.new ≡ with_mark_between (bits rows.old) step other) }
{
    mark_in(rows, step, other, position)?;
    known(step, GraphError::StepMissing, step_name)?;
    known(other, GraphError::UnknownName, other_name)
}

/// A relation of the environment, by the number of its collection.
pub(crate) fn environment(
    row: &mut Vec<bool>,
    position: usize,
    place: Option<usize>,
    name: &Name<'_>,
) -> Result<(), PlacedFault>
    ensures faults { Reports (environment_faults row.old.items position place name.now) result }
    ensures marked { OnOk result (row.new.items ≡ with_mark row.old.items place) }
{
    mark(row, place, position)?;
    known(place, GraphError::UnknownName, name)
}

/// `rows` rows of `width` places, none marked.
pub(crate) fn no_marks(
    alloc: Global,
    rows: usize,
    width: usize,
) -> Result<Vec<Vec<bool>>, AllocError>
    ensures { IfOk result (λ them. bits them ≡ replicate rows (replicate width false)) }
{
    let mut them = Vec::new(alloc);
    for _row in 0..rows {
        them.push(vec![in alloc; false; width]?)?;
    }
    Ok(them)
}
