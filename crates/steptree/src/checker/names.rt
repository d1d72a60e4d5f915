ghost use Rattle.std.specs.Prelude.{◌≡◌, ◌<◌, ◌≤◌, ◌++◌, length, map, Some, IfOk, IfSome, OnOk};
ghost use Rattle.terms.specs.declared.key.TheConstants.{MAX_COMPONENTS};
ghost use Rattle.steptree.specs.declared.slot.TheConstants.{MOST_NAMES};
ghost use Rattle.steptree.specs.CheckFaults.{variable_faults};
ghost use Rattle.steptree.specs.Limits.{AreFew};
ghost use Rattle.steptree.specs.Names.{place_of, slot_of, number_of};
ghost use Rattle.steptree.specs.Sheet.{IsAllowed};
ghost use Rattle.steptree.specs.Statements.{texts, Reports, ReportsUse};

use crate::{CheckError, CheckFault, Declared, Name, NamedExpression, Slot, Step};
use std::alloc::{AllocError, Global};

/// A thing that has a text as its name.
pub(crate) trait Named {
    ghost use Rattle.std.specs.Prelude.{ℕ, List};

    ghost name: { Self → List ℕ };

    fn text(&self) -> &str
        ensures { result.now ≡ name self.now };
}

impl Named for Name<'_> {
    ghost name = { λ n. n.text.now };

    fn text(&self) -> &str {
        self.text
    }
}

impl Named for Declared<'_> {
    ghost name = { λ d. d.name };

    fn text(&self) -> &str {
        self.name
    }
}

/// The first place of a text among names.
fn place<N: Named>(names: &[N], text: &str) -> Option<usize>
    ensures place { result ≡ place_of (map N.name names.now) text.now }
    ensures within { IfSome result (λ place. place < length names.now) }
{
    for (place, name) in names.iter().enumerate() {
        // As bytes, which is quicker than as texts.
        if name.text().as_bytes() == text.as_bytes() {
            return Some(place);
        }
    }
    None
}

/// The names of a step, by slot.
pub(crate) fn all_names<'a>(alloc: Global, step: &Step<'a>) -> Result<Vec<Name<'a>>, AllocError>
    ensures { IfOk result (λ names. names.items ≡ step.now.parameters.items ++ step.now.variables.items) }
{
    let mut names = Vec::from_slice(alloc, &step.parameters)?;
    names.extend_from_slice(&step.variables)?;
    Ok(names)
}

/// Copies of the names, as owned strings.
pub(crate) fn owned_texts(alloc: Global, names: &[Name<'_>]) -> Result<Vec<String>, AllocError>
    ensures { IfOk result (λ owned. map (λ name. name.bytes.items) owned.items ≡ texts names.now) }
{
    let mut owned = Vec::new(alloc);
    for name in names {
        let text = String::from_str(alloc, name.text)?;
        owned.reserve(1)?;
        owned.push_reserved(text);
    }
    Ok(owned)
}

/// The slot of a variable.
pub(crate) fn slot(names: &[Name<'_>], name: &Name<'_>) -> Result<Slot, CheckFault>
    requires { length names.now ≤ MOST_NAMES }
    ensures slot { IfOk result (λ slot. slot_of (texts names.now) name.now ≡ Some slot) }
    ensures faults { Reports (variable_faults (texts names.now) name.now) result }
{
    match place(names, name.text) {
        Some(place) => Ok(Slot::new(place)),
        None => Err(at(name, CheckError::UnknownName)),
    }
}

/// The number of a key's collection, if the step may use it so and its keys have this number of components.
pub(crate) fn number(
    collections: &[Declared<'_>],
    allowed: &[bool],
    error: CheckError,
    name: &Name<'_>,
    components: &[NamedExpression<'_>],
) -> Result<u16, CheckFault>
    requires { AreFew collections.now }
    ensures number { IfOk result (λ number. number_of collections.now name.now ≡ Some number) }
    ensures allowed { IfOk result (λ number. IsAllowed collections.now allowed.now number (length components.now)) }
    ensures short { OnOk result (length components.now ≤ MAX_COMPONENTS) }
    ensures faults { ReportsUse collections.now allowed.now error name.now components.now result }
{
    match place(collections, name.text) {
        None => Err(at(name, CheckError::UnknownName)),
        Some(number) => {
            let collection = &collections[number];
            if number >= allowed.len() || !allowed[number] {
                return Err(at(name, error));
            }
            if collection.components != components.len() {
                return Err(at(name, CheckError::Arity));
            }
            Ok(number as u16)
        }
    }
}

// A fault at a name.
fn at(name: &Name<'_>, error: CheckError) -> CheckFault
    ensures error { result.error ≡ error }
    ensures place { result.place ≡ name.now.place }
{
    CheckFault {
        error,
        place: name.place,
    }
}
