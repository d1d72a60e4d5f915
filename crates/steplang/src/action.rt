ghost use Rattle.std.specs.Prelude.{◌≡◌};
ghost use Rattle.steptree.specs.Simple.{action_of};

use crate::value::{Variables, evaluate_expression, evaluate_key};
use steptree::{Action, Simple};
use terms::{Addr, FaultKind, Put, Tag};

/// What a simple statement does when the variables have these values. The compiler gives an assignment an instruction of its
/// own, so none of its code brings one here.
pub(crate) fn action(statement: &Simple, variables: &Variables) -> Result<Action, FaultKind>
    ensures { result ≡ action_of statement.now variables.now }
{
    match statement {
        Simple::Assign { variable, value } => {
            let value = evaluate_expression(value, variables)?;
            Ok(Action::Assigns(*variable, value))
        }
        Simple::Get {
            variable,
            collection,
            components,
        } => {
            let key = evaluate_key(components, variables)?;
            let collection = *collection;
            Ok(Action::Gets(*variable, Addr { collection, key }))
        }
        Simple::PutItem {
            collection,
            components,
            value,
        } => {
            let key = evaluate_key(components, variables)?;
            let value = evaluate_expression(value, variables)?;
            let collection = *collection;
            Ok(Action::Puts(Put::Item(Addr { collection, key }, value)))
        }
        Simple::PutTag {
            collection,
            components,
        } => {
            let key = evaluate_key(components, variables)?;
            let collection = *collection;
            Ok(Action::Puts(Put::Tag(Tag { collection, key })))
        }
    }
}
