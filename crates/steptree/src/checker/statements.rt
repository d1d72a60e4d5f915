ghost use Rattle.std.specs.Prelude.{◌≤◌, length, IfOk};
ghost use Rattle.steptree.specs.Tree.{End, If, For};
ghost use Rattle.steptree.specs.declared.slot.TheConstants.{MOST_NAMES};
ghost use Rattle.steptree.specs.CheckFaults.{block_faults};
ghost use Rattle.steptree.specs.Limits.{AreFew};
ghost use Rattle.steptree.specs.Resolved.{IsBlock};
ghost use Rattle.steptree.specs.Sheet.{KeepsTo};
ghost use Rattle.steptree.specs.Statements.{texts, Reports, ReportsChoice, ReportsLoop, ReportsSimple, IsStatement, IsAllowedSimple};
ghost use Rattle.steptree.specs.SeenBlocks.{stated};

use super::expressions::{resolve_expression, resolve_key};
use super::names::slot;
use crate::{
    Block, CheckError, CheckFault, Name, NamedBlock, NamedExpression, NamedSimple, NamedStatement,
    Sheet, Simple, Statement,
};
use std::alloc::Global;
use terms::{ItemCollection, TagCollection};

/// Resolves a choice between two blocks.
#[cycle(blocks)]
fn choose(
    alloc: Global,
    names: &[Name<'_>],
    sheet: &Sheet<'_>,
    condition: &NamedExpression<'_>,
    first: &NamedBlock<'_>,
    second: &NamedBlock<'_>,
) -> Result<Statement, CheckFault>
    requires named { length names.now ≤ MOST_NAMES }
    requires items { AreFew sheet.now.items }
    requires tags { AreFew sheet.now.tags }
    ensures statement { IfOk result (IsStatement (texts names.now) sheet.now (If condition.now first.now second.now)) }
    ensures faults { ReportsChoice (texts names.now) sheet.now condition.now first.now second.now result }
{
    let condition = resolve_expression(alloc, names, condition)?;
    let first = resolve_block(alloc, names, sheet, first)?;
    let second = resolve_block(alloc, names, sheet, second)?;
    Ok(Statement::If {
        condition,
        first,
        second,
    })
}

/// Resolves a loop.
#[cycle(blocks)]
fn repeat(
    alloc: Global,
    names: &[Name<'_>],
    sheet: &Sheet<'_>,
    variable: &Name<'_>,
    from: &NamedExpression<'_>,
    to: &NamedExpression<'_>,
    block: &NamedBlock<'_>,
) -> Result<Statement, CheckFault>
    requires named { length names.now ≤ MOST_NAMES }
    requires items { AreFew sheet.now.items }
    requires tags { AreFew sheet.now.tags }
    ensures statement { IfOk result (IsStatement (texts names.now) sheet.now (For variable.now from.now to.now block.now)) }
    ensures faults { ReportsLoop (texts names.now) sheet.now variable.now from.now to.now block.now result }
{
    let variable = slot(names, variable)?;
    let from = resolve_expression(alloc, names, from)?;
    let to = resolve_expression(alloc, names, to)?;
    let block = resolve_block(alloc, names, sheet, block)?;
    Ok(Statement::For {
        variable,
        from,
        to,
        block,
    })
}

/// Resolves a simple statement.
fn resolve_simple(
    alloc: Global,
    names: &[Name<'_>],
    sheet: &Sheet<'_>,
    statement: &NamedSimple<'_>,
) -> Result<Simple, CheckFault>
    requires named { length names.now ≤ MOST_NAMES }
    requires items { AreFew sheet.now.items }
    requires tags { AreFew sheet.now.tags }
    ensures simple { IfOk result (IsAllowedSimple (texts names.now) sheet.now statement.now) }
    ensures faults { ReportsSimple (texts names.now) sheet.now statement.now result }
{
    match statement {
        Simple::Assign { variable, value } => Ok(Simple::Assign {
            variable: slot(names, variable)?,
            value: resolve_expression(alloc, names, value)?,
        }),
        Simple::Get {
            variable,
            collection,
            components,
        } => {
            let variable = slot(names, variable)?;
            let error = CheckError::UndeclaredRead;
            let (number, components) = resolve_key(
                alloc,
                names,
                sheet.items,
                sheet.reads,
                error,
                collection,
                components,
            )?;
            Ok(Simple::Get {
                variable,
                collection: ItemCollection(number),
                components,
            })
        }
        Simple::PutItem {
            collection,
            components,
            value,
        } => {
            let error = CheckError::UndeclaredPut;
            let (number, components) = resolve_key(
                alloc,
                names,
                sheet.items,
                sheet.item_puts,
                error,
                collection,
                components,
            )?;
            Ok(Simple::PutItem {
                collection: ItemCollection(number),
                components,
                value: resolve_expression(alloc, names, value)?,
            })
        }
        Simple::PutTag {
            collection,
            components,
        } => {
            let error = CheckError::UndeclaredPut;
            let (number, components) = resolve_key(
                alloc,
                names,
                sheet.tags,
                sheet.tag_puts,
                error,
                collection,
                components,
            )?;
            Ok(Simple::PutTag {
                collection: TagCollection(number),
                components,
            })
        }
    }
}

/// Resolves a statement.
#[cycle(blocks)]
fn resolve_statement(
    alloc: Global,
    names: &[Name<'_>],
    sheet: &Sheet<'_>,
    statement: &NamedStatement<'_>,
) -> Result<Statement, CheckFault>
    requires named { length names.now ≤ MOST_NAMES }
    requires items { AreFew sheet.now.items }
    requires tags { AreFew sheet.now.tags }
    ensures statement { IfOk result (IsStatement (texts names.now) sheet.now (stated statement.now)) }
    ensures faults { Reports (block_faults (texts names.now) sheet.now (stated statement.now End)) result }
{
    match statement {
        Statement::Simple(simple) => Ok(Statement::Simple(resolve_simple(
            alloc, names, sheet, simple,
        )?)),
        Statement::If {
            condition,
            first,
            second,
        } => choose(alloc, names, sheet, condition, first, second),
        Statement::For {
            variable,
            from,
            to,
            block,
        } => repeat(alloc, names, sheet, variable, from, to, block),
    }
}

/// Resolves a block: each name becomes what it stands for.
#[cycle(blocks)]
pub(crate) fn resolve_block(
    alloc: Global,
    names: &[Name<'_>],
    sheet: &Sheet<'_>,
    block: &NamedBlock<'_>,
) -> Result<Block, CheckFault>
    requires named { length names.now ≤ MOST_NAMES }
    requires items { AreFew sheet.now.items }
    requires tags { AreFew sheet.now.tags }
    ensures resolves { IfOk result (IsBlock (texts names.now) sheet.now block.now) }
    ensures keeps { IfOk result (KeepsTo sheet.now) }
    ensures faults { Reports (block_faults (texts names.now) sheet.now block.now) result }
{
    let mut statements = Vec::with_capacity(alloc, block.statements.len())?;
    for statement in &block.statements {
        let resolved = resolve_statement(alloc, names, sheet, statement)?;
        statements.reserve(1)?;
        statements.push_reserved(resolved);
    }
    Ok(Block { statements })
}
