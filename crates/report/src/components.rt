//! The components of keys, in tables and in JSON.
ghost use Rattle.std.specs.Fmt.{WritesOnOk};
ghost use Rattle.report.specs.TableText.{after_commas, column_names, commas};

use std::fmt;
use terms::Key;

/// The components of a key with commas between them.
#[derive(Clone, Copy)]
pub(crate) struct BetweenCommas<'a> {
    pub(crate) key: &'a Key,
}

/// The cells of a key in a row with this number of key columns: each after a comma, empty ones at the end.
#[derive(Clone, Copy)]
pub(crate) struct KeyCells<'a> {
    pub(crate) columns: usize,
    pub(crate) key: &'a Key,
}

/// The names of this number of key columns, each after a comma.
#[derive(Clone, Copy)]
pub(crate) struct ColumnNames {
    pub(crate) columns: usize,
}

impl fmt::Display for BetweenCommas<'_> {
    ghost use Rattle.std.specs.Prelude.{Some};
    ghost use Rattle.report.specs.ObjectLines.{between_commas};

    ghost output = { λ listed. Some (between_commas listed.key.now) };

    fn fmt<W: fmt::Write>(&self, f: &mut fmt::Formatter<W>) -> fmt::Result {
        match self.key.components().split_first() {
            Some((first, more)) => {
                write!(f, "{first}")?;
                write_after_commas(f, more)
            }
            None => Ok(()),
        }
    }
}

impl fmt::Display for KeyCells<'_> {
    ghost use Rattle.std.specs.Prelude.{Some};
    ghost use Rattle.report.specs.TableText.{key_cells};

    ghost output = { λ cells. Some (key_cells cells.columns cells.key.now) };

    fn fmt<W: fmt::Write>(&self, f: &mut fmt::Formatter<W>) -> fmt::Result {
        let components = self.key.components();
        let empty = self.columns.saturating_sub(components.len());
        write_after_commas(f, components)?;
        write_commas(f, empty)
    }
}

impl fmt::Display for ColumnNames {
    ghost use Rattle.std.specs.Prelude.{Some};
    ghost use Rattle.report.specs.TableText.{column_names};

    ghost output = { λ names. Some (column_names names.columns) };

    fn fmt<W: fmt::Write>(&self, f: &mut fmt::Formatter<W>) -> fmt::Result {
        write_column_names(f, self.columns)
    }
}

/// Writes these components, each after a comma.
fn write_after_commas<W: fmt::Write>(f: &mut fmt::Formatter<W>, components: &[i64]) -> fmt::Result
    ensures { WritesOnOk W.write_str_gives f.old result (after_commas components.now) f.new }
{
    for component in components {
        write!(f, ",{component}")?;
    }
    Ok(())
}

/// Writes this number of commas.
fn write_commas<W: fmt::Write>(f: &mut fmt::Formatter<W>, cells: usize) -> fmt::Result
    ensures { WritesOnOk W.write_str_gives f.old result (commas cells) f.new }
{
    for _cell in 0..cells {
        f.write_str(",")?;
    }
    Ok(())
}

/// Writes the names of this number of key columns, each after a comma.
fn write_column_names<W: fmt::Write>(f: &mut fmt::Formatter<W>, columns: usize) -> fmt::Result
    ensures { WritesOnOk W.write_str_gives f.old result (column_names columns) f.new }
{
    for before in 0..columns {
        let number = before + 1;
        write!(f, ",k{number}")?;
    }
    Ok(())
}
