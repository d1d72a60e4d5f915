ghost use Rattle.report.specs.Formats.{FormatsOnce};
ghost use Rattle.report.specs.ReportText.{ReportsOnce};
ghost use Rattle.report.specs.TableText.{KeysHaveColumns};

use terms::orders_are_total;

/// A graph and a set of facts have at most one report.
pub fn reports_once()
    ensures { ReportsOnce }
{
    orders_are_total();
}

/// A graph and a set of facts have at most one report in each format.
pub fn formats_once()
    ensures { FormatsOnce }
{
    orders_are_total();
}

/// If each fact is of the graph, a table has a column for each component of its keys.
pub fn keys_have_columns()
    ensures { KeysHaveColumns }
{
    orders_are_total();
}
