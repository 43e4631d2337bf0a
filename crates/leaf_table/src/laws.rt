// What holds of every table.

ghost use Rattle.leaf_table.specs.Rows.{MostRowsIs};

/// How many rows a table may have, as a number.
pub fn limit_laws()
    ensures { MostRowsIs }
{}
