//! The row of a number: one of the given rows, or the one that a side adds behind them.
ghost use Rattle.std.specs.Prelude.{◌≡◌, ◌<◌, ◌++◌, length, get_or};

use cap_lin::Row;

/// The row of a number, of rows and more rows behind them.
pub fn numbered_row<'a>(rows: &'a [Row], more: &'a [Row], number: usize) -> &'a Row
    requires { number < length (rows.now ++ more.now) }
    ensures { result.now ≡ get_or (rows.now ++ more.now) number result.now }
{
    if number < rows.len() {
        &rows[number]
    } else {
        &more[number - rows.len()]
    }
}
