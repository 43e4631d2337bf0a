// The one way to ask of each row whether it goes as it was worked out.

use crate::ballast::grow_stack;
use crate::texts::{say, written};
use std::alloc::Global;

/// What is wrong with the first row of which something else is told than is wanted; nothing if
/// there is none. A line is a row: what is given, with ` | ` between its parts, ` =>`, and what is
/// to be told; both in short forms, see `write_short`. A line that begins with `§` names the rows
/// behind it.
pub fn first_wrong<F: Fn(Global, &str, &mut String)>(alloc: Global, rows: &str, tell: F) -> String
    requires { F.IsAlwaysCallable tell }
{
    grow_stack(alloc);
    let mut wrong = String::new(alloc);
    for row in rows.lines() {
        if wrong.is_empty() && !row.is_empty() && !row.starts_with('§') {
            push_wrong(alloc, row, &tell, &mut wrong);
        }
    }
    wrong
}

/// Adds what is wrong with the row, if anything is.
fn push_wrong<F: Fn(Global, &str, &mut String)>(
    alloc: Global,
    row: &str,
    tell: &F,
    wrong: &mut String,
)
    requires { F.IsAlwaysCallable tell.now }
{
    let (given, short) = row.split_once(" =>").unwrap_or((row, "a row"));
    let wanted = written(alloc, short.trim_start());
    let text = written(alloc, given);
    let mut found = String::new(alloc);
    tell(alloc, text.as_str(), &mut found);
    if found.as_str() != wanted.as_str() {
        say(wrong, given);
        drop(write!(wrong, ": wanted {wanted}, found {found}"));
    }
}
