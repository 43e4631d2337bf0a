// What a file of C stands on.

/// What POSIX has, which the filter uses.
pub(crate) const POSIX: &str = r#"#define _POSIX_C_SOURCE 200809L
"#;

/// The libraries of a file with a filter.
pub(crate) const FILTER_INCLUDES: &str = r#"
#include <errno.h>
#include <signal.h>
#include <stdio.h>
#include <stdlib.h>
#include <string.h>
#include <unistd.h>
"#;

/// What compilers don't warn of behind it: places past a list, which are never read, and braces and tests that
/// could be left out.
pub(crate) const PRAGMAS: &str = r#"
#ifdef __GNUC__
#pragma GCC diagnostic ignored "-Warray-bounds"
#pragma GCC diagnostic ignored "-Wmissing-braces"
#pragma GCC diagnostic ignored "-Wtautological-compare"
#endif

"#;
