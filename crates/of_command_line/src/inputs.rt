//! The files of a switch that serves: one of those that are read is standard input at most, and the log is none of them.

use crate::{NoRequest, refused, text_of};
use clap::ArgMatches;
use std::alloc::Global;

// Why two of what is read cannot both be standard input, if they are.
fn same_inputs(matches: &ArgMatches<'_>) -> Option<&'static str> {
    let tables = matches.get_str("tables") == Some("-");
    let events = matches.get_str("FILE") == Some("-");
    let rows = matches.get_str("rows") == Some("-");
    match (tables, events, rows) {
        (true, true, _) => Some(
            "bad tables: --tables and --events cannot both read standard input\n",
        ),
        (true, _, true) => Some("bad rows: --tables and --rows cannot both read standard input\n"),
        (_, true, true) => Some("bad rows: --events and --rows cannot both read standard input\n"),
        _ => None,
    }
}

// Why the options of a file with groups and flows say nothing, if that is not there.
fn idle_options(matches: &ArgMatches<'_>) -> Option<&'static str> {
    if matches.get_str("tables").is_some() {
        return None;
    }
    if matches.get_flag("skip") {
        return Some("bad --skip: nothing is read without --tables\n");
    }
    if matches.get_flag("renumber") {
        return Some("bad --renumber: nothing is read without --tables\n");
    }
    matches
        .get_str("port-names")
        .map(|_| "bad --port-names: nothing is read without --tables\n")
}

/// The file with the groups and flows of a switch.
pub(crate) fn tables_of(
    alloc: Global,
    matches: &ArgMatches<'_>,
) -> Result<Option<String>, NoRequest> {
    match same_inputs(matches).or(idle_options(matches)) {
        Some(why) => Err(refused(alloc, why)?),
        None => Ok(text_of(alloc, matches.get_str("tables"))?),
    }
}

/// Whether rows come while the switch runs, which is from standard input alone.
pub(crate) fn running_rows_of(alloc: Global, rows: Option<&str>) -> Result<bool, NoRequest> {
    match rows {
        None => Ok(false),
        Some("-") => Ok(true),
        Some(_) => Err(refused(alloc, "bad rows: it is -, for standard input\n")?),
    }
}

/// The log, which is another file than those that are read.
pub(crate) fn log_of(alloc: Global, matches: &ArgMatches<'_>) -> Result<Option<String>, NoRequest> {
    let log = matches.get_str("log");
    if log.is_some() && log == matches.get_str("FILE") {
        return Err(refused(alloc, "bad log: --events and --log are one file\n")?);
    }
    if log.is_some() && log == matches.get_str("tables") {
        return Err(refused(alloc, "bad log: --tables and --log are one file\n")?);
    }
    Ok(text_of(alloc, log)?)
}
