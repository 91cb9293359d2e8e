//! What `say` is asked for.

use crate::{NoRequest, Request, long_number_in, refused};
use clap::ArgMatches;
use std::alloc::{AllocError, Global};

const FIRST_XID: u32 = 1;

// Words with a space between them.
fn joined(alloc: Global, words: &[&str]) -> Result<String, AllocError> {
    let mut text = String::new(alloc);
    for word in words {
        if !text.is_empty() {
            text.push(' ')?;
        }
        text.push_str(word)?;
    }
    Ok(text)
}

fn xid_of(alloc: Global, word: Option<&str>) -> Result<u32, NoRequest> {
    let Some(word) = word else {
        return Ok(FIRST_XID);
    };
    match long_number_in(word).map(u32::try_from) {
        Some(Ok(xid)) => Ok(xid),
        _ => Err(refused(alloc, "bad xid: a 32-bit number\n")?),
    }
}

/// The request of `say`: one file or word in words, or the bytes of words.
pub(crate) fn saying_of(alloc: Global, matches: &ArgMatches<'_>) -> Result<Request, NoRequest> {
    let words = matches.get_strs("FILE").unwrap_or(&[]);
    if matches.get_flag("hex") {
        return Ok(Request::Encode {
            words: joined(alloc, words)?,
            xid: xid_of(alloc, matches.get_str("xid"))?,
        });
    }
    match words {
        [file] => Ok(Request::Say {
            messages: file.to_string(alloc)?,
        }),
        _ => Err(refused(
            alloc,
            "bad messages: one word of hexadecimal digits or one file; --hex takes words\n",
        )?),
    }
}
