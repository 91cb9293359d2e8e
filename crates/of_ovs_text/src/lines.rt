//! All lines of a configuration.
ghost use Rattle.std.specs.Prelude.{◌≡◌, ◌++◌, ◌==◌, ◌&&◌, IfOk, OnOk};
ghost use Rattle.std.specs.Str.{bytes_eq};
ghost use Rattle.of_text.specs.Configs.{config_text};
ghost use Rattle.of_ovs_text.specs.{Lengths.with_used_lengths as with_used_lengths_of, Lines.IsOvsText, Lines.IsReadAgain, Lines.flow_lines_below, Lines.ovs_text_of};

use crate::flows::push_flow_lines;
use crate::groups::push_group_lines;
use crate::lengths::with_used_lengths;
use of_import::{ImportError, ImportText, import_text};
use of_ovs_lines::Mode;
use of_text::{Config, disassemble};
use of_wire::limits::TABLES;
use std::alloc::{AllocError, Global};

// Appends the lines of the flows of all tables.
#[tactic(auto, unfolding(crate::specs::Lines::flow_lines_below))]
fn push_table_lines(out: &mut Vec<u8>, config: &Config) -> Result<(), AllocError>
    ensures { OnOk result (out.new.items ≡ out.old.items ++ flow_lines_below 16 config.now) }
{
    for table in 0..TABLES {
        push_flow_lines(out, config.flows(table))?;
    }
    Ok(())
}

#[tactic(auto, unfolding(crate::specs::Lines::ovs_text_of))]
fn text_of(alloc: Global, config: &Config) -> Result<Vec<u8>, AllocError>
    ensures { IfOk result (λ text. text.items ≡ ovs_text_of config.now) }
{
    let mut out = Vec::new(alloc);
    push_group_lines(&mut out, config.groups())?;
    push_table_lines(&mut out, config)?;
    Ok(out)
}

// The flow text that the lines say.
fn flow_text_of(alloc: Global, config: &Config) -> Result<Vec<u8>, AllocError>
    ensures { IfOk result (λ text. text.items ≡ with_used_lengths_of (config_text config.now)) }
{
    let text = disassemble(alloc, config)?;
    with_used_lengths(alloc, &text)
}

fn is_text(read: &ImportText, flow_text: &[u8]) -> bool
    ensures { result ≡ (bytes_eq read.now.text.items flow_text.now && (read.now.changed == 0)) }
{
    read.text.as_slice() == flow_text && read.changed == 0
}

// Whether `import` reads the lines as this configuration, except for the max_len of OUTPUT to other ports than CONTROLLER.
fn is_read_again(alloc: Global, text: &[u8], config: &Config) -> Result<bool, AllocError>
    ensures { IfOk result (IsReadAgain text.now config.now) }
{
    let mode = Mode {
        skip: false,
        renumber: false,
    };
    let flow_text = flow_text_of(alloc, config)?;
    match import_text(alloc, text, mode) {
        Ok(read) => Ok(is_text(&read, &flow_text)),
        Err(ImportError::NoMemory) => Err(AllocError),
        Err(ImportError::Faults(_, _) | ImportError::Refused { .. } | ImportError::TooMany(_)) => {
            Ok(false)
        }
    }
}

/// The groups and flows of a configuration as lines that ovs-ofctl reads (ovs-ofctl(8), ovs-fields(7), ovs-actions(7)): a line for each group in order of
/// number, and a line for each flow by table, the oldest first. None: `import` does not read these lines back as this configuration. The max_len of an OUTPUT to
/// another port than CONTROLLER is not written, since it has no meaning (OpenFlow 1.3.5, 7.2.5).
pub fn ovs_text(alloc: Global, config: &Config) -> Result<Option<Vec<u8>>, AllocError>
    ensures { IfOk result (IsOvsText config.now) }
{
    let text = text_of(alloc, config)?;
    if is_read_again(alloc, &text, config)? {
        Ok(Some(text))
    } else {
        Ok(None)
    }
}
