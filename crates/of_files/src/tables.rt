//! Files that have groups and flows: flow texts, and what ovs-ofctl prints.
ghost use Rattle.std.specs.Prelude.{◌≡◌, IfErr, IfOk, true};
ghost use Rattle.of_text.specs.Lines.{lines_of};
ghost use Rattle.of_import.specs.Imports.{NoImport};
ghost use Rattle.of_replay.specs.FileRuns.{IsRead};
ghost use Rattle.of_files.specs.FileTables.{IsNothingLeftOut, IsTableRead, tables_of_text};

use crate::flow_lines::text_origins;
use of_import::{ImportConfig, ImportError, KeptLines, LineFaults, LineRefusal, import_config};
use of_import_report::table_origins;
use of_ovs_lines::Mode;
use of_replay::{Ended, config_of_text};
use of_text::Config;
use of_values::Origin;
use std::alloc::Global;

/// What is left out of a file.
#[derive(Drop)]
pub struct LeftOut {
    /// Lines with words that are refused.
    pub faults: Vec<LineFaults>,
    /// Lines that the switch refuses.
    pub refused: Vec<LineRefusal>,
    /// How many flows have an action left out.
    pub changed: usize,
}

/// Nothing is left out.
pub fn nothing(alloc: Global) -> LeftOut
    ensures { IsNothingLeftOut result }
{
    LeftOut {
        faults: Vec::new(alloc),
        refused: Vec::new(alloc),
        changed: 0,
    }
}

/// The groups and flows of a file, where the flows come from: for each table, by age; and what is left out.
#[derive(Drop)]
pub struct FileTables {
    pub config: Config,
    pub origins: Vec<Vec<Origin>>,
    pub left_out: LeftOut,
}

/// The groups and flows of a flow text (docs/FLOWTEXT.md).
///
/// If it is none, Err is a line that no file may have, the first fault of the text, or `NoMemory`.
pub fn read_text(alloc: Global, file: &[u8]) -> Result<FileTables, Ended>
    ensures { IsRead tables_of_text result true file.now }
{
    let config = match config_of_text(alloc, file) {
        Ok(config) => config,
        Err(ended) => return Err(ended),
    };
    match text_origins(alloc, file) {
        Ok(origins) => Ok(FileTables {
            config,
            origins,
            left_out: nothing(alloc),
        }),
        Err(_) => Err(Ended::NoMemory),
    }
}

/// The groups and flows of what ovs-ofctl prints or would read (docs/IMPORT.md), as `import` reads them, without text in between.
///
/// Err: why there are none, as `import` says.
pub fn read_table(alloc: Global, file: &[u8], mode: Mode) -> Result<FileTables, ImportError>
    ensures found { IfOk result (IsTableRead mode file.now) }
    ensures failed { IfErr result (NoImport (lines_of file.now) mode) }
{
    let ImportConfig {
        config,
        faults,
        kept,
        changed,
    } = import_config(alloc, file, mode)?;
    let KeptLines { flows, refused, .. } = kept;
    let origins = table_origins(alloc, &flows)?;
    let left_out = LeftOut {
        faults,
        refused,
        changed,
    };
    Ok(FileTables {
        config,
        origins,
        left_out,
    })
}
