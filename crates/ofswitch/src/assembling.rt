//! The groups and flows of a switch: as an event file that builds them, or for ovs-ofctl.
use crate::files::read_file_contents;
use of_build::build;
use of_command_line::SwitchFile;
use of_file_reports::{NoFile, Screen, config_of};
use of_ovs_text::ovs_text;
use of_replay::streams::WriterSink;
use of_replay::{Ended, write_all};
use of_text::Config;
use std::alloc::{AllocError, Global};

// The groups and flows of the switch of a file.
fn read_config(rt: &HostRuntime, of: &SwitchFile) -> Result<Config, NoFile> {
    let path = of.path.as_str();
    let read = read_file_contents(rt, path, of.kind, None, false, true, &of.reading)?;
    match config_of(read.contents) {
        Ok(config) => Ok(config),
        Err(_) => Err(NoFile::ended(rt.alloc(), Ended::NoMemory)),
    }
}

// Prints a text, if there was memory for it.
fn print(screen: &Screen<'_>, text: Result<Vec<u8>, AllocError>) -> Result<(), NoFile> {
    let alloc = screen.rt.alloc();
    match text {
        Ok(text) if write_all(&mut WriterSink::new(screen.report()), &text) => Ok(()),
        Ok(_) => Err(NoFile::ended(alloc, Ended::WriteFault)),
        Err(_) => Err(NoFile::ended(alloc, Ended::NoMemory)),
    }
}

/// Prints the event file that builds the groups and flows of the switch of a file.
pub fn assembled(screen: &Screen<'_>, of: &SwitchFile) -> Result<(), NoFile> {
    let config = read_config(screen.rt, of)?;
    print(screen, build(screen.rt.alloc(), &config))
}

/// Prints the groups and flows of the switch of a file as ovs-ofctl reads them. False: it has no words for them, as standard error says.
pub fn dumped(screen: &Screen<'_>, of: &SwitchFile) -> Result<bool, NoFile> {
    let config = read_config(screen.rt, of)?;
    let alloc: Global = screen.rt.alloc();
    match ovs_text(alloc, &config) {
        Ok(Some(text)) => {
            print(screen, Ok(text))?;
            Ok(true)
        }
        Ok(None) => {
            let path = of.path.as_str();
            let _ = eprintln!(screen.rt;
                "{path} has groups or flows that ovs-ofctl has no words for"
            );
            Ok(false)
        }
        Err(_) => Err(NoFile::ended(alloc, Ended::NoMemory)),
    }
}
