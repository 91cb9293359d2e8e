//! The files of the command line, which are read here.
use of_command_line::{FileKind, OvsReading, SwitchFile};
use of_file_reports::{
    FileRead, NoFile, SwitchRead, content_said, contents_of, is_without_options, mode_of, say_name,
    switch_read,
};
use of_files::{Content, content_of};
use of_ovs_lines::with_port_numbers;
use of_replay::streams::ReaderSource;
use of_replay::{Ended, READ_SIZE, ended_by, read_file, zeros};
use of_sockets::StandardInput;
use of_text::cut;
use of_wire::front_of;
use std::alloc::Global;
use std::fs::File;
use std::io::{self, Read};

/// A file that is open, or standard input.
#[derive(Drop)]
pub enum Opened<'a> {
    File(File),
    Input(StandardInput<'a>),
}

/// Opens a file; `-` is standard input.
pub fn open<'a>(rt: &'a HostRuntime, path: &str) -> Result<Opened<'a>, io::Error> {
    if path == "-" {
        Ok(Opened::Input(StandardInput::new(rt)))
    } else {
        Ok(Opened::File(File::open(rt, path)?))
    }
}

impl Read for Opened<'_> {
    fn read(&mut self, buf: &mut [u8]) -> io::Result<usize> {
        match self {
            Opened::File(file) => file.read(buf),
            Opened::Input(input) => input.read(buf),
        }
    }
}

/// The datapath_id that the first line of a log says: `# replay with --dpid N`. None for what is no file, whose bytes come only once.
pub fn said_dpid(rt: &HostRuntime, path: &str) -> Option<u64> {
    if !std::fs::metadata(rt, path).ok()?.is_file() {
        return None;
    }
    let mut start = [0; 64];
    let count = File::open(rt, path).ok()?.read(&mut start).ok()?;
    let (line, _) = cut(front_of(&start, count), b'\n');
    let number = std::str::from_utf8(line)
        .ok()?
        .strip_prefix("# replay with --dpid ")?;
    u64::from_str_radix(number, 10).ok()
}

/// A file that is not read, or describes no switch, and why.
#[derive(Drop)]
pub struct Unread<'a> {
    pub path: &'a str,
    pub why: NoFile,
}

/// The bytes of a reader.
pub fn read_whole<R: Read + Drop>(alloc: Global, reader: R) -> Result<Vec<u8>, Ended> {
    let mut reader = ReaderSource::new(reader);
    let Ok(mut buffer) = zeros(alloc, READ_SIZE) else {
        return Err(Ended::NoMemory);
    };
    let mut bytes = Vec::new(alloc);
    match read_file(&mut reader, &mut buffer, &mut bytes) {
        Ok(()) => Ok(bytes),
        Err(halt) => Err(ended_by(Err(halt))),
    }
}

/// The bytes of a file; `-` is standard input.
pub fn bytes_of(rt: &HostRuntime, path: &str) -> Result<Vec<u8>, NoFile> {
    match open(rt, path) {
        Ok(file) => match read_whole(rt.alloc(), file) {
            Ok(bytes) => Ok(bytes),
            Err(ended) => Err(NoFile::ended(rt.alloc(), ended)),
        },
        Err(error) => Err(NoFile::Unopened(error)),
    }
}

/// What ovs-ofctl prints, with the numbers of ports in place of the names that a file lists, if there is one.
pub fn with_ports(
    rt: &HostRuntime,
    port_names: &Option<String>,
    bytes: Vec<u8>,
) -> Result<Vec<u8>, NoFile> {
    let Some(path) = port_names else {
        return Ok(bytes);
    };
    let Ok(list) = bytes_of(rt, path.as_str()) else {
        let _ = eprintln!(rt; "bad --port-names: cannot read {path}");
        return Err(NoFile::BadOption);
    };
    match with_port_numbers(rt.alloc(), &list, &bytes) {
        Ok(numbered) => Ok(numbered),
        Err(_) => Err(NoFile::ended(rt.alloc(), Ended::NoMemory)),
    }
}

/// The bytes of a file, and what it is; of what ovs-ofctl prints, ports are numbers. If it is `alone`, it is to have no options of another kind.
pub fn content_read(
    rt: &HostRuntime,
    path: &str,
    kind: FileKind,
    alone: bool,
    reading: &OvsReading,
) -> Result<(Vec<u8>, Content), NoFile> {
    let bytes = bytes_of(rt, path)?;
    let content = content_said(kind).unwrap_or(content_of(&bytes));
    if content == Content::OvsTable {
        Ok((with_ports(rt, &reading.port_names, bytes)?, content))
    } else if alone && !is_without_options(rt, reading, path) {
        Err(NoFile::BadOption)
    } else {
        Ok((bytes, content))
    }
}

/// What a file is read as that an option or its content says; of an event file only so many first lines, if they are given. If it is `named`,
/// standard error has its name before what is wrong with it. If it is `alone`, it is to have no options of another kind.
pub fn read_file_contents(
    rt: &HostRuntime,
    path: &str,
    kind: FileKind,
    lines: Option<u64>,
    named: bool,
    alone: bool,
    reading: &OvsReading,
) -> Result<FileRead, NoFile> {
    let (bytes, content) = match content_read(rt, path, kind, alone, reading) {
        Ok(read) => read,
        Err(NoFile::BadOption) => return Err(NoFile::BadOption),
        Err(why) => {
            say_name(rt, path, named);
            return Err(why);
        }
    };
    contents_of(
        rt,
        path,
        kind,
        lines,
        named,
        mode_of(reading),
        bytes,
        content,
    )
}

/// The switch of a file; of an event file after so many first lines, if they are given.
pub fn read_switch(
    rt: &HostRuntime,
    of: &SwitchFile,
    lines: Option<u64>,
    named: bool,
) -> Result<SwitchRead, NoFile> {
    let path = of.path.as_str();
    let read = read_file_contents(rt, path, of.kind, lines, named, true, &of.reading)?;
    switch_read(rt, of, read)
}
