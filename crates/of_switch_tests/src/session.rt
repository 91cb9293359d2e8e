use crate::checks::same;
use of_messages::{Message, Role};
use of_session::{Beginning, Next, Phase, Session, Stream, splits_once};
use std::process::Abort;
use std::test::Fail;

/// What is done to a stream, and what it then gives.
enum Chunk {
    Feed(&'static [u8]),
    Beginning(Beginning),
    /// The bytes in front, which are then taken.
    Take(&'static [u8]),
    /// What is left: so many bytes are kept.
    Left(&'static [u8]),
    Clear,
}

const CHUNKS: &[Chunk] = &[
    Chunk::Feed(&[4, 20, 0]),
    Chunk::Beginning(Beginning::Waiting),
    Chunk::Feed(&[8, 0, 0, 0, 7, 4]),
    Chunk::Beginning(Beginning::Message(8)),
    Chunk::Take(&[4, 20, 0, 8, 0, 0, 0, 7]),
    Chunk::Left(&[4]),
    Chunk::Clear,
    Chunk::Left(&[]),
];

fn take(rt: &impl Abort, place: usize, stream: &mut Stream, wanted: &[u8]) {
    let size = wanted.len();
    assert!(rt; size <= stream.left().len(), "chunk {place}");
    same(rt, place, &stream.first(size), &wanted);
    stream.take(size);
}

fn are_left(rt: &impl Abort, place: usize, stream: &Stream, wanted: &[u8]) {
    same(rt, place, &stream.left(), &wanted);
    same(rt, place, &stream.kept(), &wanted.len());
}

fn play(rt: &impl Abort, place: usize, stream: &mut Stream, chunk: &Chunk) -> Result<(), Fail> {
    match chunk {
        Chunk::Feed(bytes) => stream.feed(bytes)?,
        Chunk::Beginning(front) => same(rt, place, &stream.front(), front),
        Chunk::Take(bytes) => take(rt, place, stream, bytes),
        Chunk::Left(bytes) => are_left(rt, place, stream, bytes),
        Chunk::Clear => stream.clear(),
    }
    Ok(())
}

#[test]
fn message_in_two_chunks(rt: HostRuntime) -> Result<(), Fail> {
    let mut stream = Stream::new(rt.alloc());
    for (place, chunk) in CHUNKS.iter().enumerate() {
        play(&rt, place, &mut stream, chunk)?;
    }
    splits_once();
    Ok(())
}

/// What comes next of a session: its kind, its transaction id and its size.
type Seen = (&'static str, u32, usize);

const NOTHING: Seen = ("nothing", 0, 0);

const HELLO: Seen = ("HELLO", 0, 8);

const ECHO_REQUEST: Seen = ("ECHO_REQUEST", 2, 9);

/// What is done to a session, and what it then gives.
enum Step {
    Connect,
    Feed(&'static [u8]),
    Next(Seen),
    /// The bytes in front.
    First(&'static [u8]),
    Taken,
    Phase(Phase),
    Close,
}

const STEPS: &[Step] = &[
    Step::Connect,
    Step::Feed(&[4, 0, 0, 8, 0, 0, 0, 1, 4, 2, 0, 9, 0, 0, 0, 2, 0xab]),
    Step::Next(HELLO),
    Step::Taken,
    Step::Phase(Phase::Open),
    Step::Next(ECHO_REQUEST),
    Step::First(&[4, 2, 0, 9, 0, 0, 0, 2, 0xab]),
    Step::Next(ECHO_REQUEST),
    Step::Taken,
    Step::Next(NOTHING),
    Step::Close,
    Step::Phase(Phase::Disconnected),
];

fn next_of(session: &Session) -> Result<Seen, Fail> {
    let next = session.next(Role::Equal)?;
    Ok(match &next {
        Next::Nothing => NOTHING,
        Next::Opened { size } => ("HELLO", 0, *size),
        Next::Read {
            xid,
            size,
            message: Message::EchoRequest(_),
        } => ("ECHO_REQUEST", *xid, *size),
        _ => ("another message", 0, 0),
    })
}

fn is_first(rt: &impl Abort, place: usize, session: &Session, bytes: &[u8]) {
    let size = bytes.len();
    assert!(rt; size <= session.pending().len(), "step {place}");
    same(rt, place, &session.first(size), &bytes);
}

fn go_on(rt: &impl Abort, place: usize, session: &mut Session, step: &Step) -> Result<(), Fail> {
    match step {
        Step::Connect => session.connect(),
        Step::Feed(bytes) => session.feed(bytes)?,
        Step::Next(wanted) => same(rt, place, &next_of(session)?, wanted),
        Step::First(bytes) => is_first(rt, place, session, bytes),
        Step::Taken => session.taken(),
        Step::Phase(phase) => same(rt, place, &session.phase(), phase),
        Step::Close => session.close(),
    }
    Ok(())
}

#[test]
fn greeting_and_echo(rt: HostRuntime) -> Result<(), Fail> {
    let mut session = Session::new(rt.alloc());
    for (place, step) in STEPS.iter().enumerate() {
        go_on(&rt, place, &mut session, step)?;
    }
    Ok(())
}
