//! The frame that words say.
ghost use Rattle.std.specs.Prelude.{◌≡◌, IfOk, IfErr, Ok};
ghost use Rattle.of_ovs_words.specs.Words.{words_from};
ghost use Rattle.of_frame_words.specs.Frames.{IsReadable, checked as checked_so, frame_in_words, received_frame as received_so, with_ttl_word as with_ttl_word_so, with_ttl_words as with_ttl_words_so};
ghost use Rattle.of_frame_words.specs.{Refusals.FrameStops, Views.view_received};

use crate::said::{key_said, shape_of, tagging_of, why_missed};
use crate::why::{NoFrame, Why, refuse};
use crate::words::{add_words, is_ttl_word};
use of_frames::frame_of;
use of_headers::Known;
use of_ovs_words::{cut_word, numbered, text_for, value_of};
use of_oxm::{MatchField, first_difference};
use of_rewrite::Frame;
use std::alloc::{AllocError, Global};

/// A frame, and the port at which it is received.
#[derive(Drop)]
pub struct Received {
    pub port: u32,
    pub frame: Vec<u8>,
}

// The frame that settings say, received at this port unless they say another one.
fn frame_said(alloc: Global, port: u32, settings: &[MatchField]) -> Result<Received, AllocError>
    ensures received { IfOk result (λ r. view_received r ≡ received_so port settings.now) }
    ensures frame { IfOk result (λ r. IsReadable r.frame.items) }
{
    let key = key_said(port, settings);
    let numbers = &key.numbers;
    let shape = shape_of(numbers.eth_type, numbers.ip_proto);
    let frame = frame_of(alloc, shape, tagging_of(numbers.vlan_vid), &key)?;
    Ok(Received {
        port: numbers.in_port,
        frame,
    })
}

// The frame, if it has all that the settings say.
fn checked(alloc: Global, settings: &[MatchField], received: Received) -> Result<Received, NoFrame>
    requires { IsReadable received.frame.items }
    ensures frame { IfOk result (λ r. IsReadable r.frame.items) }
    ensures read { IfOk result (λ r. checked_so settings.now (view_received received) ≡ Ok (view_received r)) }
    ensures stopped { IfErr result (FrameStops (checked_so settings.now (view_received received))) }
{
    let key = Known::Nothing.key(&received.frame, received.port, 0);
    match first_difference(settings, &key) {
        None => Ok(received),
        Some(e) => Err(refuse(alloc, text_for(e.field), why_missed(settings, e))),
    }
}

// The frame with the TTL that a word says, if it is one for the TTL.
#[tactic(auto, using(crate::proofs::SaidLemmas::ttl_readable), unfolding(crate::specs::Frames::with_ttl_word))]
fn with_ttl_word(alloc: Global, received: Received, word: &[u8]) -> Result<Received, NoFrame>
    requires { IsReadable received.frame.items }
    ensures read { IfOk result (λ r. with_ttl_word_so word.now (view_received received) ≡ Ok (view_received r)) }
    ensures frame { IfOk result (λ r. IsReadable r.frame.items) }
    ensures stopped { IfErr result (FrameStops (with_ttl_word_so word.now (view_received received))) }
{
    if !is_ttl_word(word) {
        return Ok(received);
    }
    let ttl = match numbered(256, value_of(word)) {
        Ok(ttl) => ttl as u8,
        Err(why) => return Err(refuse(alloc, word, Why::Word(why))),
    };
    let mut frame = Frame::new(received.frame);
    if frame.ttl().is_none() {
        return Err(refuse(alloc, word, Why::Word(of_ovs_words::Why::NeedsIp)));
    }
    frame.set_ttl(ttl);
    let frame = frame.bytes().to_vec(alloc)?;
    Ok(Received {
        port: received.port,
        frame,
    })
}

// The frame with the TTL that words say.
fn with_ttl_words(alloc: Global, received: Received, text: &[u8]) -> Result<Received, NoFrame>
    requires { IsReadable received.frame.items }
    ensures read { IfOk result (λ r. with_ttl_words_so (words_from 0 text.now) (view_received received) ≡ Ok (view_received r)) }
    ensures stopped { IfErr result (FrameStops (with_ttl_words_so (words_from 0 text.now) (view_received received))) }
{
    let mut received = received;
    let mut rest = text;
    while !rest.is_empty() {
        let (word, after) = cut_word(rest);
        rest = after;
        match with_ttl_word(alloc, received, word) {
            Ok(next) => received = next,
            Err(stop) => return Err(stop),
        }
    }
    Ok(received)
}

/// The frame that words say, such as `in_port=1,tcp,nw_src=10.0.0.1,tp_dst=80`, received at the port that they say, or else at this one.
///
/// The words are those of a match (ovs-fields(7)), with values alone, and `nw_ttl=N` for TTL or hop limit, which are 64 without it. Fields that no word
/// says are 0, lengths and checksums are right. Refused is the first word without a meaning, then the first field that no frame with the other fields
/// has, and then a TTL.
pub fn read_frame(alloc: Global, port: u32, text: &[u8]) -> Result<Received, NoFrame>
    ensures read { IfOk result (λ r. frame_in_words port text.now ≡ Ok (view_received r)) }
    ensures stopped { IfErr result (FrameStops (frame_in_words port text.now)) }
{
    let mut settings = Vec::new(alloc);
    add_words(alloc, &mut settings, false, text)?;
    let received = frame_said(alloc, port, &settings)?;
    let received = checked(alloc, &settings, received)?;
    with_ttl_words(alloc, received, text)
}
