//! Times one thing by the clock: `of_bench NAME` prints the time of a call and a checksum of the answers, and without a name nothing.
#![tactic(auto)]

mod acting;
mod asking;
mod caching;
mod classifying;
mod clock;
mod comparing;
mod flows;
mod forwarding;
mod frames;
mod grouping;
mod headers;
mod holding;
mod lookups;
mod matching;
mod rewriting;
mod switching;
mod texts;
mod tracing;

use std::{env, io};

fn main(rt: HostRuntime) -> io::Result<()> {
    let mut arguments = env::args(&rt)?;
    let _program = arguments.next();
    match arguments.next() {
        None => Ok(()),
        Some(name) => run(&rt, &name),
    }
}

fn run(rt: &HostRuntime, name: &str) -> io::Result<()> {
    match name {
        "key" => headers::time_key(rt),
        "matches" => matching::time_matches(rt),
        "read_match" => matching::time_read_match(rt),
        "classify" => classifying::time_classify(rt),
        "cached" => caching::time_cached(rt),
        "compare" => comparing::compare(rt),
        "flow_mod" => switching::time_flow_mod(rt),
        "barrier" => asking::time_barrier(rt),
        "features" => asking::time_features(rt),
        "flow_stats" => asking::time_flow_stats(rt),
        "flow_mod_stream" => asking::time_flow_mod_stream(rt),
        "moment" => switching::time_moment(rt),
        "set" => rewriting::time_set(rt),
        "push_pop" => rewriting::time_push_pop(rt),
        "read_actions" => acting::time_read_actions(rt),
        "frame" => forwarding::time_frame(rt),
        "frame_full" => forwarding::time_frame_full(rt),
        "pipeline" => forwarding::time_pipeline(rt),
        "held" => holding::time_held(rt),
        "flood" => grouping::time_flood(rt),
        "group_mod" => grouping::time_group_mod(rt),
        "group_chain" => grouping::time_group_chain(rt),
        "trace" => tracing::time_trace(rt),
        "assemble" => texts::time_assemble(rt),
        "disassemble" => texts::time_disassemble(rt),
        _ => println!(rt; "of_bench: no such name; bench/README.md lists them"),
    }
}
