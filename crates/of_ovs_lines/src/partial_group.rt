//! The meaning of the words of a line for a group.
ghost use Rattle.std.specs.Prelude.{◌≡◌, ◌++◌, ◌∷◌, IfOk, IfErr, OnOk, Ok, Err, map, false, [], ◌<◌, ◌^◌};
ghost use Rattle.std.specs.List.{AllByRecursion, list_all};
ghost use Rattle.of_ovs_lines.specs.PartialGroups.{with_new_bucket, bucket_fits as bucket_fits_so, closed_buckets, first_action, finished_group as group_in, group_or_refused, is_other_command as is_other_command_name, kind_in as kind_of, names_actions as names_actions_so, no_group, with_bucket_word as bucket_with_word, with_first_word, with_group_head, with_group_word, with_bucket_action, with_word_of_bucket};
ghost use Rattle.of_ovs_lines.specs.PartialGroupViews.{view_partial_group};
ghost use Rattle.of_text.specs.{Groups.group_rows, Rows.Fits, Views.view_bucket, Views.view_group};
ghost use Rattle.of_ovs_words.specs.Stops.{IfRefused, Stops};

use crate::finish::{actions_fit, take_actions};
use crate::word_fault::WordFault;
use of_actions::Action;
use of_groups::GroupKind;
use of_ovs_words::{Stop, Why, name_of, numbered, port_in, push_action, value_of};
use of_text::{BucketHead, BucketText, GroupHead, GroupText, is};
use of_wire::limits::{OFPG_ANY, OFPP_ANY};
use std::alloc::{AllocError, Global};

/// What the words of a line say of a group, so far.
#[derive(Drop)]
pub struct PartialGroup {
    pub id: Option<u32>,
    pub kind: Option<GroupKind>,
    /// Whether a bucket is begun; then the next two say what there is of it.
    pub begun: bool,
    pub head: BucketHead,
    pub actions: Vec<Action>,
    /// Whether its only action is `drop`.
    pub dropped: bool,
    /// Those before it.
    pub buckets: Vec<BucketText>,
    pub faults: Vec<WordFault>,
}

// A bucket that watches nothing.
const NEW_BUCKET: BucketHead = BucketHead {
    weight: 0,
    watch_port: OFPP_ANY,
    watch_group: OFPG_ANY,
};

/// Whether it is a command of a file for add-groups, other than `add`.
pub fn is_other_command(name: &[u8]) -> bool
    ensures { result ≡ is_other_command_name name.now }
{
    is(name, b"add_or_mod")
        || is(name, b"modify")
        || is(name, b"delete")
        || is(name, b"insert_bucket")
        || is(name, b"insert_buckets")
        || is(name, b"remove_bucket")
        || is(name, b"remove_buckets")
}

fn names_actions(name: &[u8]) -> bool
    ensures { result ≡ names_actions_so name.now }
{
    is(name, b"actions") || is(name, b"action")
}

fn kind_in(value: &[u8]) -> Result<GroupKind, Why>
    ensures { result ≡ kind_of value.now }
{
    if is(value, b"all") {
        Ok(GroupKind::All)
    } else if is(value, b"indirect") {
        Ok(GroupKind::Indirect)
    } else if is(value, b"ff") {
        Ok(GroupKind::FastFailover)
    } else if is(value, b"fast_failover") {
        Ok(GroupKind::FastFailover)
    } else {
        Err(Why::Unknown)
    }
}

fn bucket_fits(bucket: &BucketText) -> bool
    ensures { result ≡ bucket_fits_so (view_bucket bucket.now) }
{
    let head = bucket.head;
    head.weight <= u16::MAX
        && head.watch_port <= u32::MAX
        && head.watch_group <= u32::MAX
        && actions_fit(&bucket.actions)
}

fn each_fits(buckets: &[BucketText]) -> bool
    ensures { result ≡ list_all (λ b. bucket_fits_so (view_bucket b)) buckets.now }
{
    buckets.iter().all(|bucket| bucket_fits(bucket))
}

#[tactic(auto, using(crate::proofs::SoundLemmas::mapped_tests))]
fn buckets_fit(buckets: &[BucketText]) -> bool
    ensures { result ≡ list_all bucket_fits_so (map view_bucket buckets.now) }
{
    each_fits(buckets)
}

// What the type of a number says of it.
fn known_id(id: u32)
    ensures { id < 2 ^ 32 }
{
    let _id = id;
}

impl PartialGroup {
    /// Nothing is said.
    pub fn blank(alloc: Global) -> PartialGroup
        ensures { view_partial_group result ≡ no_group }
    {
        PartialGroup {
            id: None,
            kind: None,
            begun: false,
            head: NEW_BUCKET,
            actions: Vec::new(alloc),
            dropped: false,
            buckets: Vec::new(alloc),
            faults: Vec::new(alloc),
        }
    }

    // The bucket that is begun goes to those before it.
    fn close(&mut self) -> Result<(), AllocError>
        ensures { OnOk result (view_partial_group self.new ≡ record (view_partial_group self.old)
            { begun = false; actions = []; buckets = closed_buckets (view_partial_group self.old) }) }
    {
        let actions = take_actions(&mut self.actions);
        if self.begun {
            self.buckets.push(BucketText {
                head: self.head,
                actions,
            })?;
        }
        self.begun = false;
        Ok(())
    }

    fn begin_bucket(&mut self) -> Result<(), AllocError>
        ensures { OnOk result (view_partial_group self.new ≡ with_new_bucket (view_partial_group self.old)) }
    {
        self.close()?;
        self.begun = true;
        self.dropped = false;
        self.head = NEW_BUCKET;
        Ok(())
    }

    fn add_action(&mut self, word: &[u8]) -> Result<(), Stop>
        ensures added { IfOk result (λ _. with_bucket_action (view_partial_group self.old) word.now ≡ Ok (view_partial_group self.new)) }
        ensures stopped { IfErr result (Stops (with_bucket_action (view_partial_group self.old) word.now)) }
        ensures same { IfErr result (IfRefused (view_partial_group self.new ≡ view_partial_group self.old)) }
    {
        self.dropped = push_action(&[], &[], self.dropped, &mut self.actions, word)?;
        Ok(())
    }

    fn add_first_action(&mut self, value: &[u8]) -> Result<(), Stop>
        ensures added { IfOk result (λ _. first_action (view_partial_group self.old) value.now ≡ Ok (view_partial_group self.new)) }
        ensures stopped { IfErr result (Stops (first_action (view_partial_group self.old) value.now)) }
        ensures same { IfErr result (IfRefused (view_partial_group self.new ≡ view_partial_group self.old)) }
    {
        if value.is_empty() {
            Ok(())
        } else {
            self.add_action(value)
        }
    }

    // A word of a bucket.
    #[tactic(auto, unfolding(crate::specs::PartialGroups::with_bucket_word))]
    fn add_bucket_word(&mut self, word: &[u8]) -> Result<(), Stop>
        ensures added { IfOk result (λ _. bucket_with_word (view_partial_group self.old) word.now ≡ Ok (view_partial_group self.new)) }
        ensures stopped { IfErr result (Stops (bucket_with_word (view_partial_group self.old) word.now)) }
        ensures same { IfErr result (IfRefused (view_partial_group self.new ≡ view_partial_group self.old)) }
    {
        let name = name_of(word);
        if is(name, b"weight") {
            self.head.weight = numbered(0x1_0000, value_of(word))? as u16;
            Ok(())
        } else if is(name, b"watch_port") {
            self.head.watch_port = port_in(Why::PortName, value_of(word))?;
            Ok(())
        } else if is(name, b"watch_group") {
            self.head.watch_group = numbered(0x1_0000_0000, value_of(word))? as u32;
            Ok(())
        } else if is(name, b"bucket_id") {
            Ok(())
        } else if names_actions(name) {
            self.add_first_action(value_of(word))
        } else {
            self.add_action(word)
        }
    }

    // A word that is refused.
    fn refuse(&mut self, alloc: Global, word: &[u8], why: Why) -> Result<(), AllocError>
        ensures { OnOk result (view_partial_group self.new ≡ record (view_partial_group self.old)
            { faults = (view_partial_group self.old).faults ++ record { word = word.now; why = why } ∷ [] }) }
    {
        let word = word.to_vec(alloc)?;
        self.faults.push(WordFault { word, why })?;
        Ok(())
    }

    fn add_word_of_bucket(&mut self, alloc: Global, word: &[u8]) -> Result<(), AllocError>
        ensures { OnOk result (view_partial_group self.new ≡ with_word_of_bucket (view_partial_group self.old) word.now) }
    {
        match self.add_bucket_word(word) {
            Ok(()) => Ok(()),
            Err(Stop::Refused(why)) => self.refuse(alloc, word, why),
            Err(Stop::NoMemory) => Err(AllocError),
        }
    }

    // The first word of a bucket stands behind `bucket=`.
    fn add_first_word(&mut self, alloc: Global, value: &[u8]) -> Result<(), AllocError>
        ensures { OnOk result (view_partial_group self.new ≡ with_first_word (view_partial_group self.old) value.now) }
    {
        if value.is_empty() {
            Ok(())
        } else {
            self.add_word_of_bucket(alloc, value)
        }
    }

    // A word before the buckets.
    #[tactic(auto, unfolding(crate::specs::PartialGroups::with_group_head))]
    fn add_head_word(&mut self, word: &[u8]) -> Result<(), Why>
        ensures added { IfOk result (λ _. with_group_head (view_partial_group self.old) word.now ≡ Ok (view_partial_group self.new)) }
        ensures stopped { IfErr result (λ why. with_group_head (view_partial_group self.old) word.now ≡ Err why) }
        ensures same { IfErr result (λ _. view_partial_group self.new ≡ view_partial_group self.old) }
    {
        let name = name_of(word);
        if is(name, b"group_id") {
            self.id = Some(numbered(0x1_0000_0000, value_of(word))? as u32);
            Ok(())
        } else if is(name, b"type") {
            self.kind = Some(kind_in(value_of(word))?);
            Ok(())
        } else if is(name, b"add") {
            Ok(())
        } else if is_other_command(name) {
            Err(Why::Command)
        } else {
            Err(Why::Unknown)
        }
    }

    fn add_other_word(&mut self, alloc: Global, word: &[u8]) -> Result<(), AllocError>
        ensures { OnOk result (view_partial_group self.new ≡
            group_or_refused (view_partial_group self.old) word.now (with_group_head (view_partial_group self.old) word.now)) }
    {
        match self.add_head_word(word) {
            Ok(()) => Ok(()),
            Err(why) => self.refuse(alloc, word, why),
        }
    }

    /// Adds what one more word says.
    #[tactic(auto, unfolding(crate::specs::PartialGroups::with_group_word))]
    pub fn add_word(&mut self, alloc: Global, word: &[u8]) -> Result<(), AllocError>
        ensures { OnOk result (view_partial_group self.new ≡ with_group_word (view_partial_group self.old) word.now) }
    {
        if is(name_of(word), b"bucket") {
            self.begin_bucket()?;
            self.add_first_word(alloc, value_of(word))
        } else if self.begun {
            self.add_word_of_bucket(alloc, word)
        } else {
            self.add_other_word(alloc, word)
        }
    }

    /// The group that its words say.
    #[tactic(auto, unfolding(crate::specs::PartialGroups::finished_group))]
    pub fn finish(self) -> Result<GroupText, Stop>
        ensures finished { IfOk result (λ group. group_in (view_partial_group self) ≡ Ok (view_group group)) }
        ensures fits { IfOk result (λ group. AllByRecursion Fits (group_rows (view_group group))) }
        ensures stopped { IfErr result (Stops (group_in (view_partial_group self))) }
    {
        let mut partial = self;
        partial.close()?;
        if !buckets_fit(&partial.buckets) {
            return Err(Stop::Refused(Why::Value));
        }
        match (partial.id, partial.kind) {
            (Some(id), Some(kind)) => {
                known_id(id);
                Ok(GroupText {
                    head: GroupHead { id, kind },
                    buckets: partial.buckets,
                })
            }
            _ => Err(Stop::Refused(Why::Missing)),
        }
    }
}
