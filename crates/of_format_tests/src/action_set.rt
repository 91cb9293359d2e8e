use crate::checks::same;
use of_action_set::ActionSet;
use of_actions::Action;
use of_layers::Field;
use std::process::Abort;

const OUTPUT: Action = Action::Output {
    port: 2,
    max_len: 0,
};

const VID: Action = Action::SetField {
    field: Field::VlanVid,
    value: 0x1005,
};

const PCP: Action = Action::SetField {
    field: Field::VlanPcp,
    value: 3,
};

fn are_in_order(rt: &impl Abort, set: &ActionSet, wanted: &[Action]) {
    same(rt, "the order of running", &set.in_order(), &wanted);
}

#[test]
#[tactic(auto, unfolding(of_actions::specs::Supported::is_supported, of_layers::specs::Fields::row_of))]
fn tag_is_pushed_before_it_is_set_and_sent(rt: HostRuntime) {
    let mut set = ActionSet::new();
    set.write(&[OUTPUT, VID, Action::PushVlan(0x8100)]);
    are_in_order(&rt, &set, &[Action::PushVlan(0x8100), VID, OUTPUT]);
}

#[test]
#[tactic(auto, unfolding(of_actions::specs::Supported::is_supported, of_layers::specs::Fields::row_of))]
fn last_written_action_of_a_kind_stays(rt: HostRuntime) {
    let mut set = ActionSet::new();
    set.write(&[PCP, VID, Action::PushVlan(0x8100)]);
    let other = Action::SetField {
        field: Field::VlanVid,
        value: 0x1007,
    };
    set.write(&[other, Action::PushVlan(0x88a8)]);
    are_in_order(&rt, &set, &[Action::PushVlan(0x88a8), other, PCP]);
}

#[test]
#[tactic(auto, unfolding(of_actions::specs::Supported::is_supported, of_layers::specs::Fields::row_of))]
fn kinds_run_in_their_order(rt: HostRuntime) {
    let mut set = ActionSet::new();
    set.write(&[Action::SetNwTtl(9), Action::DecNwTtl]);
    set.write(&[Action::PushVlan(0x8100), Action::PopVlan]);
    let order = [
        Action::PopVlan,
        Action::PushVlan(0x8100),
        Action::DecNwTtl,
        Action::SetNwTtl(9),
    ];
    are_in_order(&rt, &set, &order);
}

#[test]
#[tactic(auto, unfolding(of_actions::specs::Supported::is_supported, of_layers::specs::Fields::row_of))]
fn output_is_left_out_beside_group(rt: HostRuntime) {
    let mut set = ActionSet::new();
    set.write(&[OUTPUT, Action::Group(7)]);
    are_in_order(&rt, &set, &[Action::Group(7)]);
    set.clear();
    are_in_order(&rt, &set, &[]);
}
