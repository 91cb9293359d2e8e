//! Laws of configurations and their messages.
ghost use Rattle.std.specs.Prelude.{◌≡◌, ◌++◌, ◌∷◌, ◌+◌, ◌≤◌, ◌^◌, [], ℕ, List, true, false, Ok, Err, length, take};
ghost use Rattle.of_text.specs.Configs.{Configuration, IsConfig, all_flows};
ghost use Rattle.of_wire.specs.declared.code.Code.{Code};
ghost use Rattle.of_messages.specs.{Heads.xid_of, Written.error_bytes};
ghost use Rattle.of_datapath.specs.declared.effect.Effect.TheVariants.{Answer};
ghost use Rattle.of_switch.specs.{State.State, Steps.gives, Runs.chunk_in, Loading.config_of};
ghost use Rattle.of_laws.specs.declared.fault.ConfigFault.TheVariants.{NoMemory, NotACommand, Refused};
ghost use Rattle.of_laws.specs.{Outcomes.ComesTo, Outcomes.TakesMessages, Built.config_said, Sending.config_by, Sending.greeted, Sending.is_command};
ghost use Rattle.of_build.specs.Listing.{flow_adds, group_adds, messages_of};

/// The configuration that the messages of a configuration give is that configuration.
pub fn messages_give_it_back()
    ensures { (c : Configuration) → IsConfig c → config_by (messages_of c) ≡ Ok c }
{}

/// So is the one that they are beside each other (`build`), where its groups are by number, whatever their transaction ids begin at.
pub fn messages_by_number_build_it()
    ensures { (c : Configuration) (groups flows : ℕ) → IsConfig c → flows + length (all_flows c.tables) ≤ 2 ^ 32 →
        config_said (group_adds groups c.groups ++ flow_adds flows (all_flows c.tables)) ≡ Ok c }
{}

/// Messages are sent to one switch, up to the first that is no command or that it answers by an ERROR.
///
/// Where it takes all, the configuration is the switch's. Of one that is refused, the ERROR with its first 64 bytes is all that
/// the switch gives, and it is as before. One that is no command is not sent.
pub fn each_is_taken_or_the_first_is_named()
    ensures given { (messages : List (List ℕ)) (c : Configuration) → config_by messages ≡ Ok c →
        (s : State) × TakesMessages messages greeted s × (config_of s ≡ c) }
    ensures refused { (messages : List (List ℕ)) (place : ℕ) (code : Code) → config_by messages ≡ Err (Refused place code)
        → (m : List ℕ) × (s : State) × ComesTo messages place m s × (is_command m ≡ true) ×
        (chunk_in m s ≡ gives (Answer (error_bytes (xid_of m) code (take 64 m)) ∷ []) s) }
    ensures no_command { (messages : List (List ℕ)) (place : ℕ) → config_by messages ≡ Err (NotACommand place) →
        (m : List ℕ) × (s : State) × ComesTo messages place m s × (is_command m ≡ false) }
    ensures memory { (messages : List (List ℕ)) → config_by messages ≡ Err NoMemory → ⊥ }
{}
