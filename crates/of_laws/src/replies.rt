//! Laws of the grammar of replies. That numbers fit their bytes is what the types of a writer's arguments say, and so are the
//! others' premises: that a match is in its normal form, and that instructions and buckets are such as their lists hold.
ghost use Rattle.std.specs.Prelude.{◌≡◌, ◌≤◌, ◌<◌, ◌*◌, ◌^◌, ◌++◌, ℕ, Bool, false, List, [], length, map, Option};
ghost use Rattle.std.specs.List.{All};
ghost use Rattle.of_groups.specs.declared.group.Group.{Group};
ghost use Rattle.of_ports.specs.declared.port.Port.{Port};
ghost use Rattle.of_table.specs.{declared.selection.Selector.Selector, Tables.Tables};
ghost use Rattle.of_statistics.specs.Flows.{aggregate_bytes, asked, flow_bytes, entries_with_tables, table_bytes};
ghost use Rattle.of_statistics.specs.{Descriptions.description_bytes, Groups.asked_groups, Groups.group_bytes, Groups.group_description_bytes, Groups.group_features_bytes};
ghost use Rattle.of_statistics.specs.Ports.{asked_ports, described, port_description_bytes, port_stats_bytes};
ghost use Rattle.of_laws.specs.Replied.{Reply, EncodeAll, EncodesReply, aggregate, described_groups, described_ports, description, flows, group_features, groups, ports, reply_cells, tables};
ghost use Rattle.of_laws.specs.Shown.{aggregate_shown, flow_shown, group_described, group_shown, IsDescribable, IsShownFlow, IsShownGroup, port_shown, tables_shown};
ghost use Rattle.of_laws.specs.{Cells.FitsCells, Grammar.Encodes, Told.port_cells, Told.EncodesSwitchMessage, Told.Told, AnyMessage.AreAlike, AnyMessage.EncodesAny};
ghost use Rattle.of_laws.specs.ReplyRows.{port_stats_cells, table_cells};
ghost use Rattle.of_messages.specs.declared.message.Message.{Message};

/// No bytes encode two replies, or have two transaction ids, or say both that more follow and that none do.
pub fn one_reply()
    ensures { (x y : ℕ) (more again : Bool) (r s : Reply) (bytes : List ℕ) → EncodesReply x more r bytes → EncodesReply y again s bytes →
        (x ≡ y) × (more ≡ again) × (r ≡ s) }
{}

/// No reply begins another one.
pub fn no_reply_begins_another()
    ensures { (x y : ℕ) (more again : Bool) (r s : Reply) (bytes rest : List ℕ) → EncodesReply x more r bytes → EncodesReply y again s (bytes ++ rest) →
        rest ≡ [] }
{}

/// No message begins another one, whichever side sends the two: the header's length is that of all bytes (OpenFlow 1.3.5, 7.1).
/// What both sides encode has one transaction id, and is a HELLO, an ERROR or an ECHO_REPLY; no reply is anything else.
pub fn no_message_begins_another()
    ensures begins { (x y : ℕ) (bytes rest : List ℕ) → EncodesAny x bytes → EncodesAny y (bytes ++ rest) → rest ≡ [] }
    ensures xid { (x y : ℕ) (bytes : List ℕ) → EncodesAny x bytes → EncodesAny y bytes → x ≡ y }
    ensures both_sides { (x y : ℕ) (m : Message) (t : Told) (bytes : List ℕ) → Encodes x m bytes → EncodesSwitchMessage y t bytes → AreAlike m t }
    ensures reply_or_request { (x y : ℕ) (m : Message) (more : Bool) (r : Reply) (bytes : List ℕ) → Encodes x m bytes → ¬ EncodesReply y more r bytes }
    ensures reply_or_told { (x y : ℕ) (t : Told) (more : Bool) (r : Reply) (bytes : List ℕ) → EncodesSwitchMessage x t bytes → ¬ EncodesReply y more r bytes }
{}

/// What each writer of of_statistics writes is encoded: DESC, FLOW, AGGREGATE, TABLE, PORT_STATS, GROUP, GROUP_DESC,
/// GROUP_FEATURES and PORT_DESC (OpenFlow 1.3.5, 7.3.5). Those of FLOW, GROUP and GROUP_DESC, which may be several, encode all
/// rows, in their order.
pub fn written_replies_are_encoded()
    ensures description { (xid : ℕ) → xid < 256 ^ 4 → EncodesReply xid false description (description_bytes xid) }
    ensures flow { (xid : ℕ) (which : Selector) (ts : Tables) → xid < 256 ^ 4 → All (IsShownFlow ts.latest) (entries_with_tables which ts) →
        EncodeAll xid (λ part. flows (map (flow_shown ts.latest) part)) (entries_with_tables which ts) (flow_bytes xid which ts) }
    ensures aggregate { (xid : ℕ) (which : Selector) (ts : Tables) → xid < 256 ^ 4 → FitsCells (reply_cells (aggregate (aggregate_shown (asked which ts)))) →
        EncodesReply xid false (aggregate (aggregate_shown (asked which ts))) (aggregate_bytes xid which ts) }
    ensures table { (xid : ℕ) (ts : Tables) → xid < 256 ^ 4 → length ts.tables ≤ 16 → All (λ s. FitsCells (table_cells s)) (tables_shown ts) →
        EncodesReply xid false (tables (tables_shown ts)) (table_bytes xid ts) }
    ensures port_stats { (xid now : ℕ) (which : Option ℕ) (all : List Port) → xid < 256 ^ 4 → length all ≤ 64 →
        All (λ p. FitsCells (port_stats_cells (port_shown now p))) (asked_ports which all) →
        EncodesReply xid false (ports (map (port_shown now) (asked_ports which all))) (port_stats_bytes xid now which all) }
    ensures group { (xid : ℕ) (which : Option ℕ) (all : List Group) (ts : Tables) → xid < 256 ^ 4 →
        All (λ g. IsShownGroup (group_shown all ts g)) (asked_groups which all) →
        EncodeAll xid (λ part. groups (map (group_shown all ts) part)) (asked_groups which all) (group_bytes xid which all ts) }
    ensures group_description { (xid : ℕ) (all : List Group) → xid < 256 ^ 4 → All IsDescribable all →
        EncodeAll xid (λ part. described_groups (map group_described part)) all (group_description_bytes xid all) }
    ensures group_features { (xid : ℕ) → xid < 256 ^ 4 → EncodesReply xid false group_features (group_features_bytes xid) }
    ensures port_description { (xid : ℕ) (all : List Port) → xid < 256 ^ 4 → length all ≤ 64 → All (λ p. FitsCells (port_cells (described p))) all →
        EncodesReply xid false (described_ports (map described all)) (port_description_bytes xid all) }
{}
