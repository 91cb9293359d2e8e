//! What a remark on a table means.
ghost use Rattle.std.specs.Prelude.{◌≡◌, ◌<◌, ◌↔◌, ℕ, true};
ghost use Rattle.of_text.specs.Configs.{Configuration, IsConfig};
ghost use Rattle.of_check.specs.Tables.{IsReached, is_reached};

/// The tables that are counted as reached are those to which some way leads from table 0, by GOTO_TABLEs of entries that exist
/// (OpenFlow 1.3.5, 5.1 and 5.9).
pub fn reached_by_ways()
    ensures { (c : Configuration) (table : ℕ) → IsConfig c → table < 16 → (is_reached c.tables table ≡ true) ↔ IsReached c.tables table }
{}
