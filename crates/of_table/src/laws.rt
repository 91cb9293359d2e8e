//! Laws of copies of flow tables.
ghost use Rattle.std.specs.Prelude.{◌≡◌, ◌<◌, ℕ, Bool, List, Some, length};
ghost use Rattle.of_actions.specs.declared.instruction.Instruction.{Instruction as AnInstruction};
ghost use Rattle.of_table.specs.Tables.{NumberedTables, table_at, with_table, modified_in, tables_of};
ghost use Rattle.of_table.specs.{declared.selection.Selector.Selector as ASelector, Table.Table, Entries.table_of, Copied.NumberedCopy, Copied.swapped_in, Copied.swapped_out};

/// A second swap undoes the first.
pub fn swaps_undo()
    ensures tables { (c : NumberedCopy) (n : NumberedTables) → swapped_in (swapped_out c n) (swapped_in c n) ≡ n }
    ensures copy { (c : NumberedCopy) (n : NumberedTables) → c.table < length n.tables → swapped_out (swapped_out c n) (swapped_in c n) ≡ c }
{}

/// However its table was changed since it was made, a copy that is swapped in leaves the tables as a reader saw them then: so after an ADD, and after a MODIFY of this table alone. Where nothing was changed, a reader sees no difference.
pub fn copies_restore()
    ensures changed { (c : NumberedCopy) (t : Table) (before after : NumberedTables) → table_of c.copy ≡ table_at c.table (tables_of before) →
        tables_of after ≡ with_table c.table t (tables_of before) → tables_of (swapped_in c after) ≡ tables_of before }
    ensures modified { (c : NumberedCopy) (w : ASelector) (instructions : List AnInstruction) (reset : Bool) (before after : NumberedTables) →
        w.table ≡ Some c.table → table_of c.copy ≡ table_at c.table (tables_of before) → tables_of after ≡ modified_in w instructions reset (tables_of before) →
        tables_of (swapped_in c after) ≡ tables_of before }
    ensures unchanged { (c : NumberedCopy) (n : NumberedTables) → table_of c.copy ≡ table_at c.table (tables_of n) → tables_of (swapped_in c n) ≡ tables_of n }
{}
