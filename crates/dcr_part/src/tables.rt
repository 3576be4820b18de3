// The local relations, read from the JSON value of a part as tables of pairs.
ghost use Rattle.std.specs.Prelude.{◌≡◌, ℕ, ◌<◌, ◌≤◌, ◌&&◌, ◌||◌, ◌==◌, List, Bool, Some, length, map, vec_len, IfOk, IfSome};
ghost use Rattle.std.specs.List.{All};
ghost use Rattle.serde_json.specs.Data.{array, no_items, item};
ghost use Rattle.serde_json.specs.View.{view};
ghost use Rattle.dcr_set.specs.EventSet.{has, numbers};
ghost use Rattle.dcr_set.specs.declared.id.TheConstants.{MAX_ATOMS};
ghost use Rattle.dcr_graph.specs.Rows.{leads};
ghost use Rattle.dcr_graph.specs.Rules.{kind_number, Rules};
ghost use Rattle.dcr_part.specs.PartText.{number_value, set_value, sources, row_value, rows_value, relations_value, part_value};
ghost use Rattle.dcr_part.specs.Read.{AreTablesOf, IsFound, IsTableOf};
ghost use Rattle.dcr_part.specs.Told.{Told};

use crate::numbers::{read_number, read_set};
use dcr_format::{elements, member};
use dcr_graph::{Kind, Table};
use dcr_graph_json::kind_word;
use dcr_set::{EventId, EventSet, NoMemory};
use serde_json::Value;
use std::alloc::Global;

/// The table of each kind of a part, in the order of the kinds, between so many atoms.
pub(crate) fn read_tables(
    alloc: Global,
    value: &Value,
    atoms: u16,
) -> Result<Option<Vec<Table>>, NoMemory>
    requires { atoms ≤ MAX_ATOMS }
    ensures six { IfOk result (λ found. IfSome found (λ tables. vec_len tables ≡ 6)) }
    ensures rows { IfOk result (λ found. IfSome found (λ tables. All (λ table. length table ≡ atoms) tables.items)) }
    ensures read { (P : Told) → P.rules.atoms ≡ atoms → view value.now ≡ part_value P
        → IfOk result (λ found. IsFound found (λ tables. AreTablesOf P.rules tables.items)) }
{
    let Some(relations) = member(value, "relations") else {
        return Ok(None);
    };
    tables_of(alloc, relations, atoms)
}

// The same of the value of its relations.
fn tables_of(alloc: Global, value: &Value, atoms: u16) -> Result<Option<Vec<Table>>, NoMemory>
    requires { atoms ≤ MAX_ATOMS }
    ensures six { IfOk result (λ found. IfSome found (λ tables. vec_len tables ≡ 6)) }
    ensures rows { IfOk result (λ found. IfSome found (λ tables. All (λ table. length table ≡ atoms) tables.items)) }
    ensures read { (R : Rules) → R.atoms ≡ atoms → view value.now ≡ relations_value R
        → IfOk result (λ found. IsFound found (λ tables. AreTablesOf R tables.items)) }
{
    let mut tables = Vec::with_capacity(alloc, 6)?;
    for number in 0..6u16 {
        let Some(table) = member_table(alloc, value, kind_of(number), atoms)? else {
            return Ok(None);
        };
        tables.push(table)?;
    }
    Ok(Some(tables))
}

// The kind with this number.
fn kind_of(number: u16) -> Kind
    requires { number < 6 }
    ensures { kind_number result ≡ number }
{
    match number {
        0 => Kind::Condition,
        1 => Kind::Response,
        2 => Kind::Milestone,
        3 => Kind::Include,
        4 => Kind::Exclude,
        _ => Kind::Cancel,
    }
}

// The table of one kind.
fn member_table(
    alloc: Global,
    value: &Value,
    kind: Kind,
    atoms: u16,
) -> Result<Option<Table>, NoMemory>
    requires { atoms ≤ MAX_ATOMS }
    ensures rows { IfOk result (λ found. IfSome found (λ table. length table ≡ atoms)) }
    ensures read { (R : Rules) → R.atoms ≡ atoms → view value.now ≡ relations_value R
        → IfOk result (λ found. IsFound found (IsTableOf R.atoms (R.related kind))) }
{
    let Some(rows) = member(value, kind_word(kind)) else {
        return Ok(None);
    };
    read_table(alloc, rows, atoms)
}

// The table whose pairs a value tells.
fn read_table(alloc: Global, value: &Value, atoms: u16) -> Result<Option<Table>, NoMemory>
    requires { atoms ≤ MAX_ATOMS }
    ensures rows { IfOk result (λ found. IfSome found (λ table. length table ≡ atoms)) }
    ensures read { (r : ℕ → ℕ → Bool) → view value.now ≡ rows_value atoms r → IfOk result (λ found. IsFound found (IsTableOf atoms r)) }
{
    let Some(rows) = elements(value) else {
        return Ok(None);
    };
    table_of(alloc, rows, atoms)
}

// The table whose pairs these rows tell.
fn table_of(alloc: Global, rows: &[Value], atoms: u16) -> Result<Option<Table>, NoMemory>
    requires { atoms ≤ MAX_ATOMS }
    ensures rows { IfOk result (λ found. IfSome found (λ table. length table ≡ atoms)) }
    ensures read { (r : ℕ → ℕ → Bool) → map view rows.now ≡ map (row_value atoms r) (numbers (sources atoms r))
        → IfOk result (λ found. IsFound found (IsTableOf atoms r)) }
{
    let mut table = Table::new(alloc, atoms)?;
    for row in rows {
        let Some((a, targets)) = read_row(row, atoms) else {
            return Ok(None);
        };
        add_targets(&mut table, a, &targets);
    }
    Ok(Some(table))
}

// A source with its targets.
fn read_row(value: &Value, atoms: u16) -> Option<(EventId, EventSet)>
    requires { atoms ≤ MAX_ATOMS }
    ensures source { IfSome result (λ row. row.0 < atoms) }
    ensures targets { IfSome result (λ row. length row.1 ≡ atoms) }
    ensures read { (a : ℕ) (s : List Bool) → a < atoms → length s ≡ atoms → view value.now ≡ array (item (number_value a) (item (set_value s) no_items))
        → result ≡ Some (a, s) }
{
    let [source, targets] = elements(value)? else {
        return None;
    };
    let a = read_number(source, atoms)?;
    let set = read_set(targets, atoms)?;
    Some((EventId(a), set))
}

// Adds the pairs of an atom and its targets.
fn add_targets(table: &mut Table, a: EventId, targets: &EventSet)
    requires source { a < length table.old }
    requires targets { length targets.now ≡ length table.old }
    ensures atoms { length table.new ≡ length table.old }
    ensures pairs { (x y : ℕ) → leads table.new x y ≡ (leads table.old x y || ((a == x) && has targets.now y)) }
{
    for b in targets.iter() {
        table.add(a, b);
    }
}
