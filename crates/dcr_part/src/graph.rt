// A graph of the local relations alone.
ghost use Rattle.std.specs.Prelude.{◌≡◌, ◌≢◌, ◌≤◌, length, map, vec_len, None, IfOk, IfSome};
ghost use Rattle.std.specs.List.{All, range_with_len};
ghost use Rattle.dcr_set.specs.declared.id.TheConstants.{MAX_ATOMS};
ghost use Rattle.dcr_graph.specs.GraphValue.{rules_of};
ghost use Rattle.dcr_graph.specs.Pairs.{first_clash};
ghost use Rattle.dcr_part.specs.Read.{stand_in, table_rules};

use dcr_graph::{AtomNames, Graph, GraphStop, Label, Name, NameStop, Table};
use dcr_set::NoMemory;
use std::alloc::Global;

/// The graph that has these tables, whose atoms have names that stand for nothing. None exactly where a pair is both an include and
/// an exclude.
pub(crate) fn graph_of(
    alloc: Global,
    tables: Vec<Table>,
    atoms: u16,
) -> Result<Option<Graph>, NoMemory>
    requires most { atoms ≤ MAX_ATOMS }
    requires six { vec_len tables ≡ 6 }
    requires rows { All (λ table. length table ≡ atoms) tables.items }
    ensures rules { IfOk result (λ found. IfSome found (λ graph. rules_of graph ≡ table_rules atoms tables.items)) }
    ensures atoms { IfOk result (λ found. IfSome found (λ graph. length graph.names ≡ atoms)) }
    ensures unclashed { IfOk result (λ found. IfSome found (λ _. first_clash (table_rules atoms tables.items) ≡ None)) }
    ensures clash { IfOk result (λ found. found ≡ None → first_clash (table_rules atoms tables.items) ≢ None) }
{
    let stand_ins = stand_ins(alloc, atoms)?;
    let labels = labels_of(alloc, &stand_ins)?;
    let names = AtomNames::new(alloc, stand_ins)?;
    match Graph::of_tables(names, labels, tables) {
        Ok(graph) => Ok(Some(graph)),
        Err(GraphStop::Clash { .. }) => Ok(None),
        Err(GraphStop::NoMemory) => unreachable!(),
    }
}

// A name for each of so many atoms.
fn stand_ins(alloc: Global, atoms: u16) -> Result<Vec<Name>, NoMemory>
    ensures { IfOk result (λ names. names.items ≡ map stand_in (range_with_len 0 atoms)) }
{
    let mut names = Vec::with_capacity(alloc, usize::from(atoms))?;
    for number in 0..atoms {
        names.push(name_of(alloc, number)?)?;
    }
    Ok(names)
}

// The name that stands in for that of an atom.
fn name_of(alloc: Global, number: u16) -> Result<Name, NoMemory>
    ensures { IfOk result (λ name. name ≡ stand_in number) }
{
    let text = format!(in alloc; "e{number}")?;
    match Name::read(alloc, text.as_str()) {
        Ok(name) => Ok(name),
        Err(NameStop::NoMemory) => Err(NoMemory),
        Err(NameStop::NotName) => unreachable!(),
    }
}

// A label for each name.
fn labels_of(alloc: Global, names: &[Name]) -> Result<Vec<Label>, NoMemory>
    ensures { IfOk result (λ labels. vec_len labels ≡ length names.now) }
{
    let mut labels = Vec::with_capacity(alloc, names.len())?;
    for name in names {
        labels.push(Label::of_name(alloc, name)?)?;
    }
    Ok(labels)
}
