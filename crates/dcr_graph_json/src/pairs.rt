ghost use Rattle.std.specs.Prelude.{◌≡◌, ◌<◌, ◌^◌, length, map, IfOk};
ghost use Rattle.serde_json.specs.View.{view};
ghost use Rattle.dcr_format.specs.Facts.{Judges};
ghost use Rattle.dcr_graph_json.specs.Build.{ends_fact, pair_in, pairs_in};

use crate::relation;
use dcr_format::CaseStop;
use dcr_graph::{Kind, NameIndex};
use serde_json::Value;
use std::alloc::Global;

// The relations between the nodes, or the first of which an end is no node's name.
pub(crate) fn read_pairs(
    alloc: Global,
    names: &NameIndex<'_>,
    relations: &[Value],
) -> Result<Vec<(Kind, u16, u16)>, CaseStop>
    requires { length relations.now < 2 ^ 32 }
    ensures fact { Judges (ends_fact names.now (map view relations.now)) result }
    ensures pairs { IfOk result (λ pairs. pairs.items ≡ pairs_in names.now (map view relations.now)) }
{
    let mut pairs = Vec::with_capacity(alloc, relations.len())?;
    for i in 0..relations.len() {
        let Some(pair) = read_pair(names, &relations[i]) else {
            return Err(CaseStop::RelationEnd { i: i as u32 });
        };
        pairs.push(pair)?;
    }
    Ok(pairs)
}

// The kind and the two nodes of a relation.
fn read_pair(names: &NameIndex<'_>, relation: &Value) -> Option<(Kind, u16, u16)>
    ensures { result ≡ pair_in names.now (view relation.now) }
{
    let relation = relation::read(relation)?;
    let source = names.find(relation.source.as_bytes())?;
    let target = names.find(relation.target.as_bytes())?;
    Some((relation.kind, source, target))
}
