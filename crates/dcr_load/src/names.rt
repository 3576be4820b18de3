ghost use Rattle.std.specs.Prelude.{◌≡◌, true, IfOk};
ghost use Rattle.dcr_graph.specs.Names.{is_name};
ghost use Rattle.dcr_load.specs.LoadGraph.{atom_name};
ghost use Rattle.dcr_load.specs.LoadCover.{site_name};

use dcr_graph::{Name, NameStop};
use dcr_set::NoMemory;
use std::alloc::Global;

// The name of an atom.
pub(crate) fn atom_name(alloc: Global, i: u16) -> Result<Name, NoMemory>
    ensures { IfOk result (λ name. name ≡ atom_name i) }
{
    let text = format!(in alloc; "e{i}")?;
    name(alloc, text.as_str())
}

// The name of a site.
pub(crate) fn site_name(alloc: Global, i: u16) -> Result<Name, NoMemory>
    ensures { IfOk result (λ name. name ≡ site_name i) }
{
    let text = format!(in alloc; "s{i}")?;
    name(alloc, text.as_str())
}

// The name that a text is.
fn name(alloc: Global, text: &str) -> Result<Name, NoMemory>
    requires { is_name text.now ≡ true }
    ensures { IfOk result (λ name. name ≡ text.now) }
{
    match Name::read(alloc, text) {
        Ok(name) => Ok(name),
        Err(NameStop::NoMemory) => Err(NoMemory),
        Err(NameStop::NotName) => unreachable!(),
    }
}
