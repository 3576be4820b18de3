ghost use Rattle.std.specs.Prelude.{◌≡◌, length};
ghost use Rattle.dcr_node.specs.Gathering.{nothing_gathered, waits_told};

use dcr_graph::SiteMark;
use dcr_set::EventId;
use dcr_wire::Told;

/// What a site told of those things that are gathered from all sites: its marks, and the first of its events for which it
/// waits, or that it waits for none. None where it has not told it.
#[derive(Drop)]
pub struct Gathered {
    pub marks: Option<SiteMark>,
    pub waits: Option<Option<EventId>>,
}

impl Gathered {
    ghost use Rattle.std.specs.Prelude.{◌≡◌};
    ghost use Rattle.dcr_node.specs.Gathering.{gathered_with, nothing_told};

    /// Nothing was told.
    pub(crate) fn nothing() -> Gathered
        ensures { result ≡ nothing_told }
    {
        Gathered {
            marks: None,
            waits: None,
        }
    }

    /// Takes in what the site told. Which events may be executed isn't gathered.
    pub(crate) fn take(&mut self, told: &Told)
        ensures { self.new ≡ gathered_with self.old told.now }
    {
        match told {
            Told::Marks(mark) => self.marks = Some(mark.copy()),
            Told::Can(_) => {}
            Told::Waits(waits) => self.waits = Some(*waits),
        }
    }
}

/// Forgets what all sites told.
pub(crate) fn forget(gathered: &mut Vec<Gathered>)
    ensures { gathered.new.items ≡ nothing_gathered (length gathered.old.items) }
{
    for place in 0..gathered.len() {
        gathered[place] = Gathered::nothing();
    }
}

/// The least event for which a site waits, or that none waits. None exactly where a site has not told.
pub(crate) fn waits_of_all(gathered: &[Gathered]) -> Option<Option<EventId>>
    ensures { result ≡ waits_told gathered.now }
{
    let mut first = None;
    for told in gathered {
        match &told.waits {
            None => return None,
            Some(waits) => first = EventId::lesser(first, *waits),
        }
    }
    Some(first)
}
