ghost use Rattle.std.specs.Prelude.{◌≡◌, [], ◌∷◌, length};
ghost use Rattle.dcr_turn.specs.Records.{knowing, first_seen};
ghost use Rattle.dcr_turn.specs.declared.record.Holder.TheVariants.{Site};

use crate::TurnName;
use crate::records::Records;
use dcr_set::SiteId;
use std::marker::Model;

/// What a site has seen of the journal's list. There is one for each site of a turn. Contracts see the number of the
/// site and the entries seen, a beginning of the list.
#[derive(Drop)]
pub struct Front<N: TurnName> {
    site: SiteId,
    seen: u32,
    records: Records<N>,
}

impl<N: TurnName> Model for Front<N> {
    ghost use Rattle.dcr_turn.specs.FrontModel.{front_of, IsFront};
    ghost use Rattle.dcr_turn.specs.FrontValue.{FrontValue};

    ghost Value = { FrontValue };

    ghost view = { front_of };

    ghost invariant = { IsFront };
}

impl<N: TurnName> Front<N> {
    /// Of the site's record, whose list has this length.
    pub(crate) fn new(site: SiteId, seen: u32, records: Records<N>) -> Front<N>
        requires records { records ≡ knowing (first_seen records) (Site site) ∷ [] }
        requires seen { seen ≡ length (first_seen records) }
        ensures site { result.site ≡ site }
        ensures front { result.front ≡ first_seen records }
    {
        Front {
            site,
            seen,
            records,
        }
    }

    /// The site.
    pub fn site(&self) -> SiteId
        ensures { result ≡ self.now.site }
    {
        self.site
    }

    /// How many entries were seen.
    pub fn seen(&self) -> u32
        ensures { result ≡ length self.now.front }
    {
        self.seen
    }

    /// Its record.
    pub(crate) fn into_records(self) -> Records<N>
        ensures { result ≡ knowing self.front (Site self.site) ∷ [] }
    {
        let Front {
            site: _,
            seen: _,
            records,
        } = self;
        records
    }
}
