ghost use Rattle.std.specs.Prelude.{◌≡◌, ◌<◌, ◌^◌};
ghost use Rattle.serde_json.specs.View.{items_view};
ghost use Rattle.dcr_format.specs.Size.{items_size};
ghost use Rattle.dcr_format.specs.declared.stop.Part.TheVariants as part;

use crate::cover::check_texts;
use crate::shape::try_sites;
use crate::stop::refused;
use dcr_format::{CaseStop, LimitKind, MAX_SITES, Part, elements};
use dcr_graph::Graph;
use dcr_nest::Nested;
use dcr_proj::Cover;
use serde_json::Value;
use std::alloc::Global;

/// The cover of a case file as it is written, of the right shape. It is lent from the JSON value. Contracts see the
/// list of its sites, each with its name and its owned texts, as `written`.
#[derive(Drop)]
pub struct CoverText<'v> {
    pub(crate) sites: &'v [Value],
    ghost few_sites: { items_size (items_view sites.now) < 2 ^ 32 },
}

impl<'v> CoverText<'v> {
    ghost use Rattle.std.specs.Prelude.{◌≡◌, ◌<◌, ◌^◌, length, None, option_map, All, IfOk};
    ghost use Rattle.std.specs.Option.{ForSome};
    ghost use Rattle.serde_json.specs.View.{view};
    ghost use Rattle.dcr_format.specs.Size.{size};
    ghost use Rattle.dcr_nest.specs.FlatRelation.{IsFlattening};
    ghost use Rattle.dcr_format.specs.Facts.{Judges, first, refusal};
    ghost use Rattle.dcr_cover_json.specs.Accepted.{IsAcceptedCover};
    ghost use Rattle.dcr_cover_json.specs.Build.{build_facts};
    ghost use Rattle.dcr_cover_json.specs.Limits.{limit_facts};
    ghost use Rattle.dcr_cover_json.specs.Seen.{written};
    ghost use Rattle.dcr_cover_json.specs.Shape.{shape_facts, sites_in};
    ghost use Rattle.dcr_cover_json.specs.Sites.{cover_in};

    /// The cover that is written in the member `cover`, where it is there, or the first part that is not of its shape:
    /// `cover`, then the sites, by the least index. It takes no memory.
    #[tactic(auto, unfolding(crate::specs::Shape::shape_facts))]
    pub fn shape(cover: Option<&'v Value>) -> Result<CoverText<'v>, CaseStop>
        requires { ForSome cover (λ v. size (view v.now) < 2 ^ 32) }
        ensures facts { refusal result ≡ first (shape_facts (option_map (λ v. view v.now) cover.entry)) }
        ensures written { IfOk result (λ text. written text ≡ sites_in (option_map (λ v. view v.now) cover.entry)) }
    {
        let Some(cover) = cover else {
            return Err(no_cover());
        };
        let Some(sites) = elements(cover) else {
            return Err(no_cover());
        };
        try_sites(sites)?;
        Ok(CoverText { sites })
    }

    /// Whether there are 1 to 64 sites: `Limit` with their number exactly where there are not. It takes no memory.
    #[tactic(auto, unfolding(crate::specs::Limits::limit_facts))]
    pub fn limits(&self) -> Result<(), CaseStop>
        ensures facts { refusal result ≡ first (limit_facts (written self.now)) }
    {
        let count = self.sites.len();
        if count < 1 || count > MAX_SITES {
            return Err(CaseStop::Limit {
                kind: LimitKind::Sites,
                count: count as u32,
            });
        }
        Ok(())
    }

    /// The cover that the sites mean for a nested graph and its flattening, or the first that is wrong: site by site the
    /// name and then the owned texts, and after all sites an atom that none owns, by its name. An owned text is the name
    /// of a node, and means the atoms at or below it. `NoMemory` may come in the place of any answer.
    pub fn build(&self, alloc: Global, nested: &Nested, graph: &Graph) -> Result<Cover, CaseStop>
        requires limits { first (limit_facts (written self.now)) ≡ None }
        requires flat { IsFlattening nested.now graph.now }
        ensures facts { Judges (first (build_facts nested.now (written self.now))) result }
        ensures cover { IfOk result (λ cover. cover ≡ cover_in nested.now (written self.now)) }
        ensures accepted { IfOk result (λ cover. IsAcceptedCover nested.now cover) }
        ensures rooms { IfOk result (λ cover. All (λ set. length set ≡ length graph.now.names) cover.owned) }
    {
        match check_texts(alloc, nested, graph, self.sites) {
            Ok(cover) => Ok(cover),
            Err(stop) => Err(refused(alloc, graph, stop)),
        }
    }
}

// The refusal of what is no cover.
fn no_cover() -> CaseStop
    ensures { result ≡ CaseStop.Shape part.Cover 0 }
{
    CaseStop::Shape {
        part: Part::Cover,
        index: 0,
    }
}
