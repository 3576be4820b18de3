ghost use Rattle.std.specs.Prelude.{◌≡◌, ◌<◌, codes, [], length, map, unwrap_or, Some, slice_get};
ghost use Rattle.serde_json.specs.View.{view};
ghost use Rattle.dcr_format.specs.Members.{array_at};
ghost use Rattle.dcr_cover_json.specs.Sites.{Site};

use dcr_format::{member_array, member_text};
use serde_json::Value;

/// A site as it is given: its name, and the texts that say what it owns.
#[derive(Debug, Drop)]
pub struct SiteText {
    pub name: String,
    pub owned: Vec<String>,
}

// What reads as a site: it lends the text of its name, and one by one its owned texts.
pub(crate) trait AsSiteText {
    ghost written: { Self → Site };

    // The text of its name.
    fn name(&self) -> &str
        ensures { result.now ≡ (written self.now).0 };

    // How many owned texts there are.
    fn owned_len(&self) -> usize
        ensures { result ≡ length (written self.now).1 };

    // The owned text at a place.
    fn owned_text(&self, j: usize) -> &str
        requires { j < length (written self.now).1 }
        ensures { slice_get (written self.now).1 j ≡ Some result.now };
}

impl AsSiteText for SiteText {
    ghost use Rattle.dcr_cover_json.specs.Seen.{site_given};

    ghost written = { site_given };

    fn name(&self) -> &str {
        self.name.as_str()
    }

    fn owned_len(&self) -> usize {
        self.owned.len()
    }

    fn owned_text(&self, j: usize) -> &str {
        self.owned[j].as_str()
    }
}

impl AsSiteText for Value {
    ghost use Rattle.dcr_cover_json.specs.Seen.{site_lent};

    ghost written = { site_lent };

    fn name(&self) -> &str {
        match member_text(self, "site") {
            Some(text) => text,
            None => "",
        }
    }

    fn owned_len(&self) -> usize {
        texts(self).len()
    }

    fn owned_text(&self, j: usize) -> &str {
        match texts(self)[j].as_str() {
            Some(text) => text,
            None => "",
        }
    }
}

// The values of its owned texts.
fn texts(site: &Value) -> &[Value]
    ensures { map view result.now ≡ unwrap_or (array_at (codes "events") (view site.now)) [] }
{
    match member_array(site, "events") {
        Some(values) => values,
        None => &[],
    }
}
