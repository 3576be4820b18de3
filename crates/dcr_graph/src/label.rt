ghost use Rattle.std.specs.Prelude.{◌≡◌, ◌↔◌, true, false, IfOk, IsErrOf};
ghost use Rattle.dcr_graph.specs.Names.{is_label};
ghost use Rattle.dcr_graph.specs.declared.label.LabelStop.TheVariants.{NoMemory};

use crate::Name;
use dcr_set::NoMemory;
use std::alloc::{AllocError, Global};
use std::marker::Model;
use thiserror::Error;

/// A label: any text of at most 200 bytes. It is carried and printed. Contracts see its bytes.
#[derive(Debug, Drop)]
pub struct Label {
    text: String,
}

impl Model for Label {
    ghost use Rattle.std.specs.Prelude.{◌≡◌, List, ℕ, true, string_bytes};

    ghost Value = { List ℕ };

    ghost use Rattle.dcr_graph.specs.Names.{is_label};

    ghost view = { λ n. string_bytes n.text };

    ghost invariant = { λ n. is_label (string_bytes n.text) ≡ true };
}

/// Why a text was not read as a label.
#[derive(Clone, Copy, Debug, PartialEq, Eq, Error)]
pub enum LabelStop {
    /// The text has more than 200 bytes.
    #[error("a label of more than 200 bytes")]
    Long,
    /// Memory was wanted and could not be had.
    #[error("out of memory")]
    NoMemory,
}

impl From<AllocError> for LabelStop {
    ghost from_gives = { λ _ e. e ≡ NoMemory };

    fn from(_: AllocError) -> LabelStop {
        LabelStop::NoMemory
    }
}

impl Label {
    /// The label that the text is. `Long` exactly where the text has more than 200 bytes.
    pub fn read(alloc: Global, text: &str) -> Result<Label, LabelStop>
        ensures read { IfOk result (λ label. label ≡ text.now) }
        ensures long { IsErrOf result LabelStop.Long ↔ (is_label text.now ≡ false) }
    {
        if text.len() > 200 {
            return Err(LabelStop::Long);
        }
        Ok(Label {
            text: String::from_str(alloc, text)?,
        })
    }

    /// The label that a name is: an event without a label of its own has its name for one.
    pub fn of_name(alloc: Global, name: &Name) -> Result<Label, NoMemory>
        ensures { IfOk result (λ label. label ≡ name.now) }
    {
        let text = String::from_str(alloc, name.text())?;
        Ok(Label { text })
    }

    /// The same label again.
    pub fn copy(&self, alloc: Global) -> Result<Label, NoMemory>
        ensures { IfOk result (λ label. label ≡ self.now) }
    {
        let text = String::from_str(alloc, self.text())?;
        Ok(Label { text })
    }

    /// Its text.
    pub fn text(&self) -> &str
        ensures text { result.now ≡ self.now }
        ensures label { is_label self.now ≡ true }
    {
        self.text.as_str()
    }
}
