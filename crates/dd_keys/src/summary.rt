ghost use Rattle.std.specs.Prelude.{◌≡◌};
ghost use Rattle.dd_elem.specs.declared.tag.Tag.{Tag};
ghost use Rattle.dd_scan.specs.Scan.{Summary as ValueSummary};
ghost use Rattle.dd_scan.specs.Summaries.{summary_in, summary_view};
ghost use Rattle.dd_set.specs.Views.{set_view};
ghost use Rattle.dd_keys.specs.Summaries.{summary_at};

use dd_elem::Tag;
use dd_scan::{Found, Summary};
use dd_set::{DataSet, value_at};

/// Gives the summaries of the values of a data set, whole in memory or scanned.
pub(crate) trait Values {
    ghost tells: { Self → Tag → ValueSummary };

    /// Summarizes the value of the first element with this tag: no bytes where no element has it, and None for a
    /// sequence or fragments.
    fn value(&self, tag: Tag) -> Option<Summary<'_>>
        ensures { summary_view result ≡ tells self.now tag };
}

impl Values for DataSet<'_> {
    ghost tells = { λ set tag. summary_at tag (set_view set) };

    fn value(&self, tag: Tag) -> Option<Summary<'_>> {
        match value_at(self, tag) {
            None => None,
            Some(value) => Some(Summary::of(value)),
        }
    }
}

impl Values for Vec<Found> {
    ghost tells = { λ found tag. summary_in tag found.items };

    fn value(&self, tag: Tag) -> Option<Summary<'_>> {
        Summary::find(self, tag)
    }
}
